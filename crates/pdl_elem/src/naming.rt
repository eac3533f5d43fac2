//! The names and the words of the types.
ghost use Rattle.std.specs.Prelude.{◌≡◌, Some};
ghost use Rattle.pdl_elem.specs.Types.{name_of, type_named, type_word};

use crate::Ty;
use crate::tables::found_in;

/// The types by their words, in the order of their ranks.
const TYPE_WORDS: &[(&[u8], Ty)] = &[
    (b"sbyte", Ty::Sbyte),
    (b"byte", Ty::Byte),
    (b"short", Ty::Short),
    (b"ushort", Ty::Ushort),
    (b"long", Ty::Long),
    (b"ulong", Ty::Ulong),
    (b"longlong", Ty::Longlong),
];

/// The type's name as `info` prints it.
pub fn type_name(ty: Ty) -> &'static str
    ensures { result.now ≡ name_of ty }
{
    match ty {
        Ty::Sbyte => "Sbyte",
        Ty::Byte => "Byte",
        Ty::Short => "Short",
        Ty::Ushort => "Ushort",
        Ty::Long => "Long",
        Ty::Ulong => "Ulong",
        Ty::Longlong => "LongLong",
    }
}

/// The type's word in scripts and signatures.
pub fn type_word(ty: Ty) -> &'static str
    ensures word { result.now ≡ type_word ty }
    ensures named { type_named result.now ≡ Some ty }
{
    match ty {
        Ty::Sbyte => "sbyte",
        Ty::Byte => "byte",
        Ty::Short => "short",
        Ty::Ushort => "ushort",
        Ty::Long => "long",
        Ty::Ulong => "ulong",
        Ty::Longlong => "longlong",
    }
}

/// The type that a word is the word of, if any.
pub fn type_named(word: &[u8]) -> Option<Ty>
    ensures { result ≡ type_named word.now }
{
    found_in(TYPE_WORDS, word)
}
