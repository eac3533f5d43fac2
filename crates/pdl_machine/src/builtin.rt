//! The built-in calls.
ghost use Rattle.std.specs.Prelude.{◌≡◌};
ghost use Rattle.pdl_machine.specs.Builtin.{builtin_of};

use pdl_elem::{Ty, found_in, type_named};
use pdl_ops::Fill;
use pdl_reduce::{Pairing, Reduction, Whole};

/// What a new array tells of an array.
#[derive(Clone, Copy)]
pub enum Inquiry {
    /// `copy`: its type, dimensions and elements.
    Copy,
    /// A type word: its dimensions, and its elements wrapped to the type.
    Convert(Ty),
    /// `nelem`: how many elements it has.
    Nelem,
    /// `ndims`: how many dimensions it has.
    Ndims,
    /// `shape`: its sizes, in one dimension.
    Shape,
    /// `which`: the positions of its elements that aren't 0, rising, in one dimension.
    Which,
}

/// How a view arranges the dimensions of its parent by numbers (PDL::Slices).
#[derive(Clone, Copy)]
pub enum Arrangement {
    /// `xchg`: two dimensions in each other's place.
    Xchg,
    /// `mv`: a dimension put in another place.
    Mv,
    /// `reorder`: all dimensions in a new order.
    Reorder,
    /// `dummy`: a new dimension, of size 1 unless a size is given.
    Dummy,
    /// `diagonal`: dimensions of one size run through together.
    Diagonal,
    /// `clump`: the first dimensions joined.
    Clump,
    /// `flat`: all dimensions joined.
    Flat,
    /// `squeeze`: without the dimensions of size 1.
    Squeeze,
}

/// A call that is built in.
#[derive(Clone, Copy)]
pub enum Builtin {
    /// A new array of an optional type word and a size per dimension.
    Filled(Fill),
    /// A new array of one array.
    Told(Inquiry),
    /// `dim`: a new array of the size of one dimension.
    Dim,
    /// `slice`: a view by a text.
    Slice,
    /// `nice`: a view by a pattern and numbers in it, or by another array's values.
    Nice,
    /// A view by numbers.
    Arranged(Arrangement),
    /// `index`: a view by another array's values.
    Index,
    /// `where`: a view by a mask.
    Where,
    /// `range`: a view of windows.
    Range,
    /// A new array of each list along dimension 0 of an array.
    Reduced(Reduction),
    /// A new array of all elements of an array.
    Whole(Whole),
    /// A new array of the products of two arrays.
    Paired(Pairing),
}

/// The built-in calls by their names, but for the conversions.
const BUILTINS: &[(&[u8], Builtin)] = &[
    // New arrays by sizes.
    (b"zeroes", Builtin::Filled(Fill::Zeroes)),
    (b"ones", Builtin::Filled(Fill::Ones)),
    (b"sequence", Builtin::Filled(Fill::Sequence)),
    (b"xvals", Builtin::Filled(Fill::Xvals)),
    (b"yvals", Builtin::Filled(Fill::Yvals)),
    // New arrays that tell something of an array, beside its conversions.
    (b"copy", Builtin::Told(Inquiry::Copy)),
    (b"nelem", Builtin::Told(Inquiry::Nelem)),
    (b"ndims", Builtin::Told(Inquiry::Ndims)),
    (b"shape", Builtin::Told(Inquiry::Shape)),
    (b"which", Builtin::Told(Inquiry::Which)),
    (b"dim", Builtin::Dim),
    // Views.
    (b"slice", Builtin::Slice),
    (b"nice", Builtin::Nice),
    (b"xchg", Builtin::Arranged(Arrangement::Xchg)),
    (b"mv", Builtin::Arranged(Arrangement::Mv)),
    (b"reorder", Builtin::Arranged(Arrangement::Reorder)),
    (b"dummy", Builtin::Arranged(Arrangement::Dummy)),
    (b"diagonal", Builtin::Arranged(Arrangement::Diagonal)),
    (b"clump", Builtin::Arranged(Arrangement::Clump)),
    (b"flat", Builtin::Arranged(Arrangement::Flat)),
    (b"squeeze", Builtin::Arranged(Arrangement::Squeeze)),
    (b"index", Builtin::Index),
    (b"where", Builtin::Where),
    (b"range", Builtin::Range),
    // Reductions along dimension 0.
    (b"sumover", Builtin::Reduced(Reduction::Sumover)),
    (b"prodover", Builtin::Reduced(Reduction::Prodover)),
    (b"cumusumover", Builtin::Reduced(Reduction::Cumusumover)),
    (b"cumuprodover", Builtin::Reduced(Reduction::Cumuprodover)),
    (b"maximum", Builtin::Reduced(Reduction::Maximum)),
    (b"minimum", Builtin::Reduced(Reduction::Minimum)),
    (b"maximum_ind", Builtin::Reduced(Reduction::MaximumInd)),
    (b"minimum_ind", Builtin::Reduced(Reduction::MinimumInd)),
    // Reductions of all elements, and products of two arrays.
    (b"sum", Builtin::Whole(Whole::Sum)),
    (b"prod", Builtin::Whole(Whole::Prod)),
    (b"max", Builtin::Whole(Whole::Max)),
    (b"min", Builtin::Whole(Whole::Min)),
    (b"all", Builtin::Whole(Whole::All)),
    (b"any", Builtin::Whole(Whole::Any)),
    (b"inner", Builtin::Paired(Pairing::Inner)),
    (b"outer", Builtin::Paired(Pairing::Outer)),
    (b"matmult", Builtin::Paired(Pairing::Matmult)),
];

/// The built-in call of this name, if there is one.
pub fn builtin_named(name: &[u8]) -> Option<Builtin>
    ensures { result ≡ builtin_of name.now }
{
    match type_named(name) {
        Some(ty) => Some(Builtin::Told(Inquiry::Convert(ty))),
        None => found_in(BUILTINS, name),
    }
}
