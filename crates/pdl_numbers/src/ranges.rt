//! Packed numbers are in their type's range, and so are those that are shown of them.
ghost use Rattle.std.specs.Prelude.{All};
ghost use Rattle.pdl_elem.specs.Types.{InRange};
ghost use Rattle.pdl_numbers.specs.Numbers.{elements_in};

use crate::numbers::Numbers;
use crate::runs::Run;

impl Numbers {
    /// All of them are in the type's range. It does nothing: who calls it knows that.
    pub fn are_in_range(&self)
        ensures { All (InRange (elements_in self.now).ty) (elements_in self.now).elems }
    {
        match self {
            Numbers::Sbytes(packed) => packed.are_in_range(),
            Numbers::Bytes(packed) => packed.are_in_range(),
            Numbers::Shorts(packed) => packed.are_in_range(),
            Numbers::Ushorts(packed) => packed.are_in_range(),
            Numbers::Longs(packed) => packed.are_in_range(),
            Numbers::Ulongs(packed) => packed.are_in_range(),
            Numbers::Longlongs(packed) => packed.are_in_range(),
        }
    }
}

impl<'a> Run<'a> {
    /// All of them are in the type's range. It does nothing: who calls it knows that.
    pub fn are_in_range(&self)
        ensures { All (InRange self.now.ty) self.now.elems }
    {
        self.numbers.are_in_range();
    }
}
