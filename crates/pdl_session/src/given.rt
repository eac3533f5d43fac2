//! The arguments of a call, once they are evaluated.
use pdl_elem::Ty;
use pdl_engine::ArrayId;

/// An argument that was evaluated: an array, a string, or a type word.
#[derive(Clone, Copy)]
pub enum Given<'a> {
    Array(ArrayId),
    Text(&'a [u8]),
    OfType(Ty),
}
