//! Arguments as they are given to a call.
use pdl_elem::Ty;
use pdl_shape::Dims;
use std::marker::Model;

/// An argument that was given, whose elements are its own.
#[derive(Drop)]
pub struct Given {
    pub(crate) ty: Ty,
    pub(crate) dims: Dims,
    pub(crate) elems: Vec<i64>,
}

impl Model for Given {
    ghost use Rattle.pdl_buf.specs.declared.made.Made.{Made};

    ghost Value = { Made };

    ghost view = { λ g. record { ty = g.ty; dims = g.dims; elems = g.elems.items } };
}
