//! An array in a buffer of its own, which is lent as a window.
ghost use Rattle.std.specs.Prelude.{◌≡◌, ◌+◌, IfOk, OnOk, OnErr};
ghost use Rattle.pdl_numbers.specs.Typed.{count_moved};
ghost use Rattle.pdl_buf.specs.Made.{IsMade, array_of};
ghost use Rattle.pdl_ops.specs.Laws.{IsArray};

use pdl_buf::{Buf, Made, Steps, Strided, buf_of, buf_of_elements, strided};
use pdl_elem::Ty;
use pdl_ops::copied;
use pdl_shape::{Dims, copy_dims, whole_triple};
use std::alloc::{AllocError, Global};
use std::marker::Model;
use std::sync::ledger::Ledger;

/// An array that is kept whole in a buffer.
#[derive(Drop)]
pub struct Kept {
    buf: Buf,
    dims: Dims,
}

impl Model for Kept {
    ghost use Rattle.std.specs.Prelude.{◌≡◌, length};
    ghost use Rattle.pdl_shape.specs.Shape.{size_of};
    ghost use Rattle.pdl_buf.specs.declared.made.Made.{Made};

    ghost Value = { Made };

    ghost view = { λ k. record { ty = k.buf.ty; dims = k.dims; elems = k.buf.elems } };

    ghost invariant = { λ k. length k.buf.elems ≡ size_of k.dims };
}

impl Kept {
    /// What was made, in a buffer. Each element that isn't 0 is a step.
    pub fn new<L: Ledger>(
        alloc: Global,
        made: Made,
        steps: &mut Steps<L>,
    ) -> Result<Kept, AllocError>
        requires { IsArray made }
        ensures value { IfOk result (λ kept. kept ≡ made) }
        ensures counted { OnOk result (steps.new ≡ steps.old + count_moved made.elems) }
        ensures err { OnErr result (steps.new ≡ steps.old) }
    {
        Ok(Kept {
            buf: buf_of_elements(alloc, made.ty, made.elems, steps)?,
            dims: made.dims,
        })
    }

    /// An array of a type, dimensions and elements, in a buffer. Each element that isn't 0 is a
    /// step.
    pub(crate) fn of_list<L: Ledger>(
        alloc: Global,
        ty: Ty,
        dims: &Dims,
        elems: &[i64],
        steps: &mut Steps<L>,
    ) -> Result<Kept, AllocError>
        requires { IsMade ty dims.now elems.now }
        ensures value { IfOk result
            (λ kept. kept ≡ record { ty = ty; dims = dims.now; elems = elems.now }) }
        ensures counted { OnOk result (steps.new ≡ steps.old + count_moved elems.now) }
        ensures err { OnErr result (steps.new ≡ steps.old) }
    {
        Ok(Kept {
            buf: buf_of(alloc, ty, elems, steps)?,
            dims: copy_dims(dims),
        })
    }

    /// What a window shows, in a buffer. Each element that isn't 0 is a step.
    pub(crate) fn copied<L: Ledger>(
        alloc: Global,
        window: &Strided<'_>,
        steps: &mut Steps<L>,
    ) -> Result<Kept, AllocError>
        ensures value { IfOk result (λ kept. kept ≡ array_of window.now) }
        ensures counted { OnOk result (steps.new ≡ steps.old + count_moved window.now.elems) }
        ensures err { OnErr result (steps.new ≡ steps.old) }
    {
        let made = copied(alloc, window)?;
        Kept::new(alloc, made, steps)
    }

    /// The buffer, out of which nothing is copied.
    pub fn into_buf(self) -> Buf
        ensures { result ≡ record { ty = self.ty; elems = self.elems } }
    {
        self.buf
    }

    /// The whole array as a window.
    pub fn whole(&self, alloc: Global) -> Strided<'_>
        ensures { array_of result ≡ self.now }
    {
        strided(&self.buf, &whole_triple(alloc, &self.dims))
    }
}
