//! Results that are collected: however few are put at once, they are packed in blocks.
ghost use Rattle.std.specs.Prelude.{◌≡◌, ◌<◌, ◌≤◌, ◌+◌, ◌*◌, ◌%◌, ◌++◌, [], length, map, get_or, All, fold, IfOk, OnOk, OnErr};
ghost use Rattle.std.specs.List.{range_with_len};
ghost use Rattle.pdl_elem.specs.Types.{InRange};
ghost use Rattle.pdl_shape.specs.Shape.{extent_limit};
ghost use Rattle.pdl_numbers.specs.Folds.{WrapsLate};
ghost use Rattle.pdl_numbers.specs.Numbers.{elements_in};
ghost use Rattle.pdl_numbers.specs.Prefixes.{wrapped_prefixes};
ghost use Rattle.pdl_reduce.specs.Across.{come_to};

use crate::columns::put_lists;
use crate::windows::BLOCK;
use pdl_buf::{Packing, Strided};
use pdl_elem::Ty;
use pdl_numbers::{Folding, Numbers, Run};
use std::alloc::{AllocError, Global};
use std::marker::Model;

/// Packs the numbers of a block, which are in the type's range, after the others, and empties it.
/// Out of memory both stay.
fn pack_block(packed: &mut Numbers, block: &mut Vec<i64>) -> Result<(), AllocError>
    requires { All (InRange (elements_in packed.old).ty) block.old.items }
    ensures ok { let old = elements_in packed.old in
        let elems = old.elems ++ block.old.items in
        OnOk result (elements_in packed.new ≡ record old { elems = elems }) }
    ensures emptied { OnOk result (block.new.items ≡ []) }
    ensures err { OnErr result (elements_in packed.new ≡ elements_in packed.old) }
    ensures kept { OnErr result (block.new.items ≡ block.old.items) }
{
    if block.is_empty() {
        return Ok(());
    }
    packed.extend(block)?;
    block.clear();
    Ok(())
}

/// A type and numbers in its range, which are put a few at a time, seen as a packing of them all.
#[derive(Drop)]
pub(crate) struct Collected {
    packed: Numbers,
    /// Those after the packed ones, less than a block.
    block: Vec<i64>,
}

impl Model for Collected {
    ghost use Rattle.std.specs.Prelude.{◌++◌, All};
    ghost use Rattle.pdl_numbers.specs.Numbers.{elements_in};
    ghost use Rattle.pdl_numbers.specs.Typed.{TypedElements};
    ghost use Rattle.pdl_elem.specs.Types.{InRange};

    ghost Value = { TypedElements };

    ghost view = { λ c.
        let packed = elements_in c.packed in
        record packed { elems = packed.elems ++ c.block.items } };

    ghost invariant = { λ c. All (InRange (elements_in c.packed).ty) c.block.items };
}

impl Collected {
    /// No numbers of the type, with room for so many.
    pub(crate) fn new(alloc: Global, ty: Ty, count: usize) -> Result<Collected, AllocError>
        ensures { IfOk result (λ c. c ≡ record { ty = ty; elems = [] }) }
    {
        Ok(Collected {
            packed: Numbers::with_room(alloc, ty, count)?,
            block: Vec::with_capacity(alloc, BLOCK.min(count))?,
        })
    }

    /// Puts these numbers, which are in the type's range, after the others.
    pub(crate) fn extend(&mut self, numbers: &[i64]) -> Result<(), AllocError>
        requires { All (InRange self.old.ty) numbers.now }
        ensures ok { let elems = self.old.elems ++ numbers.now in
            OnOk result (self.new ≡ record self.old { elems = elems }) }
    {
        if self.block.len() + numbers.len() < BLOCK {
            return self.block.extend_from_slice(numbers);
        }
        pack_block(&mut self.packed, &mut self.block)?;
        if numbers.len() < BLOCK {
            return self.block.extend_from_slice(numbers);
        }
        self.packed.extend(numbers)
    }

    /// Puts what numbers come to up to each of them, from a start on, wrapped to the type, after
    /// the others. They are packed as they are found, in no block. It answers what all come to.
    pub(crate) fn extend_prefixes<F: Folding>(
        &mut self,
        start: i64,
        numbers: &[i64],
    ) -> Result<i64, AllocError>
        ensures value { IfOk result (λ end. end ≡ fold F.taken start numbers.now) }
        ensures ok { let new = wrapped_prefixes self.old.ty F.taken start numbers.now in
            OnOk result (self.new ≡ record self.old { elems = self.old.elems ++ new }) }
    {
        pack_block(&mut self.packed, &mut self.block)?;
        self.packed.extend_prefixes::<F>(start, numbers)
    }

    /// Puts what the numbers of a run of the type come to up to each of them, from a start on,
    /// wrapped to the type, after the others. They are read where they stand, and packed as they
    /// are found. It answers what all come to.
    pub(crate) fn extend_prefixes_of<F: Folding>(
        &mut self,
        start: i64,
        run: &Run<'_>,
    ) -> Result<i64, AllocError>
        requires { run.now.ty ≡ self.old.ty }
        ensures value { IfOk result (λ end. end ≡ fold F.taken start run.now.elems) }
        ensures ok { let new = wrapped_prefixes self.old.ty F.taken start run.now.elems in
            OnOk result (self.new ≡ record self.old { elems = self.old.elems ++ new }) }
    {
        pack_block(&mut self.packed, &mut self.block)?;
        self.packed.extend_prefixes_of::<F>(start, run)
    }

    /// Puts what a window's lists along dimension 0 from one on come to, in one plane, as many as
    /// there is room for starts, after the others, which have the window's type. They are worked on
    /// where they are packed.
    pub(crate) fn extend_lists<F: Folding>(
        &mut self,
        a: &Strided<'_>,
        first: u32,
        size: u32,
        start: i64,
        starts: &mut [i64],
    ) -> Result<(), AllocError>
        requires late { WrapsLate F.taken }
        requires size { size ≡ get_or a.now.dims 0 1 }
        requires some { 0 < length starts.old }
        requires few { length starts.old ≤ extent_limit }
        requires small { length a.now.elems ≤ extent_limit }
        requires plane { first % get_or a.now.dims 1 1 + length starts.old
            ≤ get_or a.now.dims 1 1 }
        requires within { (first + length starts.old) * size ≤ length a.now.elems }
        requires typed { self.old.ty ≡ a.now.ty }
        ensures { let at = come_to self.old.ty F.taken start size a.now.elems in
            let new = map at (range_with_len first (length starts.old)) in
            OnOk result (self.new ≡ record self.old { elems = self.old.elems ++ new }) }
    {
        pack_block(&mut self.packed, &mut self.block)?;
        put_lists::<F>(a, first, size, start, starts, &mut self.packed)
    }

    /// The type of the numbers.
    pub(crate) fn ty(&self) -> Ty
        ensures { result ≡ self.now.ty }
    {
        self.packed.ty()
    }

    /// The packing of all numbers, those of the last block too.
    pub(crate) fn packed(self) -> Result<Packing, AllocError>
        ensures { IfOk result (λ packing. packing ≡ self) }
    {
        let Collected {
            mut packed,
            mut block,
        } = self;
        pack_block(&mut packed, &mut block)?;
        Ok(Packing::of(packed))
    }
}
