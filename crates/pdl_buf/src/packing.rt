//! Numbers that are collected in blocks, packed as they are made or as a list.
ghost use Rattle.std.specs.Prelude.{◌≡◌, ◌≢◌, ◌<◌, ◌≤◌, ◌+◌, ◌++◌, [], pos, length, take, drop, All, IsTrue, IfOk, OnOk, OnErr};
ghost use Rattle.pdl_elem.specs.Blocks.{pairwise};
ghost use Rattle.pdl_elem.specs.Operators.{divides, value_of};
ghost use Rattle.pdl_elem.specs.Types.{InRange};
ghost use Rattle.pdl_buf.specs.Elements.{listed};
ghost use Rattle.pdl_numbers.specs.Numbers.{elements_in};

use pdl_elem::{BinaryOp, Ty, apply_all, block_laws};
use pdl_numbers::{Numbers, Run, numbers_of};
use std::alloc::{AllocError, Global};
use std::marker::Model;

/// How numbers are kept: 64 bits for each, or the bytes of a type.
#[derive(Debug, Drop)]
pub(crate) enum Form {
    Wide(Vec<i64>),
    Packed(Numbers),
}

impl Form {
    /// How many numbers there are.
    pub(crate) fn len(&self) -> usize
        ensures { result ≡ length (listed self.now) }
    {
        match self {
            Form::Wide(items) => items.len(),
            Form::Packed(numbers) => numbers.len(),
        }
    }

    /// Sets `into` to the numbers from a position on, of which there are enough.
    pub(crate) fn read(&self, first: usize, into: &mut [i64])
        requires { first + length into.old ≤ length (listed self.now) }
        ensures { into.new ≡ take (length into.old) (drop first (listed self.now)) }
    {
        match self {
            Form::Wide(items) => {
                let end = first + into.len();
                into.copy_from_slice(&items[first..end]);
            }
            Form::Packed(numbers) => numbers.read_from(first, into),
        }
    }

    /// The numbers as a list of their own.
    pub(crate) fn to_list(&self, alloc: Global) -> Result<Vec<i64>, AllocError>
        ensures { IfOk result (λ list. list.items ≡ listed self.now) }
    {
        let mut list = vec![in alloc; 0; self.len()]?;
        self.read(0, &mut list);
        Ok(list)
    }

    /// The numbers as a list. A list is moved.
    pub(crate) fn into_list(self, alloc: Global) -> Result<Vec<i64>, AllocError>
        ensures { IfOk result (λ list. list.items ≡ listed self) }
    {
        match self {
            Form::Wide(items) => Ok(items),
            Form::Packed(numbers) => Form::Packed(numbers).to_list(alloc),
        }
    }

    /// The numbers anew, packed at a type in whose range they are.
    pub(crate) fn copied(&self, alloc: Global, ty: Ty) -> Result<Numbers, AllocError>
        requires { All (InRange ty) (listed self.now) }
        ensures { IfOk result (λ kept.
            elements_in kept ≡ record { ty = ty; elems = listed self.now }) }
    {
        match self {
            Form::Wide(items) => numbers_of(alloc, ty, items),
            Form::Packed(numbers) => numbers.copied(alloc, ty),
        }
    }

    /// The numbers, packed at a type in whose range they are. What is packed at it is moved.
    pub(crate) fn into_numbers(self, alloc: Global, ty: Ty) -> Result<Numbers, AllocError>
        requires { All (InRange ty) (listed self) }
        ensures { IfOk result (λ kept. elements_in kept ≡ record { ty = ty; elems = listed self }) }
    {
        match self {
            Form::Wide(items) => numbers_of(alloc, ty, &items),
            Form::Packed(numbers) => numbers.at_type(alloc, ty),
        }
    }
}

/// Puts the operator's values at a type on each two numbers of it after the others of a list.
fn extend_list(
    list: &mut Vec<i64>,
    op: BinaryOp,
    ty: Ty,
    left: &[i64],
    right: &[i64],
) -> Result<(), AllocError>
    requires paired { length left.now ≡ length right.now }
    requires left_in_range { All (InRange ty) left.now }
    requires right_in_range { All (InRange ty) right.now }
    requires divisors { IsTrue (divides op) → All (λ y. y ≢ pos 0) right.now }
    ensures ok { let values = pairwise (value_of op ty) left.now right.now in
        OnOk result (list.new.items ≡ list.old.items ++ values) }
    ensures err { OnErr result (list.new.items ≡ list.old.items) }
{
    let start = list.len();
    list.resize(start + left.len(), 0)?;
    apply_all(op, ty, left, right, &mut list[start..]);
    Ok(())
}

/// Puts the operator's values at a type on each two numbers of two runs of it after the others of a
/// list.
fn extend_list_of(
    list: &mut Vec<i64>,
    op: BinaryOp,
    ty: Ty,
    left: &Run<'_>,
    right: &Run<'_>,
) -> Result<(), AllocError>
    requires paired { length left.now.elems ≡ length right.now.elems }
    requires left_type { left.now.ty ≡ ty }
    requires right_type { right.now.ty ≡ ty }
    requires divisors { IsTrue (divides op) → All (λ y. y ≢ pos 0) right.now.elems }
    ensures ok { let values = pairwise (value_of op ty) left.now.elems right.now.elems in
        OnOk result (list.new.items ≡ list.old.items ++ values) }
    ensures err { OnErr result (list.new.items ≡ list.old.items) }
{
    left.are_in_range();
    right.are_in_range();
    let xs = left.to_list(*list.allocator())?;
    let ys = right.to_list(*list.allocator())?;
    extend_list(list, op, ty, &xs, &ys)
}

/// A type and numbers in its range, which are put one block after another: packed, so that they
/// take no more bytes than the type is wide, or as a list of 64-bit numbers. No array has them yet.
#[derive(Debug, Drop)]
pub struct Packing {
    ty: Ty,
    pub(crate) form: Form,
}

impl Model for Packing {
    ghost use Rattle.pdl_numbers.specs.Typed.{TypedElements};
    ghost use Rattle.pdl_buf.specs.Elements.{IsAtType, listed};

    ghost Value = { TypedElements };

    ghost view = { λ p. record { ty = p.ty; elems = listed p.form } };

    ghost invariant = { λ p. IsAtType p.ty p.form };
}

impl Packing {
    /// No numbers of the type, with room for so many, to be packed.
    pub fn new(alloc: Global, ty: Ty, count: usize) -> Result<Packing, AllocError>
        ensures { IfOk result (λ p. p ≡ record { ty = ty; elems = [] }) }
    {
        Ok(Packing {
            ty,
            form: Form::Packed(Numbers::with_room(alloc, ty, count)?),
        })
    }

    /// No numbers of the type, with room for so many, to be listed.
    pub fn list(alloc: Global, ty: Ty, count: usize) -> Result<Packing, AllocError>
        ensures { IfOk result (λ p. p ≡ record { ty = ty; elems = [] }) }
    {
        Ok(Packing {
            ty,
            form: Form::Wide(Vec::with_capacity(alloc, count)?),
        })
    }

    /// Numbers that are packed already, which are moved in.
    pub fn of(numbers: Numbers) -> Packing
        ensures { result ≡ elements_in numbers }
    {
        Packing {
            ty: numbers.ty(),
            form: Form::Packed(numbers),
        }
    }

    /// Puts these numbers, which are in the type's range, after the others. Out of memory it
    /// puts none.
    pub fn extend(&mut self, numbers: &[i64]) -> Result<(), AllocError>
        requires { All (InRange self.old.ty) numbers.now }
        ensures ok { let elems = self.old.elems ++ numbers.now in
            OnOk result (self.new ≡ record self.old { elems = elems }) }
        ensures err { OnErr result (self.new ≡ self.old) }
    {
        match &mut self.form {
            Form::Wide(items) => items.extend_from_slice(numbers),
            Form::Packed(packed) => packed.extend(numbers),
        }
    }

    /// Puts the operator's values at the type on each two numbers of it after the others. Where the
    /// operator divides, none of those on the right is 0. Out of memory it puts none.
    pub fn extend_values(
        &mut self,
        op: BinaryOp,
        left: &[i64],
        right: &[i64],
    ) -> Result<(), AllocError>
        requires paired { length left.now ≡ length right.now }
        requires left_in_range { All (InRange self.old.ty) left.now }
        requires right_in_range { All (InRange self.old.ty) right.now }
        requires divisors { IsTrue (divides op) → All (λ y. y ≢ pos 0) right.now }
        ensures ok { let values = pairwise (value_of op self.old.ty) left.now right.now in
            OnOk result (self.new ≡ record self.old { elems = self.old.elems ++ values }) }
        ensures err { OnErr result (self.new ≡ self.old) }
    {
        block_laws();
        match &mut self.form {
            Form::Wide(items) => extend_list(items, op, self.ty, left, right),
            Form::Packed(packed) => packed.extend_values(op, left, right),
        }
    }

    /// Puts the operator's values at the type on each two numbers of two runs of it after the
    /// others. Where the operator divides, none of those on the right is 0. Out of memory it puts
    /// none.
    pub fn extend_values_of(
        &mut self,
        op: BinaryOp,
        left: &Run<'_>,
        right: &Run<'_>,
    ) -> Result<(), AllocError>
        requires paired { length left.now.elems ≡ length right.now.elems }
        requires left_type { left.now.ty ≡ self.old.ty }
        requires right_type { right.now.ty ≡ self.old.ty }
        requires divisors { IsTrue (divides op) → All (λ y. y ≢ pos 0) right.now.elems }
        ensures ok { let f = value_of op self.old.ty in
            let values = pairwise f left.now.elems right.now.elems in
            OnOk result (self.new ≡ record self.old { elems = self.old.elems ++ values }) }
        ensures err { OnErr result (self.new ≡ self.old) }
    {
        block_laws();
        match &mut self.form {
            Form::Wide(items) => extend_list_of(items, op, self.ty, left, right),
            Form::Packed(packed) => packed.extend_values_of(op, left, right),
        }
    }

    /// Puts the numbers of a run of the type after the others. Out of memory it puts none.
    pub fn extend_run(&mut self, run: &Run<'_>) -> Result<(), AllocError>
        requires { run.now.ty ≡ self.old.ty }
        ensures ok { let elems = self.old.elems ++ run.now.elems in
            OnOk result (self.new ≡ record self.old { elems = elems }) }
        ensures err { OnErr result (self.new ≡ self.old) }
    {
        run.are_in_range();
        match &mut self.form {
            Form::Wide(items) => {
                let numbers = run.to_list(*items.allocator())?;
                items.extend_from_slice(&numbers)
            }
            Form::Packed(packed) => packed.extend_run(run),
        }
    }

    /// The numbers as a list. One that was begun as a list is moved.
    pub fn into_list(self, alloc: Global) -> Result<Vec<i64>, AllocError>
        ensures { IfOk result (λ list. list.items ≡ self.elems) }
    {
        self.form.into_list(alloc)
    }
}
