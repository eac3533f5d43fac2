//! Runs of numbers that are neighbours, worked on where they are kept.
ghost use Rattle.std.specs.Prelude.{◌≡◌, ◌≢◌, ◌<◌, ◌≤◌, ◌+◌, ◌++◌, ℕ, pos, length, take, drop, fold, map, All, IsTrue, IfOk, OnOk, OnErr};
ghost use Rattle.pdl_elem.specs.Blocks.{pairwise};
ghost use Rattle.pdl_elem.specs.Operators.{divides, value_of};
ghost use Rattle.pdl_shape.specs.Shape.{size_of};
ghost use Rattle.pdl_shape.specs.Triple.{Reaches};
ghost use Rattle.pdl_numbers.specs.Bytes.{ArePacked, bytes_of, number_of};
ghost use Rattle.pdl_numbers.specs.Numbers.{elements_in};
ghost use Rattle.pdl_numbers.specs.Prefixes.{wrapped_prefixes};
ghost use Rattle.pdl_numbers.specs.Shown.{place_at, shown_through};

use crate::numbers::Numbers;
use crate::packed::{Packed, packed_value};
use crate::placement::Placement;
use crate::prefixes::{Folding, update_prefixes};
use crate::reads::{inc_along, run_length, size_along};
use crate::types::PackedType;
use crate::values::extend_values_of;
use pdl_elem::{BinaryOp, KnownOp, Ty, block_laws, wrapping_laws};
use pdl_shape::{elements_of, shape_laws};
use std::alloc::{AllocError, Global};
use std::marker::Model;

/// Numbers of one type that are neighbours, in order, lent as they are kept. Contracts see their
/// type and the list of them.
#[derive(Drop)]
pub struct Run<'a> {
    pub(crate) numbers: &'a Numbers,
    start: usize,
    count: usize,
}

impl<'a> Model for Run<'a> {
    ghost use Rattle.std.specs.Prelude.{◌+◌, ◌≤◌, length, take, drop};
    ghost use Rattle.pdl_numbers.specs.Typed.{TypedElements};
    ghost use Rattle.pdl_numbers.specs.Numbers.{elements_in};

    ghost Value = { TypedElements };

    ghost view = { λ r. record {
      ty = (elements_in r.numbers.now).ty;
      elems = take r.count (drop r.start (elements_in r.numbers.now).elems);
    } };

    ghost invariant = { λ r. r.start + r.count ≤ length (elements_in r.numbers.now).elems };
}

impl<'a> Run<'a> {
    /// How many numbers there are.
    pub fn len(&self) -> usize
        ensures { result ≡ length self.now.elems }
    {
        self.count
    }

    /// Their type.
    pub fn ty(&self) -> Ty
        ensures { result ≡ self.now.ty }
    {
        self.numbers.ty()
    }

    /// The numbers as a list of their own.
    pub fn to_list(&self, alloc: Global) -> Result<Vec<i64>, AllocError>
        ensures { IfOk result (λ list. list.items ≡ self.now.elems) }
    {
        let mut list = vec![in alloc; 0; self.count]?;
        self.numbers.read_from(self.start, &mut list);
        Ok(list)
    }

    /// The first so many of them.
    pub fn first(&self, count: usize) -> Run<'a>
        requires { count ≤ length self.now.elems }
        ensures { result ≡ record self.now { elems = take count self.now.elems } }
    {
        Run {
            numbers: self.numbers,
            start: self.start,
            count,
        }
    }
}

/// How many elements that a placement shows from a position on are neighbours, in order: all that
/// are left, or those left of its row, or none where a step along a row goes elsewhere.
fn neighbours(placement: &Placement, first: u32) -> usize
    requires { first < size_of placement.now.dims }
    ensures within { first + result ≤ size_of placement.now.dims }
    ensures beside { (k : ℕ) → k < result →
        place_at placement.now (first + k) ≡ place_at placement.now first + k }
{
    shape_laws();
    let triple = placement.triple();
    let left = (elements_of(&triple.dims) - first) as usize;
    if placement.is_in_order {
        left
    } else if inc_along(triple, 0) == 1 {
        run_length(size_along(triple, 0), first, left)
    } else {
        0
    }
}

/// The number in each cell becomes an operator's value on it and the number in the other cell that
/// stands for it.
fn update_each<O: KnownOp, T: PackedType<N>, const N: usize>(
    right: &[[u8; N]],
    cells: &mut [[u8; N]],
)
    requires paired { length right.now ≡ length cells.old }
    requires divisors { IsTrue (divides O.op) →
        All (λ y. y ≢ pos 0) (map (number_of T.ty) right.now) }
    ensures { let number = number_of T.ty in
        let values = pairwise (value_of O.op T.ty) (map number cells.old) (map number right.now) in
        cells.new ≡ map (bytes_of T.ty) values }
{
    wrapping_laws();
    block_laws();
    for (i, cell) in right.iter().enumerate() {
        cells[i] = packed_value::<O, T, N>(T::unpack(&cells[i]), T::unpack(cell));
    }
}

impl<T: PackedType<N>, const N: usize> Packed<T, N> {
    /// Puts an operator's values on the numbers in each two cells after the others. The cells on the
    /// left are copied there and changed where they stand: that takes less than to fill the room
    /// with zeros first.
    pub(crate) fn extend_values_of<O: KnownOp>(
        &mut self,
        left: &[[u8; N]],
        right: &[[u8; N]],
    ) -> Result<(), AllocError>
        requires paired { length left.now ≡ length right.now }
        requires divisors { IsTrue (divides O.op) →
            All (λ y. y ≢ pos 0) (map (number_of T.ty) right.now) }
        ensures ok { let number = number_of T.ty in
            let f = value_of O.op T.ty in
            let values = pairwise f (map number left.now) (map number right.now) in
            OnOk result (self.new ≡ self.old ++ values) }
        ensures err { OnErr result (self.new ≡ self.old) }
    {
        block_laws();
        let start = self.cells.len();
        self.cells.extend_from_slice(left)?;
        update_each::<O, T, N>(right, &mut self.cells[start..]);
        Ok(())
    }

    /// Puts what the numbers in cells come to up to each of them, from a start on, wrapped to the
    /// type, after the others. It answers what all come to.
    pub(crate) fn extend_prefixes_of<F: Folding>(
        &mut self,
        start: i64,
        cells: &[[u8; N]],
    ) -> Result<i64, AllocError>
        ensures value { let numbers = map (number_of T.ty) cells.now in
            IfOk result (λ end. end ≡ fold F.taken start numbers) }
        ensures ok { let numbers = map (number_of T.ty) cells.now in
            let new = wrapped_prefixes T.ty F.taken start numbers in
            OnOk result (self.new ≡ self.old ++ new) }
        ensures err { OnErr result (self.new ≡ self.old) }
    {
        wrapping_laws();
        let first = self.cells.len();
        self.cells.extend_from_slice(cells)?;
        let end = update_prefixes::<F, T, N>(start, &mut self.cells[first..]);
        Ok(end)
    }

    /// Puts the numbers in packed cells after the others. The cells are copied.
    pub(crate) fn extend_cells(&mut self, cells: &[[u8; N]]) -> Result<(), AllocError>
        requires { ArePacked T.ty cells.now }
        ensures ok { OnOk result (self.new ≡ self.old ++ map (number_of T.ty) cells.now) }
        ensures err { OnErr result (self.new ≡ self.old) }
    {
        self.cells.extend_from_slice(cells)
    }

    /// The cells in which so many numbers stand from a place on, of which there are enough.
    pub(crate) fn part(&self, start: usize, count: usize) -> &[[u8; N]]
        requires { start + count ≤ length self.now }
        ensures value { map (number_of T.ty) result.now ≡ take count (drop start self.now) }
        ensures packed { ArePacked T.ty result.now }
    {
        let _count = self.len();
        &self.cells[start..start + count]
    }
}

impl Numbers {
    /// Those of the numbers that a placement shows from a position on that are neighbours, in
    /// order: all that are left, or those left of a row, or none where a step along a row goes
    /// elsewhere. No clause says how many.
    pub fn run<'a>(&'a self, placement: &Placement, first: u32) -> Run<'a>
        requires some { first < size_of placement.now.dims }
        requires reaches { Reaches placement.now (length (elements_in self.now).elems) }
        ensures type_is { result.ty ≡ (elements_in self.now).ty }
        ensures shown { let shown = shown_through placement.now (elements_in self.now).elems in
            result.elems ≡ take (length result.elems) (drop first shown) }
    {
        shape_laws();
        Run {
            numbers: self,
            start: placement.place(first) as usize,
            count: neighbours(placement, first),
        }
    }

    /// Puts an operator's values on each two numbers of two runs of the type after the others, each
    /// as it is found. Where the operator divides, none of those on the right is 0.
    pub fn extend_values_of(
        &mut self,
        op: BinaryOp,
        left: &Run<'_>,
        right: &Run<'_>,
    ) -> Result<(), AllocError>
        requires paired { length left.now.elems ≡ length right.now.elems }
        requires left_type { left.now.ty ≡ (elements_in self.old).ty }
        requires right_type { right.now.ty ≡ (elements_in self.old).ty }
        requires divisors { IsTrue (divides op) → All (λ y. y ≢ pos 0) right.now.elems }
        ensures ok { let old = elements_in self.old in
            let values = pairwise (value_of op old.ty) left.now.elems right.now.elems in
            OnOk result (elements_in self.new ≡ record old { elems = old.elems ++ values }) }
        ensures err { OnErr result (elements_in self.new ≡ elements_in self.old) }
    {
        let (a, b, n) = (left.start, right.start, left.count);
        match (self, left.numbers, right.numbers) {
            (Numbers::Sbytes(packed), Numbers::Sbytes(x), Numbers::Sbytes(y)) => {
                extend_values_of(packed, op, x.part(a, n), y.part(b, n))
            }
            (Numbers::Bytes(packed), Numbers::Bytes(x), Numbers::Bytes(y)) => {
                extend_values_of(packed, op, x.part(a, n), y.part(b, n))
            }
            (Numbers::Shorts(packed), Numbers::Shorts(x), Numbers::Shorts(y)) => {
                extend_values_of(packed, op, x.part(a, n), y.part(b, n))
            }
            (Numbers::Ushorts(packed), Numbers::Ushorts(x), Numbers::Ushorts(y)) => {
                extend_values_of(packed, op, x.part(a, n), y.part(b, n))
            }
            (Numbers::Longs(packed), Numbers::Longs(x), Numbers::Longs(y)) => {
                extend_values_of(packed, op, x.part(a, n), y.part(b, n))
            }
            (Numbers::Ulongs(packed), Numbers::Ulongs(x), Numbers::Ulongs(y)) => {
                extend_values_of(packed, op, x.part(a, n), y.part(b, n))
            }
            (Numbers::Longlongs(packed), Numbers::Longlongs(x), Numbers::Longlongs(y)) => {
                extend_values_of(packed, op, x.part(a, n), y.part(b, n))
            }
            _ => unreachable!(),
        }
    }

    /// Puts what the numbers of a run of the type come to up to each of them, from a start on,
    /// wrapped to the type, after the others, each as it is found. It answers what all come to.
    pub fn extend_prefixes_of<F: Folding>(
        &mut self,
        start: i64,
        run: &Run<'_>,
    ) -> Result<i64, AllocError>
        requires { run.now.ty ≡ (elements_in self.old).ty }
        ensures value { IfOk result (λ end. end ≡ fold F.taken start run.now.elems) }
        ensures ok { let old = elements_in self.old in
            let new = wrapped_prefixes old.ty F.taken start run.now.elems in
            OnOk result (elements_in self.new ≡ record old { elems = old.elems ++ new }) }
        ensures err { OnErr result (elements_in self.new ≡ elements_in self.old) }
    {
        let (a, n) = (run.start, run.count);
        match (self, run.numbers) {
            (Numbers::Sbytes(packed), Numbers::Sbytes(x)) => {
                packed.extend_prefixes_of::<F>(start, x.part(a, n))
            }
            (Numbers::Bytes(packed), Numbers::Bytes(x)) => {
                packed.extend_prefixes_of::<F>(start, x.part(a, n))
            }
            (Numbers::Shorts(packed), Numbers::Shorts(x)) => {
                packed.extend_prefixes_of::<F>(start, x.part(a, n))
            }
            (Numbers::Ushorts(packed), Numbers::Ushorts(x)) => {
                packed.extend_prefixes_of::<F>(start, x.part(a, n))
            }
            (Numbers::Longs(packed), Numbers::Longs(x)) => {
                packed.extend_prefixes_of::<F>(start, x.part(a, n))
            }
            (Numbers::Ulongs(packed), Numbers::Ulongs(x)) => {
                packed.extend_prefixes_of::<F>(start, x.part(a, n))
            }
            (Numbers::Longlongs(packed), Numbers::Longlongs(x)) => {
                packed.extend_prefixes_of::<F>(start, x.part(a, n))
            }
            _ => unreachable!(),
        }
    }

    /// Puts the numbers of a run of the type after the others, copied in their own width.
    pub fn extend_run(&mut self, run: &Run<'_>) -> Result<(), AllocError>
        requires { run.now.ty ≡ (elements_in self.old).ty }
        ensures ok { let old = elements_in self.old in
            OnOk result (elements_in self.new ≡ record old { elems = old.elems ++ run.now.elems }) }
        ensures err { OnErr result (elements_in self.new ≡ elements_in self.old) }
    {
        let (a, n) = (run.start, run.count);
        match (self, run.numbers) {
            (Numbers::Sbytes(packed), Numbers::Sbytes(x)) => packed.extend_cells(x.part(a, n)),
            (Numbers::Bytes(packed), Numbers::Bytes(x)) => packed.extend_cells(x.part(a, n)),
            (Numbers::Shorts(packed), Numbers::Shorts(x)) => packed.extend_cells(x.part(a, n)),
            (Numbers::Ushorts(packed), Numbers::Ushorts(x)) => packed.extend_cells(x.part(a, n)),
            (Numbers::Longs(packed), Numbers::Longs(x)) => packed.extend_cells(x.part(a, n)),
            (Numbers::Ulongs(packed), Numbers::Ulongs(x)) => packed.extend_cells(x.part(a, n)),
            (Numbers::Longlongs(packed), Numbers::Longlongs(x)) => {
                packed.extend_cells(x.part(a, n))
            }
            _ => unreachable!(),
        }
    }
}
