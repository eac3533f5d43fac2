//! Lists of numbers of one type, each kept as the bytes of its type.
ghost use Rattle.std.specs.Prelude.{◌≡◌, ◌≢◌, ◌<◌, ◌≤◌, ◌+◌, ◌^◌, ◌+ℤ◌, ◌*ℤ◌, ℕ, ℤ, IsTrue, List, [], ◌++◌, pos, length, take, drop, fold, map, get_or, slice_set, All, IfOk, OnOk, OnErr};
ghost use Rattle.std.specs.List.{flat_map, range_with_len};
ghost use Rattle.pdl_elem.specs.Blocks.{pairwise};
ghost use Rattle.pdl_elem.specs.Operators.{divides, value_of};
ghost use Rattle.pdl_elem.specs.Types.{InRange};
ghost use Rattle.pdl_shape.specs.Places.{AllBelow, IsBelow, element_at, put, read, write};
ghost use Rattle.pdl_shape.specs.Shape.{extent_limit, size_of};
ghost use Rattle.pdl_shape.specs.Triple.{Reaches};
ghost use Rattle.pdl_numbers.specs.Prefixes.{wrapped_prefixes};
ghost use Rattle.pdl_numbers.specs.Reads.{IsInside};
ghost use Rattle.pdl_numbers.specs.Updates.{cell_with, change, value_with};
ghost use Rattle.pdl_numbers.specs.Writes.{stepped};
ghost use Rattle.pdl_numbers.specs.Shown.{shown_through};
ghost use Rattle.pdl_numbers.specs.Bytes.{ArePacked, IsPacked, bytes_of, number_of};

use crate::placement::{Placement, place_after};
use crate::prefixes::{AT_ONCE, Folding, pack_prefixes};
use crate::routes::Route;
use crate::types::PackedType;
use pdl_elem::{KnownOp, apply, block_laws, wrapping_laws};
use pdl_shape::shape_laws;
use std::alloc::{AllocError, Global};
use std::marker::{Model, PhantomData};

/// So many numbers are fetched at once.
const FETCHED: usize = 256;

/// So few numbers are put one by one.
const FEW: usize = 16;

/// A list of numbers of the type `T`, each kept as its bytes.
#[derive(Debug, Drop)]
pub struct Packed<T: PackedType<N>, const N: usize> {
    pub(crate) cells: Vec<[u8; N]>,
    pub(crate) ty: PhantomData<T>,
}

impl<T: PackedType<N>, const N: usize> Model for Packed<T, N> {
    ghost use Rattle.std.specs.Prelude.{ℤ, List, map};
    ghost use Rattle.std.specs.Coded.{coded_list, coded_ℤ};
    ghost use Rattle.pdl_numbers.specs.Bytes.{ArePacked, number_of};

    ghost Value = { List ℤ };

    ghost coded = { coded_list coded_ℤ };

    ghost view = { λ p. map (number_of T.ty) p.cells.items };

    ghost invariant = { λ p. ArePacked T.ty p.cells.items };
}

/// Sets each cell to the bytes of the number that stands for it.
fn pack_all<T: PackedType<N>, const N: usize>(numbers: &[i64], cells: &mut [[u8; N]])
    requires paired { length cells.old ≡ length numbers.now }
    requires in_range { All (InRange T.ty) numbers.now }
    ensures { cells.new ≡ map (bytes_of T.ty) numbers.now }
{
    for (i, number) in numbers.iter().enumerate() {
        cells[i] = T::pack(*number);
    }
}

/// Sets the cells at the places from one on, each so far after the one before, to the bytes of the
/// numbers, in order.
fn pack_along<T: PackedType<N>, const N: usize>(
    numbers: &[i64],
    place: u32,
    inc: i32,
    cells: &mut [[u8; N]],
)
    requires small { length numbers.now ≤ extent_limit }
    requires inside { (j : ℕ) → j < length numbers.now →
        IsInside (length cells.old) (pos place +ℤ inc *ℤ pos j) }
    requires in_range { All (InRange T.ty) numbers.now }
    requires packed { ArePacked T.ty cells.old }
    ensures packed { ArePacked T.ty cells.new }
    ensures value { map (number_of T.ty) cells.new
        ≡ write (stepped place inc (length numbers.now)) numbers.now
        (map (number_of T.ty) cells.old) }
{
    for (j, number) in numbers.iter().enumerate() {
        cells[place_after(place, inc, j)] = T::pack(*number);
    }
}

/// The bytes of an operator's value on two numbers.
pub(crate) fn packed_value<O: KnownOp, T: PackedType<N>, const N: usize>(
    left: i64,
    right: i64,
) -> [u8; N]
    requires left { InRange T.ty left }
    requires right { InRange T.ty right }
    requires divisor { IsTrue (divides O.op) → right ≢ pos 0 }
    ensures { result ≡ bytes_of T.ty (value_of O.op T.ty left right) }
{
    wrapping_laws();
    T::pack(apply(O::known(), T::known(), left, right))
}

/// The number in a cell becomes an operator's value on it and another number.
fn update_cell<O: KnownOp, T: PackedType<N>, const N: usize>(number: i64, cell: &mut [u8; N])
    requires number { InRange T.ty number }
    requires divisor { IsTrue (divides O.op) → number ≢ pos 0 }
    ensures { cell.new ≡ cell_with O.op T.ty number cell.old }
{
    wrapping_laws();
    *cell = packed_value::<O, T, N>(T::unpack(cell), number);
}

/// Sets each cell to the bytes of an operator's value on the two numbers that stand for it.
fn pack_values<O: KnownOp, T: PackedType<N>, const N: usize>(
    left: &[i64],
    right: &[i64],
    cells: &mut [[u8; N]],
)
    requires left { length left.now ≡ length cells.old }
    requires right { length right.now ≡ length cells.old }
    requires left_in_range { All (InRange T.ty) left.now }
    requires right_in_range { All (InRange T.ty) right.now }
    requires divisors { IsTrue (divides O.op) → All (λ y. y ≢ pos 0) right.now }
    ensures { cells.new ≡ map (bytes_of T.ty) (pairwise (value_of O.op T.ty) left.now right.now) }
{
    block_laws();
    for (i, number) in left.iter().enumerate() {
        cells[i] = packed_value::<O, T, N>(*number, right[i]);
    }
}

/// The number in each cell becomes an operator's value on it and another number.
fn update_all<O: KnownOp, T: PackedType<N>, const N: usize>(number: i64, cells: &mut [[u8; N]])
    requires number { InRange T.ty number }
    requires divisor { IsTrue (divides O.op) → number ≢ pos 0 }
    ensures { cells.new ≡ map (cell_with O.op T.ty number) cells.old }
{
    for cell in cells {
        update_cell::<O, T, N>(number, cell);
    }
}

/// The numbers in so many cells from a place on, each so far after the one before, become an
/// operator's value on them and another number. In line a step that is known takes no word of its
/// own, and fewer instructions.
#[inline(always)]
fn update_along<O: KnownOp, T: PackedType<N>, const N: usize>(
    number: i64,
    place: u32,
    inc: i32,
    count: usize,
    cells: &mut [[u8; N]],
)
    requires number { InRange T.ty number }
    requires divisor { IsTrue (divides O.op) → number ≢ pos 0 }
    requires small { count ≤ extent_limit }
    requires inside { (j : ℕ) → j < count →
        IsInside (length cells.old) (pos place +ℤ inc *ℤ pos j) }
    requires packed { ArePacked T.ty cells.old }
    ensures packed { ArePacked T.ty cells.new }
    ensures value { map (number_of T.ty) cells.new
        ≡ change (value_with O.op T.ty number) (stepped place inc count)
        (map (number_of T.ty) cells.old) }
{
    wrapping_laws();
    let mut at = i64::from(place);
    for j in 0..count {
        let _ = j;
        update_cell::<O, T, N>(number, &mut cells[at as usize]);
        at += i64::from(inc);
    }
}

/// Sets each number to the one whose bytes stand in the cell for it.
fn unpack_all<T: PackedType<N>, const N: usize>(cells: &[[u8; N]], numbers: &mut [i64])
    requires { length numbers.old ≡ length cells.now }
    ensures { numbers.new ≡ map (number_of T.ty) cells.now }
{
    for (i, cell) in cells.iter().enumerate() {
        numbers[i] = T::unpack(cell);
    }
}

/// Sets a cell of 0 to the one at a place among others, where there is one.
fn fetch_cell<T: PackedType<N>, const N: usize>(
    from: &[[u8; N]],
    place: Option<u32>,
    cell: &mut [u8; N],
)
    requires zero { cell.old ≡ bytes_of T.ty (pos 0) }
    requires packed { ArePacked T.ty from.now }
    ensures { cell.new ≡ bytes_of T.ty (element_at (map (number_of T.ty) from.now) place) }
{
    match place {
        Some(place) if (place as usize) < from.len() => *cell = from[place as usize],
        _ => {}
    }
}

/// Sets each of these cells of 0 to the one at its place among others, where there is one. In line a
/// known number of cells needs no test between them.
#[inline(always)]
fn gather_part<T: PackedType<N>, const N: usize>(
    from: &[[u8; N]],
    places: &[Option<u32>],
    cells: &mut [[u8; N]],
)
    requires paired { length cells.old ≡ length places.now }
    requires zeros { All (λ cell. cell ≡ bytes_of T.ty (pos 0)) cells.old }
    requires packed { ArePacked T.ty from.now }
    ensures { cells.new ≡ map (bytes_of T.ty) (read places.now (map (number_of T.ty) from.now)) }
{
    for (i, place) in places.iter().enumerate() {
        fetch_cell::<T, N>(from, *place, &mut cells[i]);
    }
}

/// Sets each of these cells of 0 to the one at its place among others, where there is one.
fn gather_cells<T: PackedType<N>, const N: usize>(
    from: &[[u8; N]],
    places: &[Option<u32>],
    cells: &mut [[u8; N]],
)
    requires paired { length cells.old ≡ length places.now }
    requires zeros { All (λ cell. cell ≡ bytes_of T.ty (pos 0)) cells.old }
    requires packed { ArePacked T.ty from.now }
    ensures { cells.new ≡ map (bytes_of T.ty) (read places.now (map (number_of T.ty) from.now)) }
{
    let mut done = 0;
    while AT_ONCE <= cells.len() - done {
        let end = done + AT_ONCE;
        gather_part::<T, N>(from, &places[done..end], &mut cells[done..end]);
        done = end;
    }
    gather_part::<T, N>(from, &places[done..], &mut cells[done..]);
}

/// The cells at the places among others, in order, and one of 0 where there is none. They are put
/// one by one: for a few that is quicker than to clear room for all of them first.
fn fetched<T: PackedType<N>, const N: usize>(
    alloc: Global,
    from: &[[u8; N]],
    places: &[Option<u32>],
) -> Result<Vec<[u8; N]>, AllocError>
    requires { ArePacked T.ty from.now }
    ensures { let values = read places.now (map (number_of T.ty) from.now) in
        IfOk result (λ cells. cells.items ≡ map (bytes_of T.ty) values) }
{
    wrapping_laws();
    let zero = T::pack(0);
    let mut cells = Vec::with_capacity(alloc, places.len())?;
    for place in places {
        let mut cell = zero;
        fetch_cell::<T, N>(from, *place, &mut cell);
        cells.push_reserved(cell);
    }
    Ok(cells)
}

/// Sets the cell at a place, where there is one among these.
fn put_cell<T: PackedType<N>, const N: usize>(
    place: Option<u32>,
    cell: &[u8; N],
    cells: &mut [[u8; N]],
)
    requires cell { IsPacked T.ty cell.now }
    requires packed { ArePacked T.ty cells.old }
    ensures packed { ArePacked T.ty cells.new }
    ensures value { map (number_of T.ty) cells.new
        ≡ put place (number_of T.ty cell.now) (map (number_of T.ty) cells.old) }
{
    match place {
        Some(place) if (place as usize) < cells.len() => cells[place as usize] = *cell,
        _ => {}
    }
}

/// Sets the cells at the places to other cells, in order. One without a place among these is
/// dropped.
fn copy_cells<T: PackedType<N>, const N: usize>(
    places: &[Option<u32>],
    from: &[[u8; N]],
    cells: &mut [[u8; N]],
)
    requires paired { length places.now ≡ length from.now }
    requires from_packed { ArePacked T.ty from.now }
    requires packed { ArePacked T.ty cells.old }
    ensures packed { ArePacked T.ty cells.new }
    ensures value { map (number_of T.ty) cells.new
        ≡ write places.now (map (number_of T.ty) from.now) (map (number_of T.ty) cells.old) }
{
    for (i, place) in places.iter().enumerate() {
        put_cell::<T, N>(*place, &from[i], cells);
    }
}

/// Sets the cells at the places that a route gives to the first positions to the bytes of the
/// values, in order. A value without a place among these is dropped.
fn pack_by<R: Route, T: PackedType<N>, const N: usize>(
    route: &R,
    values: &[i64],
    cells: &mut [[u8; N]],
)
    requires few { length values.now ≤ R.count route.now }
    requires small { length values.now < 2 ^ 32 }
    requires in_range { All (InRange T.ty) values.now }
    requires packed { ArePacked T.ty cells.old }
    ensures packed { ArePacked T.ty cells.new }
    ensures value { let places = map (R.goes_to route.now) (range_with_len 0 (length values.now)) in
        map (number_of T.ty) cells.new
        ≡ write places values.now (map (number_of T.ty) cells.old) }
{
    for (i, value) in values.iter().enumerate() {
        put_cell::<T, N>(route.place(i as u32), &T::pack(*value), cells);
    }
}

/// Sets the cells at the places to the bytes of the values, in order. A value without a place among
/// these is dropped.
fn pack_at<T: PackedType<N>, const N: usize>(
    places: &[Option<u32>],
    values: &[i64],
    cells: &mut [[u8; N]],
)
    requires paired { length values.now ≡ length places.now }
    requires in_range { All (InRange T.ty) values.now }
    requires packed { ArePacked T.ty cells.old }
    ensures packed { ArePacked T.ty cells.new }
    ensures value { map (number_of T.ty) cells.new
        ≡ write places.now values.now (map (number_of T.ty) cells.old) }
{
    for (i, place) in places.iter().enumerate() {
        put_cell::<T, N>(*place, &T::pack(values[i]), cells);
    }
}

impl<T: PackedType<N>, const N: usize> Packed<T, N> {
    /// The cells in which the numbers stand, in order. A loop over them looks up once where they
    /// are.
    pub(crate) fn cells(&self) -> &[[u8; N]]
        ensures { map (number_of T.ty) result.now ≡ self.now }
    {
        self.cells.as_slice()
    }

    /// No numbers, with room for so many.
    pub(crate) fn with_room(alloc: Global, count: usize) -> Result<Packed<T, N>, AllocError>
        ensures { IfOk result (λ packed. packed ≡ []) }
    {
        Ok(Packed {
            cells: Vec::with_capacity(alloc, count)?,
            ty: PhantomData,
        })
    }

    /// How many numbers there are.
    pub(crate) fn len(&self) -> usize
        ensures { result ≡ length self.now }
    {
        self.cells.len()
    }

    /// Puts these numbers, which are in the type's range, after the others.
    pub(crate) fn extend(&mut self, numbers: &[i64]) -> Result<(), AllocError>
        requires { All (InRange T.ty) numbers.now }
        ensures ok { OnOk result (self.new ≡ self.old ++ numbers.now) }
        ensures err { OnErr result (self.new ≡ self.old) }
    {
        let start = self.cells.len();
        self.cells.resize(start + numbers.len(), [0; N])?;
        pack_all::<T, N>(numbers, &mut self.cells[start..]);
        Ok(())
    }

    /// Puts an operator's values on each two numbers of the type after the others.
    pub(crate) fn extend_values<O: KnownOp>(
        &mut self,
        left: &[i64],
        right: &[i64],
    ) -> Result<(), AllocError>
        requires paired { length left.now ≡ length right.now }
        requires left_in_range { All (InRange T.ty) left.now }
        requires right_in_range { All (InRange T.ty) right.now }
        requires divisors { IsTrue (divides O.op) → All (λ y. y ≢ pos 0) right.now }
        ensures ok { let values = pairwise (value_of O.op T.ty) left.now right.now in
            OnOk result (self.new ≡ self.old ++ values) }
        ensures err { OnErr result (self.new ≡ self.old) }
    {
        block_laws();
        let start = self.cells.len();
        self.cells.resize(start + left.len(), [0; N])?;
        pack_values::<O, T, N>(left, right, &mut self.cells[start..]);
        Ok(())
    }

    /// Puts what numbers come to up to each of them, from a start on, wrapped to the type, after
    /// the others. It answers what all come to.
    pub(crate) fn extend_prefixes<F: Folding>(
        &mut self,
        start: i64,
        numbers: &[i64],
    ) -> Result<i64, AllocError>
        ensures value { IfOk result (λ end. end ≡ fold F.taken start numbers.now) }
        ensures ok { let new = wrapped_prefixes T.ty F.taken start numbers.now in
            OnOk result (self.new ≡ self.old ++ new) }
        ensures err { OnErr result (self.new ≡ self.old) }
    {
        wrapping_laws();
        let first = self.cells.len();
        self.cells.resize(first + numbers.len(), [0; N])?;
        let end = pack_prefixes::<F, T, N>(start, numbers, &mut self.cells[first..]);
        Ok(end)
    }

    /// Sets `into` to the numbers from a place on, of which there are enough.
    pub(crate) fn read_from(&self, start: usize, into: &mut [i64])
        requires { start + length into.old ≤ length self.now }
        ensures { into.new ≡ take (length into.old) (drop start self.now) }
    {
        let _count = self.len();
        let end = start + into.len();
        unpack_all::<T, N>(&self.cells[start..end], into)
    }

    /// Sets the numbers from a place on, of which there are enough, to these, which are in the
    /// type's range.
    pub(crate) fn write_from(&mut self, start: usize, numbers: &[i64])
        requires within { start + length numbers.now ≤ length self.old }
        requires in_range { All (InRange T.ty) numbers.now }
        ensures { let old = self.old in
            self.new ≡ take start old ++ numbers.now ++ drop (start + length numbers.now) old }
    {
        let _count = self.len();
        let end = start + numbers.len();
        pack_all::<T, N>(numbers, &mut self.cells[start..end]);
    }

    /// Sets the numbers at the places from one on, each so far after the one before, all of which
    /// are among these, to numbers in the type's range, in order.
    pub(crate) fn write_along(&mut self, place: u32, inc: i32, numbers: &[i64])
        requires small { length numbers.now ≤ extent_limit }
        requires inside { (j : ℕ) → j < length numbers.now →
            IsInside (length self.old) (pos place +ℤ inc *ℤ pos j) }
        requires in_range { All (InRange T.ty) numbers.now }
        ensures { self.new
            ≡ write (stepped place inc (length numbers.now)) numbers.now self.old }
    {
        pack_along::<T, N>(numbers, place, inc, self.cells.as_mut_slice());
    }

    /// So many numbers from a place on, each so far after the one before, all of which are among
    /// these, become an operator's value on them and another number. Neighbours are taken at once,
    /// and every second one of 4 bytes or more in a loop of its own. Of smaller ones the compiler
    /// would make vectors, which take longer.
    pub(crate) fn update_run<O: KnownOp>(&mut self, number: i64, place: u32, inc: i32, count: usize)
        requires number { InRange T.ty number }
        requires divisor { IsTrue (divides O.op) → number ≢ pos 0 }
        requires some { 0 < count }
        requires small { count ≤ extent_limit }
        requires inside { (j : ℕ) → j < count →
            IsInside (length self.old) (pos place +ℤ inc *ℤ pos j) }
        ensures { self.new
            ≡ change (value_with O.op T.ty number) (stepped place inc count) self.old }
    {
        if inc == 1 {
            self.update_from::<O>(number, place as usize, count)
        } else if inc == 2 && 4 <= N {
            update_along::<O, T, N>(number, place, 2, count, self.cells.as_mut_slice())
        } else {
            update_along::<O, T, N>(number, place, inc, count, self.cells.as_mut_slice())
        }
    }

    /// So many numbers from a place on, of which there are enough, become an operator's value on
    /// them and another number.
    fn update_from<O: KnownOp>(&mut self, number: i64, start: usize, count: usize)
        requires number { InRange T.ty number }
        requires divisor { IsTrue (divides O.op) → number ≢ pos 0 }
        requires within { start + count ≤ length self.old }
        ensures { let old = self.old in
            let values = map (value_with O.op T.ty number) (take count (drop start old)) in
            self.new ≡ take start old ++ values ++ drop (start + count) old }
    {
        wrapping_laws();
        let _count = self.len();
        let end = start + count;
        update_all::<O, T, N>(number, &mut self.cells[start..end]);
    }

    /// The number at a place, which is below how many there are.
    pub(crate) fn get(&self, place: usize) -> i64
        requires { place < length self.now }
        ensures value { result ≡ get_or self.now place (pos 0) }
        ensures in_range { InRange T.ty result }
    {
        T::unpack(&self.cells[place])
    }

    /// Sets the number at a place, which is below how many there are, to one of the type's range.
    pub(crate) fn set(&mut self, place: usize, number: i64)
        requires place { place < length self.old }
        requires in_range { InRange T.ty number }
        ensures { self.new ≡ slice_set self.old place number }
    {
        self.cells[place] = T::pack(number);
    }

    /// All of them are in the type's range. It does nothing: who calls it knows that.
    pub(crate) fn are_in_range(&self)
        ensures { All (InRange T.ty) self.now }
    {
        wrapping_laws();
        let _cells = &self.cells;
    }

    /// The number that a placement shows at a position, or 0 where there is none.
    fn shown_at(&self, placement: &Placement, position: Option<u32>) -> i64
        requires within { IsBelow (size_of placement.now.dims) position }
        requires reaches { Reaches placement.now (length self.now) }
        ensures value { result ≡ element_at (shown_through placement.now self.now) position }
        ensures in_range { InRange T.ty result }
    {
        shape_laws();
        match position {
            Some(position) => self.get(placement.place(position) as usize),
            None => 0,
        }
    }

    /// Sets each of these numbers to the one that a placement shows of others of the type at the
    /// position that stands for it, or to 0 where there is none.
    pub(crate) fn gather(
        &mut self,
        from: &Packed<T, N>,
        placement: &Placement,
        positions: &[Option<u32>],
    )
        requires paired { length positions.now ≡ length self.old }
        requires within { AllBelow (size_of placement.now.dims) positions.now }
        requires reaches { Reaches placement.now (length from.now) }
        ensures { self.new ≡ read positions.now (shown_through placement.now from.now) }
    {
        for (i, position) in positions.iter().enumerate() {
            self.set(i, from.shown_at(placement, *position));
        }
    }

    /// Sets the number at the place to one of the type's range, where there is such a place.
    pub(crate) fn put(&mut self, place: Option<u32>, number: i64)
        requires { InRange T.ty number }
        ensures { self.new ≡ put place number self.old }
    {
        put_cell::<T, N>(place, &T::pack(number), self.cells.as_mut_slice());
    }

    /// Sets the numbers at the places to the values, in order, which are in the type's range. A
    /// value without a place is dropped.
    pub(crate) fn scatter(&mut self, places: &[Option<u32>], values: &[i64])
        requires paired { length values.now ≡ length places.now }
        requires within { AllBelow (length self.old) places.now }
        requires in_range { All (InRange T.ty) values.now }
        ensures { self.new ≡ write places.now values.now self.old }
    {
        pack_at::<T, N>(places, values, self.cells.as_mut_slice());
    }

    /// Sets the numbers at the places to those of others of the type, in order. A number without a
    /// place among these is dropped.
    pub(crate) fn scatter_from(&mut self, places: &[Option<u32>], from: &Packed<T, N>)
        requires { length places.now ≡ length from.now }
        ensures { self.new ≡ write places.now from.now self.old }
    {
        copy_cells::<T, N>(places, from.cells.as_slice(), self.cells.as_mut_slice());
    }

    /// Sets the numbers at the places that a route gives to the first positions to the values, in
    /// order, which are in the type's range. A value without a place among these is dropped.
    pub(crate) fn put_by<R: Route>(&mut self, route: &R, values: &[i64])
        requires few { length values.now ≤ R.count route.now }
        requires small { length values.now < 2 ^ 32 }
        requires in_range { All (InRange T.ty) values.now }
        ensures { let places = map (R.goes_to route.now) (range_with_len 0 (length values.now)) in
            self.new ≡ write places values.now self.old }
    {
        pack_by::<R, T, N>(route, values, self.cells.as_mut_slice());
    }

    /// Puts the numbers at the places of others after these, with 0 where there is none among those.
    fn extend_gathered(
        &mut self,
        from: &Packed<T, N>,
        places: &[Option<u32>],
    ) -> Result<(), AllocError>
        ensures ok { OnOk result (self.new ≡ self.old ++ read places.now from.now) }
        ensures err { OnErr result (self.new ≡ self.old) }
    {
        wrapping_laws();
        let start = self.cells.len();
        self.cells.resize(start + places.len(), T::pack(0))?;
        gather_cells::<T, N>(from.cells.as_slice(), places, &mut self.cells[start..]);
        Ok(())
    }

    /// The numbers at a few places, with 0 where there is none among these.
    fn few_gathered(
        &self,
        alloc: Global,
        places: &[Option<u32>],
    ) -> Result<Packed<T, N>, AllocError>
        ensures { IfOk result (λ packed. packed ≡ read places.now self.now) }
    {
        wrapping_laws();
        let cells = fetched::<T, N>(alloc, self.cells.as_slice(), places)?;
        Ok(Packed {
            cells,
            ty: PhantomData,
        })
    }

    /// The numbers at the places, with 0 where there is none among these. They are fetched in
    /// blocks: the cells of one are still in the cache when the numbers come into them.
    #[inline(never)]
    fn many_gathered(
        &self,
        alloc: Global,
        places: &[Option<u32>],
    ) -> Result<Packed<T, N>, AllocError>
        ensures { IfOk result (λ packed. packed ≡ read places.now self.now) }
    {
        let mut packed = Packed::with_room(alloc, places.len())?;
        let mut done = 0;
        while done < places.len() {
            let size = FETCHED.min(places.len() - done);
            packed.extend_gathered(self, &places[done..done + size])?;
            done += size;
        }
        Ok(packed)
    }

    /// The numbers at the places, with 0 where there is none among these.
    pub(crate) fn gathered(
        &self,
        alloc: Global,
        places: &[Option<u32>],
    ) -> Result<Packed<T, N>, AllocError>
        ensures { IfOk result (λ packed. packed ≡ read places.now self.now) }
    {
        if places.len() <= FEW {
            self.few_gathered(alloc, places)
        } else {
            self.many_gathered(alloc, places)
        }
    }

    /// The bytes of each number in turn.
    pub(crate) fn bytes(&self) -> &[u8]
        ensures { result.now ≡ flat_map (bytes_of T.ty) self.now }
    {
        self.cells.as_flattened()
    }
}
