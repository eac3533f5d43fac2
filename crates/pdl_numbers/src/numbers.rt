//! Numbers of one type, in its width. Each call looks at the type once.
ghost use Rattle.std.specs.Prelude.{◌≡◌, ◌≢◌, ◌<◌, ◌≤◌, ◌+◌, ◌^◌, ◌++◌, ℕ, ℤ, [], pos, length, take, drop, fold, map, get_or, slice_set, All, IsTrue, IfOk, OnOk, OnErr};
ghost use Rattle.std.specs.List.{flat_map, range_with_len};
ghost use Rattle.pdl_elem.specs.Blocks.{pairwise};
ghost use Rattle.pdl_elem.specs.Operators.{divides, value_of};
ghost use Rattle.pdl_elem.specs.Types.{InRange};
ghost use Rattle.pdl_shape.specs.Places.{AllBelow, read, write};
ghost use Rattle.pdl_shape.specs.Shape.{extent_limit, size_of};
ghost use Rattle.pdl_shape.specs.Triple.{Reaches};
ghost use Rattle.pdl_numbers.specs.Typed.{TypedElements};
ghost use Rattle.pdl_numbers.specs.Bytes.{bytes_of};
ghost use Rattle.pdl_numbers.specs.Numbers.{elements_in};
ghost use Rattle.pdl_numbers.specs.Prefixes.{wrapped_prefixes};
ghost use Rattle.pdl_numbers.specs.Reads.{HasRead, HasTakenAcross, LieAcross, across};
ghost use Rattle.pdl_numbers.specs.Shown.{shown_through};
ghost use Rattle.pdl_numbers.specs.Updates.{ShowsOnce, Suits, updated};
ghost use Rattle.pdl_numbers.specs.Writes.{onward, placed_from};

use crate::across::take_across;
use crate::copies::copy_shown;
use crate::packed::Packed;
use crate::placement::Placement;
use crate::prefixes::Folding;
use crate::reads::read_block;
use crate::routes::Route;
use crate::types::{AtByte, AtLong, AtLonglong, AtSbyte, AtShort, AtUlong, AtUshort};
use crate::updates::{Update, update_shown};
use crate::values::extend_values;
use crate::writes::{write_block, write_onward};
use pdl_elem::{BinaryOp, Ty};
use std::alloc::{AllocError, Global};
use std::mem::replace;

/// So many numbers are copied at once.
const BLOCK: usize = 512;

/// Numbers of one type, each in as many bytes as the type is wide.
#[derive(Debug, Drop)]
pub enum Numbers {
    Sbytes(Packed<AtSbyte, 1>),
    Bytes(Packed<AtByte, 1>),
    Shorts(Packed<AtShort, 2>),
    Ushorts(Packed<AtUshort, 2>),
    Longs(Packed<AtLong, 4>),
    Ulongs(Packed<AtUlong, 4>),
    Longlongs(Packed<AtLonglong, 8>),
}

impl Numbers {
    /// No numbers of the type, with room for so many.
    pub fn with_room(alloc: Global, ty: Ty, count: usize) -> Result<Numbers, AllocError>
        ensures { IfOk result (λ kept. elements_in kept ≡ record { ty = ty; elems = [] }) }
    {
        Ok(match ty {
            Ty::Sbyte => Numbers::Sbytes(Packed::with_room(alloc, count)?),
            Ty::Byte => Numbers::Bytes(Packed::with_room(alloc, count)?),
            Ty::Short => Numbers::Shorts(Packed::with_room(alloc, count)?),
            Ty::Ushort => Numbers::Ushorts(Packed::with_room(alloc, count)?),
            Ty::Long => Numbers::Longs(Packed::with_room(alloc, count)?),
            Ty::Ulong => Numbers::Ulongs(Packed::with_room(alloc, count)?),
            Ty::Longlong => Numbers::Longlongs(Packed::with_room(alloc, count)?),
        })
    }

    /// Puts these numbers, which are in the type's range, after the others.
    pub fn extend(&mut self, numbers: &[i64]) -> Result<(), AllocError>
        requires { All (InRange (elements_in self.old).ty) numbers.now }
        ensures ok { let old = elements_in self.old in
            OnOk result (elements_in self.new ≡ record old { elems = old.elems ++ numbers.now }) }
        ensures err { OnErr result (elements_in self.new ≡ elements_in self.old) }
    {
        match self {
            Numbers::Sbytes(packed) => packed.extend(numbers),
            Numbers::Bytes(packed) => packed.extend(numbers),
            Numbers::Shorts(packed) => packed.extend(numbers),
            Numbers::Ushorts(packed) => packed.extend(numbers),
            Numbers::Longs(packed) => packed.extend(numbers),
            Numbers::Ulongs(packed) => packed.extend(numbers),
            Numbers::Longlongs(packed) => packed.extend(numbers),
        }
    }

    /// Puts an operator's values on each two numbers of the type after the others, each as it is
    /// found. Where the operator divides, none of those on the right is 0.
    pub fn extend_values(
        &mut self,
        op: BinaryOp,
        left: &[i64],
        right: &[i64],
    ) -> Result<(), AllocError>
        requires paired { length left.now ≡ length right.now }
        requires left_in_range { All (InRange (elements_in self.old).ty) left.now }
        requires right_in_range { All (InRange (elements_in self.old).ty) right.now }
        requires divisors { IsTrue (divides op) → All (λ y. y ≢ pos 0) right.now }
        ensures ok { let old = elements_in self.old in
            let values = pairwise (value_of op old.ty) left.now right.now in
            OnOk result (elements_in self.new ≡ record old { elems = old.elems ++ values }) }
        ensures err { OnErr result (elements_in self.new ≡ elements_in self.old) }
    {
        match self {
            Numbers::Sbytes(packed) => extend_values(packed, op, left, right),
            Numbers::Bytes(packed) => extend_values(packed, op, left, right),
            Numbers::Shorts(packed) => extend_values(packed, op, left, right),
            Numbers::Ushorts(packed) => extend_values(packed, op, left, right),
            Numbers::Longs(packed) => extend_values(packed, op, left, right),
            Numbers::Ulongs(packed) => extend_values(packed, op, left, right),
            Numbers::Longlongs(packed) => extend_values(packed, op, left, right),
        }
    }

    /// Puts what numbers come to up to each of them, from a start on, wrapped to the type, after
    /// the others, each as it is found. It answers what all come to.
    pub fn extend_prefixes<F: Folding>(
        &mut self,
        start: i64,
        numbers: &[i64],
    ) -> Result<i64, AllocError>
        ensures value { IfOk result (λ end. end ≡ fold F.taken start numbers.now) }
        ensures ok { let old = elements_in self.old in
            let new = wrapped_prefixes old.ty F.taken start numbers.now in
            OnOk result (elements_in self.new ≡ record old { elems = old.elems ++ new }) }
        ensures err { OnErr result (elements_in self.new ≡ elements_in self.old) }
    {
        match self {
            Numbers::Sbytes(packed) => packed.extend_prefixes::<F>(start, numbers),
            Numbers::Bytes(packed) => packed.extend_prefixes::<F>(start, numbers),
            Numbers::Shorts(packed) => packed.extend_prefixes::<F>(start, numbers),
            Numbers::Ushorts(packed) => packed.extend_prefixes::<F>(start, numbers),
            Numbers::Longs(packed) => packed.extend_prefixes::<F>(start, numbers),
            Numbers::Ulongs(packed) => packed.extend_prefixes::<F>(start, numbers),
            Numbers::Longlongs(packed) => packed.extend_prefixes::<F>(start, numbers),
        }
    }

    /// The numbers, packed at a type in whose range they are. Those of the type are moved.
    pub fn at_type(self, alloc: Global, ty: Ty) -> Result<Numbers, AllocError>
        requires { All (InRange ty) (elements_in self).elems }
        ensures { let elems = (elements_in self).elems in
            IfOk result (λ kept. elements_in kept ≡ record { ty = ty; elems = elems }) }
    {
        if self.ty() == ty {
            Ok(self)
        } else {
            self.copied(alloc, ty)
        }
    }

    /// The numbers anew, packed at a type in whose range they are. They are copied in blocks, so
    /// they are never widened all at once.
    pub fn copied(&self, alloc: Global, ty: Ty) -> Result<Numbers, AllocError>
        requires { All (InRange ty) (elements_in self.now).elems }
        ensures { let elems = (elements_in self.now).elems in
            IfOk result (λ kept. elements_in kept ≡ record { ty = ty; elems = elems }) }
    {
        let count = self.len();
        let mut numbers = Numbers::with_room(alloc, ty, count)?;
        let mut block = vec![in alloc; 0; count.min(BLOCK)]?;
        let mut done = 0;
        while done < count {
            block.truncate(count - done);
            self.read_from(done, &mut block);
            numbers.extend(&block)?;
            done += block.len();
        }
        Ok(numbers)
    }

    /// How many numbers there are.
    pub fn len(&self) -> usize
        ensures { result ≡ length (elements_in self.now).elems }
    {
        match self {
            Numbers::Sbytes(packed) => packed.len(),
            Numbers::Bytes(packed) => packed.len(),
            Numbers::Shorts(packed) => packed.len(),
            Numbers::Ushorts(packed) => packed.len(),
            Numbers::Longs(packed) => packed.len(),
            Numbers::Ulongs(packed) => packed.len(),
            Numbers::Longlongs(packed) => packed.len(),
        }
    }

    /// Sets `into` to the numbers from a place on, of which there are enough.
    pub fn read_from(&self, start: usize, into: &mut [i64])
        requires { start + length into.old ≤ length (elements_in self.now).elems }
        ensures { into.new ≡ take (length into.old) (drop start (elements_in self.now).elems) }
    {
        match self {
            Numbers::Sbytes(packed) => packed.read_from(start, into),
            Numbers::Bytes(packed) => packed.read_from(start, into),
            Numbers::Shorts(packed) => packed.read_from(start, into),
            Numbers::Ushorts(packed) => packed.read_from(start, into),
            Numbers::Longs(packed) => packed.read_from(start, into),
            Numbers::Ulongs(packed) => packed.read_from(start, into),
            Numbers::Longlongs(packed) => packed.read_from(start, into),
        }
    }

    /// Their type.
    pub fn ty(&self) -> Ty
        ensures { result ≡ (elements_in self.now).ty }
    {
        match self {
            Numbers::Sbytes(_) => Ty::Sbyte,
            Numbers::Bytes(_) => Ty::Byte,
            Numbers::Shorts(_) => Ty::Short,
            Numbers::Ushorts(_) => Ty::Ushort,
            Numbers::Longs(_) => Ty::Long,
            Numbers::Ulongs(_) => Ty::Ulong,
            Numbers::Longlongs(_) => Ty::Longlong,
        }
    }

    /// The number at a place, which is below how many there are.
    pub fn get(&self, place: usize) -> i64
        requires { place < length (elements_in self.now).elems }
        ensures value { result ≡ get_or (elements_in self.now).elems place (pos 0) }
        ensures in_range { InRange (elements_in self.now).ty result }
    {
        match self {
            Numbers::Sbytes(packed) => packed.get(place),
            Numbers::Bytes(packed) => packed.get(place),
            Numbers::Shorts(packed) => packed.get(place),
            Numbers::Ushorts(packed) => packed.get(place),
            Numbers::Longs(packed) => packed.get(place),
            Numbers::Ulongs(packed) => packed.get(place),
            Numbers::Longlongs(packed) => packed.get(place),
        }
    }

    /// Sets the number at a place, which is below how many there are, to one of the type's range.
    pub fn set(&mut self, place: usize, number: i64)
        requires place { place < length (elements_in self.old).elems }
        requires in_range { InRange (elements_in self.old).ty number }
        ensures { elements_in self.new
            ≡ record (elements_in self.old)
            { elems = slice_set (elements_in self.old).elems place number } }
    {
        match self {
            Numbers::Sbytes(packed) => packed.set(place, number),
            Numbers::Bytes(packed) => packed.set(place, number),
            Numbers::Shorts(packed) => packed.set(place, number),
            Numbers::Ushorts(packed) => packed.set(place, number),
            Numbers::Longs(packed) => packed.set(place, number),
            Numbers::Ulongs(packed) => packed.set(place, number),
            Numbers::Longlongs(packed) => packed.set(place, number),
        }
    }

    /// The bytes of each number in turn.
    pub fn bytes(&self) -> &[u8]
        ensures { let kept = elements_in self.now in
            result.now ≡ flat_map (bytes_of kept.ty) kept.elems }
    {
        match self {
            Numbers::Sbytes(packed) => packed.bytes(),
            Numbers::Bytes(packed) => packed.bytes(),
            Numbers::Shorts(packed) => packed.bytes(),
            Numbers::Ushorts(packed) => packed.bytes(),
            Numbers::Longs(packed) => packed.bytes(),
            Numbers::Ulongs(packed) => packed.bytes(),
            Numbers::Longlongs(packed) => packed.bytes(),
        }
    }

    /// Sets each of these numbers to the one at the place that a placement shows there of others of
    /// the same type, or to 0 where there is no place.
    pub fn gather(&mut self, from: &Numbers, placement: &Placement, places: &[Option<u32>])
        requires paired { length places.now ≡ length (elements_in self.old).elems }
        requires within { AllBelow (size_of placement.now.dims) places.now }
        requires reaches { Reaches placement.now (length (elements_in from.now).elems) }
        requires same_type { (elements_in from.now).ty ≡ (elements_in self.old).ty }
        ensures { let shown = shown_through placement.now (elements_in from.now).elems in
            let elems = read places.now shown in
            elements_in self.new ≡ record (elements_in self.old) { elems = elems } }
    {
        match (self, from) {
            (Numbers::Sbytes(into), Numbers::Sbytes(from)) => into.gather(from, placement, places),
            (Numbers::Bytes(into), Numbers::Bytes(from)) => into.gather(from, placement, places),
            (Numbers::Shorts(into), Numbers::Shorts(from)) => into.gather(from, placement, places),
            (Numbers::Ushorts(into), Numbers::Ushorts(from)) => into.gather(
                from, placement, places,
            ),
            (Numbers::Longs(into), Numbers::Longs(from)) => into.gather(from, placement, places),
            (Numbers::Ulongs(into), Numbers::Ulongs(from)) => {
                into.gather(from, placement, places)
            }
            (Numbers::Longlongs(into), Numbers::Longlongs(from)) => {
                into.gather(from, placement, places)
            }
            _ => unreachable!(),
        }
    }

    /// Sets the numbers at the places to the values, in order, which are in the type's range. A
    /// value without a place is dropped.
    pub fn scatter(&mut self, places: &[Option<u32>], values: &[i64])
        requires paired { length values.now ≡ length places.now }
        requires within { AllBelow (length (elements_in self.old).elems) places.now }
        requires in_range { All (InRange (elements_in self.old).ty) values.now }
        ensures { elements_in self.new
            ≡ record (elements_in self.old)
            { elems = write places.now values.now (elements_in self.old).elems } }
    {
        match self {
            Numbers::Sbytes(packed) => packed.scatter(places, values),
            Numbers::Bytes(packed) => packed.scatter(places, values),
            Numbers::Shorts(packed) => packed.scatter(places, values),
            Numbers::Ushorts(packed) => packed.scatter(places, values),
            Numbers::Longs(packed) => packed.scatter(places, values),
            Numbers::Ulongs(packed) => packed.scatter(places, values),
            Numbers::Longlongs(packed) => packed.scatter(places, values),
        }
    }

    /// Sets the numbers at the places to those of others of the same type, in order. A number
    /// without a place among these is dropped.
    pub fn scatter_from(&mut self, places: &[Option<u32>], from: &Numbers)
        requires paired { length places.now ≡ length (elements_in from.now).elems }
        requires same_type { (elements_in from.now).ty ≡ (elements_in self.old).ty }
        ensures { let old = elements_in self.old in
            let elems = write places.now (elements_in from.now).elems old.elems in
            elements_in self.new ≡ record old { elems = elems } }
    {
        match (self, from) {
            (Numbers::Sbytes(into), Numbers::Sbytes(from)) => into.scatter_from(places, from),
            (Numbers::Bytes(into), Numbers::Bytes(from)) => into.scatter_from(places, from),
            (Numbers::Shorts(into), Numbers::Shorts(from)) => into.scatter_from(places, from),
            (Numbers::Ushorts(into), Numbers::Ushorts(from)) => into.scatter_from(places, from),
            (Numbers::Longs(into), Numbers::Longs(from)) => into.scatter_from(places, from),
            (Numbers::Ulongs(into), Numbers::Ulongs(from)) => into.scatter_from(places, from),
            (Numbers::Longlongs(into), Numbers::Longlongs(from)) => into.scatter_from(places, from),
            _ => unreachable!(),
        }
    }

    /// Sets the numbers at the places that a route gives to the first positions to the values, in
    /// order, which are in the type's range. A value without a place among these is dropped.
    pub fn put_by<R: Route>(&mut self, route: &R, values: &[i64])
        requires few { length values.now ≤ R.count route.now }
        requires small { length values.now < 2 ^ 32 }
        requires in_range { All (InRange (elements_in self.old).ty) values.now }
        ensures { let old = elements_in self.old in
            let places = map (R.goes_to route.now) (range_with_len 0 (length values.now)) in
            elements_in self.new ≡ record old { elems = write places values.now old.elems } }
    {
        match self {
            Numbers::Sbytes(packed) => packed.put_by(route, values),
            Numbers::Bytes(packed) => packed.put_by(route, values),
            Numbers::Shorts(packed) => packed.put_by(route, values),
            Numbers::Ushorts(packed) => packed.put_by(route, values),
            Numbers::Longs(packed) => packed.put_by(route, values),
            Numbers::Ulongs(packed) => packed.put_by(route, values),
            Numbers::Longlongs(packed) => packed.put_by(route, values),
        }
    }

    /// Sets the numbers at the places that a placement shows from a position on to the values, in
    /// order, which are in the type's range. A value whose place lies past the end is dropped.
    pub fn put_along(&mut self, placement: &Placement, first: u32, values: &[i64])
        requires within { first + length values.now ≤ size_of placement.now.dims }
        requires in_range { All (InRange (elements_in self.old).ty) values.now }
        ensures { let old = elements_in self.old in
            let places = placed_from placement.now first (length values.now) in
            elements_in self.new ≡ record old { elems = write places values.now old.elems } }
    {
        match self {
            Numbers::Sbytes(packed) => write_block(packed, placement, first, values),
            Numbers::Bytes(packed) => write_block(packed, placement, first, values),
            Numbers::Shorts(packed) => write_block(packed, placement, first, values),
            Numbers::Ushorts(packed) => write_block(packed, placement, first, values),
            Numbers::Longs(packed) => write_block(packed, placement, first, values),
            Numbers::Ulongs(packed) => write_block(packed, placement, first, values),
            Numbers::Longlongs(packed) => write_block(packed, placement, first, values),
        }
    }

    /// Sets the numbers from a place on to the values, in order, which are in the type's range. A
    /// value whose place lies past the end is dropped.
    pub fn put_from(&mut self, first: u32, values: &[i64])
        requires within { first + length values.now ≤ extent_limit }
        requires in_range { All (InRange (elements_in self.old).ty) values.now }
        ensures { let old = elements_in self.old in
            let places = onward first (length values.now) in
            elements_in self.new ≡ record old { elems = write places values.now old.elems } }
    {
        match self {
            Numbers::Sbytes(packed) => write_onward(packed, first, values),
            Numbers::Bytes(packed) => write_onward(packed, first, values),
            Numbers::Shorts(packed) => write_onward(packed, first, values),
            Numbers::Ushorts(packed) => write_onward(packed, first, values),
            Numbers::Longs(packed) => write_onward(packed, first, values),
            Numbers::Ulongs(packed) => write_onward(packed, first, values),
            Numbers::Longlongs(packed) => write_onward(packed, first, values),
        }
    }

    /// Each number that a placement shows becomes an operator's value on it and one number, which
    /// is in the type's range and no divisor 0. The placement shows none of them twice. They are
    /// changed where they stand, in one pass.
    pub fn update(&mut self, update: Update, placement: &Placement)
        requires suits { Suits (elements_in self.old).ty update }
        requires once { ShowsOnce placement.now }
        requires reaches { Reaches placement.now (length (elements_in self.old).elems) }
        ensures { let old = elements_in self.old in
            let values = map (updated old.ty update) (shown_through placement.now old.elems) in
            let places = placed_from placement.now 0 (size_of placement.now.dims) in
            elements_in self.new ≡ record old { elems = write places values old.elems } }
    {
        match self {
            Numbers::Sbytes(packed) => update_shown(packed, update, placement),
            Numbers::Bytes(packed) => update_shown(packed, update, placement),
            Numbers::Shorts(packed) => update_shown(packed, update, placement),
            Numbers::Ushorts(packed) => update_shown(packed, update, placement),
            Numbers::Longs(packed) => update_shown(packed, update, placement),
            Numbers::Ulongs(packed) => update_shown(packed, update, placement),
            Numbers::Longlongs(packed) => update_shown(packed, update, placement),
        }
    }

    /// Takes the numbers out, and leaves none, of the same type. It takes no memory.
    pub fn take(&mut self) -> Numbers
        ensures taken { elements_in result ≡ elements_in self.old }
        ensures left { elements_in self.new ≡ record (elements_in self.old) { elems = [] } }
    {
        let none = match self {
            Numbers::Sbytes(packed) => Numbers::Sbytes(packed.none()),
            Numbers::Bytes(packed) => Numbers::Bytes(packed.none()),
            Numbers::Shorts(packed) => Numbers::Shorts(packed.none()),
            Numbers::Ushorts(packed) => Numbers::Ushorts(packed.none()),
            Numbers::Longs(packed) => Numbers::Longs(packed.none()),
            Numbers::Ulongs(packed) => Numbers::Ulongs(packed.none()),
            Numbers::Longlongs(packed) => Numbers::Longlongs(packed.none()),
        };
        replace(self, none)
    }

    /// Sets the numbers that a placement shows to those that another placement of the same
    /// dimensions shows of others of the type, in order of position. They are copied in their own
    /// width.
    pub fn copy_shown(&mut self, to: &Placement, from: &Numbers, shown: &Placement)
        requires same_type { (elements_in from.now).ty ≡ (elements_in self.old).ty }
        requires same_dims { to.now.dims ≡ shown.now.dims }
        requires reaches { Reaches to.now (length (elements_in self.old).elems) }
        requires from_reaches { Reaches shown.now (length (elements_in from.now).elems) }
        ensures { let old = elements_in self.old in
            let values = shown_through shown.now (elements_in from.now).elems in
            let places = placed_from to.now 0 (size_of to.now.dims) in
            elements_in self.new ≡ record old { elems = write places values old.elems } }
    {
        match (self, from) {
            (Numbers::Sbytes(into), Numbers::Sbytes(from)) => copy_shown(into, to, from, shown),
            (Numbers::Bytes(into), Numbers::Bytes(from)) => copy_shown(into, to, from, shown),
            (Numbers::Shorts(into), Numbers::Shorts(from)) => copy_shown(into, to, from, shown),
            (Numbers::Ushorts(into), Numbers::Ushorts(from)) => copy_shown(into, to, from, shown),
            (Numbers::Longs(into), Numbers::Longs(from)) => copy_shown(into, to, from, shown),
            (Numbers::Ulongs(into), Numbers::Ulongs(from)) => copy_shown(into, to, from, shown),
            (Numbers::Longlongs(into), Numbers::Longlongs(from)) => {
                copy_shown(into, to, from, shown)
            }
            _ => unreachable!(),
        }
    }

    /// The numbers at the places, with 0 where there is none among these.
    pub fn gathered(&self, alloc: Global, places: &[Option<u32>]) -> Result<Numbers, AllocError>
        ensures { let elems = read places.now (elements_in self.now).elems in
            IfOk result (λ kept.
            elements_in kept ≡ record (elements_in self.now) { elems = elems }) }
    {
        Ok(match self {
            Numbers::Sbytes(packed) => Numbers::Sbytes(packed.gathered(alloc, places)?),
            Numbers::Bytes(packed) => Numbers::Bytes(packed.gathered(alloc, places)?),
            Numbers::Shorts(packed) => Numbers::Shorts(packed.gathered(alloc, places)?),
            Numbers::Ushorts(packed) => Numbers::Ushorts(packed.gathered(alloc, places)?),
            Numbers::Longs(packed) => Numbers::Longs(packed.gathered(alloc, places)?),
            Numbers::Ulongs(packed) => Numbers::Ulongs(packed.gathered(alloc, places)?),
            Numbers::Longlongs(packed) => Numbers::Longlongs(packed.gathered(alloc, places)?),
        })
    }

    /// The numbers that a placement shows, from a position on.
    pub fn read(&self, placement: &Placement, first: u32, into: &mut [i64])
        requires within { first + length into.old ≤ size_of placement.now.dims }
        requires reaches { Reaches placement.now (length (elements_in self.now).elems) }
        ensures value { HasRead placement.now (elements_in self.now).elems first
            (length into.old) into.new }
        ensures in_range { All (InRange (elements_in self.now).ty) into.new }
    {
        match self {
            Numbers::Sbytes(packed) => read_block(packed, placement, first, into),
            Numbers::Bytes(packed) => read_block(packed, placement, first, into),
            Numbers::Shorts(packed) => read_block(packed, placement, first, into),
            Numbers::Ushorts(packed) => read_block(packed, placement, first, into),
            Numbers::Longs(packed) => read_block(packed, placement, first, into),
            Numbers::Ulongs(packed) => read_block(packed, placement, first, into),
            Numbers::Longlongs(packed) => read_block(packed, placement, first, into),
        }
    }

    /// Takes the numbers that a placement shows along dimension 1, from a position on, into what
    /// others before each of them come to.
    pub fn take_across<F: Folding>(&self, placement: &Placement, first: u32, so_far: &mut [i64])
        requires some { first < size_of placement.now.dims }
        requires small { length so_far.old ≤ extent_limit }
        requires along { LieAcross placement.now.dims first (length so_far.old) }
        requires within { (k : ℕ) → k < length so_far.old →
            across placement.now.dims first k < size_of placement.now.dims }
        requires reaches { Reaches placement.now (length (elements_in self.now).elems) }
        ensures { let elems = (elements_in self.now).elems in
            HasTakenAcross F.taken placement.now elems first so_far.old so_far.new }
    {
        match self {
            Numbers::Sbytes(packed) => take_across::<F, AtSbyte, 1>(
                packed, placement, first, so_far,
            ),
            Numbers::Bytes(packed) => take_across::<F, AtByte, 1>(packed, placement, first, so_far),
            Numbers::Shorts(packed) => take_across::<F, AtShort, 2>(
                packed, placement, first, so_far,
            ),
            Numbers::Ushorts(packed) => {
                take_across::<F, AtUshort, 2>(packed, placement, first, so_far)
            }
            Numbers::Longs(packed) => take_across::<F, AtLong, 4>(packed, placement, first, so_far),
            Numbers::Ulongs(packed) => take_across::<F, AtUlong, 4>(
                packed, placement, first, so_far,
            ),
            Numbers::Longlongs(packed) => {
                take_across::<F, AtLonglong, 8>(packed, placement, first, so_far)
            }
        }
    }
}

/// These numbers, which are in the type's range, packed.
pub fn numbers_of(alloc: Global, ty: Ty, numbers: &[i64]) -> Result<Numbers, AllocError>
    requires { All (InRange ty) numbers.now }
    ensures { IfOk result (λ kept. elements_in kept ≡ record { ty = ty; elems = numbers.now }) }
{
    let mut packed = Numbers::with_room(alloc, ty, numbers.len())?;
    packed.extend(numbers)?;
    Ok(packed)
}
