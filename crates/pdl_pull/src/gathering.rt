//! Places that are gathered for a view.
ghost use Rattle.std.specs.List.{range_with_len};
ghost use Rattle.std.specs.Prelude.{◌≡◌, ℕ, ◌+◌, ◌<◌, ◌≤◌, IsTrue, true, false, length, map, drop, option_and_then, All, IfOk};
ghost use Rattle.pdl_shape.specs.Places.{AllBelow, IsBelow};
ghost use Rattle.pdl_shape.specs.Shape.{size_of};
ghost use Rattle.pdl_nodes.specs.Assigned.{entry};
ghost use Rattle.pdl_nodes.specs.Families.{has_repeats, is_among};
ghost use Rattle.pdl_nodes.specs.Placed.{placed_by};
ghost use Rattle.pdl_pull.specs.Gathered.{own_at};
ghost use Rattle.pdl_pull.specs.Seen.{AreFlagsOf};

use crate::bit_set::BitSet;
use pdl_buf::NoMemory;
use pdl_choice::Places;
use pdl_nodes::{Layout, entry, placed};
use pdl_numbers::{Placement, shows_identity};
use pdl_shape::Triple;
use std::alloc::Global;

/// So many positions are gone through before it is asked whether a place came twice.
const BLOCK: usize = 1024;

/// Whether a place is among these.
fn is_among(at: u32, places: &[Option<u32>]) -> bool
    ensures { result ≡ is_among at places.now }
{
    let mut left = places.len();
    while left > 0 {
        left -= 1;
        match places[left] {
            Some(other) => {
                if other == at {
                    return true;
                }
            }
            None => {}
        }
    }
    false
}

/// Whether two positions have the same place: each place is looked for among the later ones.
fn has_twice_of_few(places: &[Option<u32>]) -> bool
    ensures { result ≡ has_repeats places.now }
{
    let mut from = places.len();
    while from > 0 {
        from -= 1;
        match places[from] {
            Some(at) => {
                if is_among(at, &places[from + 1..]) {
                    return true;
                }
            }
            None => {}
        }
    }
    false
}

/// Whether comparing each pair of so many positions costs no more than a set with a bit for each
/// element of the root: the pairs of a dozen cost less than to ask for memory, and a pair as much
/// as to clear some 256 bits.
fn are_few(positions: usize, count: u32) -> bool {
    positions <= 12 || positions <= 90 && 128 * positions * positions <= count as usize
}

/// Whether two positions have the same place: a few by comparing them, none where the places rise,
/// and others in one pass from the last position on, over a set of the places seen.
pub fn has_twice(alloc: Global, places: &[Option<u32>], count: u32) -> Result<bool, NoMemory>
    requires { AllBelow count places.now }
    ensures { IfOk result (λ f. f ≡ has_repeats places.now) }
{
    if are_few(places.len(), count) {
        return Ok(has_twice_of_few(places));
    }
    if all_rise(places) {
        return Ok(false);
    }
    has_twice_of_many(alloc, places, count)
}

/// Whether each position has a place, past that of the position before it, as those of a mask do.
fn all_rise(places: &[Option<u32>]) -> bool
    ensures { IsTrue result → has_repeats places.now ≡ false }
{
    let mut least = u32::MAX;
    let mut first = places.len();
    while first > 0 {
        first -= 1;
        match places[first] {
            Some(at) if at < least => least = at,
            _ => return false,
        }
    }
    true
}

/// Whether two positions have the same place, in one pass from the last position on. The places
/// that were seen are a set with a byte for each element of the root, where these are at most some
/// eight times as many as the positions, and else one with a bit for each.
fn has_twice_of_many(alloc: Global, places: &[Option<u32>], count: u32) -> Result<bool, NoMemory>
    requires { AllBelow count places.now }
    ensures { IfOk result (λ f. f ≡ has_repeats places.now) }
{
    if count as usize / 8 <= places.len() {
        has_twice_by_bytes(alloc, places, count)
    } else {
        has_twice_by_bits(alloc, places, count)
    }
}

/// Whether two positions have the same place, by a set with a byte for each element of the root. It
/// is known at the end of a block of positions whether a place came twice.
fn has_twice_by_bytes(alloc: Global, places: &[Option<u32>], count: u32) -> Result<bool, NoMemory>
    requires { AllBelow count places.now }
    ensures { IfOk result (λ f. f ≡ has_repeats places.now) }
{
    let mut seen = vec![in alloc; false; count as usize]?;
    let mut twice = false;
    let mut end = places.len();
    while end > 0 && !twice {
        let first = end.saturating_sub(BLOCK);
        twice = flag_places(seen.as_mut_slice(), places, first, end);
        end = first;
    }
    Ok(twice)
}

/// Flags the places of the positions of a block as seen, from its last on, where those behind the
/// block are flagged and none of them comes twice. Answers whether one comes twice from the block's
/// first position on. The loop goes on where one does, so that it has one end.
fn flag_places(seen: &mut [bool], places: &[Option<u32>], first: usize, end: usize) -> bool
    requires within { end ≤ length places.now }
    requires ordered { first ≤ end }
    requires below { AllBelow (length seen.old) places.now }
    requires flags { AreFlagsOf (drop end places.now) seen.old }
    requires once { has_repeats (drop end places.now) ≡ false }
    ensures flags { AreFlagsOf (drop first places.now) seen.new }
    ensures twice { result ≡ has_repeats (drop first places.now) }
{
    let mut twice = false;
    let mut position = end;
    while position > first {
        position -= 1;
        if let Some(at) = places[position] {
            twice |= seen[at as usize];
            seen[at as usize] = true;
        }
    }
    twice
}

/// Whether two positions have the same place, by a set with a bit for each element of the root.
fn has_twice_by_bits(alloc: Global, places: &[Option<u32>], count: u32) -> Result<bool, NoMemory>
    requires { AllBelow count places.now }
    ensures { IfOk result (λ f. f ≡ has_repeats places.now) }
{
    let mut seen = BitSet::new(alloc, count)?;
    let mut position = places.len();
    while position > 0 {
        position -= 1;
        match places[position] {
            Some(at) => {
                if !seen.insert(at) {
                    return Ok(true);
                }
            }
            None => {}
        }
    }
    Ok(false)
}

/// The parent's position at a position of a view that is its own base.
fn own_at(layout: &Layout, position: u32) -> Option<u32>
    ensures { result ≡ own_at layout.now position }
{
    match layout {
        Layout::Plan(_) => Some(position),
        Layout::Choice(choice) => entry(choice.places.as_slice(), position),
    }
}

/// The root's place at a position of an array that a triple shows over a base.
fn place_through(
    known: &Option<Places>,
    shown: &Placement,
    size: u32,
    position: Option<u32>,
) -> Option<u32>
    requires { size ≡ size_of shown.now.dims }
    ensures { result ≡ option_and_then (entry (placed_by known.now shown.now)) position }
{
    match position {
        Some(at) if at < size => placed(known, shown.place(at)),
        _ => None,
    }
}

/// Whether the root's places of a view are those that it picks: it picks them from an array that
/// shows each place of a root at the position of the same number.
fn picks_places(
    own: &[Option<u32>],
    count: u32,
    known: &Option<Places>,
    triple: &Triple,
    size: u32,
) -> bool
    requires shown { size ≡ size_of triple.now.dims }
    requires within { (p : ℕ) → p < count → IsBelow size (entry own.now p) }
    ensures { IsTrue result → own.now ≡ map (λ p.
        option_and_then (entry (placed_by known.now triple.now)) (entry own.now p))
        (range_with_len 0 count) }
{
    if known.is_some() {
        return false;
    }
    if own.len() != count as usize {
        return false;
    }
    shows_identity(triple)
}

/// The root's places of a view over an array that a triple shows over a base, found one by one.
#[inline(never)]
fn listed_through(
    alloc: Global,
    layout: &Layout,
    count: u32,
    known: &Option<Places>,
    triple: &Triple,
    size: u32,
) -> Result<Places, NoMemory>
    requires shown { size ≡ size_of triple.now.dims }
    requires within { (p : ℕ) → p < count → IsBelow size (own_at layout.now p) }
    ensures { IfOk result (λ places. places ≡ map (λ p.
        option_and_then (entry (placed_by known.now triple.now)) (own_at layout.now p))
        (range_with_len 0 count)) }
{
    let shown = Placement::of(triple);
    let mut list = Vec::with_capacity(alloc, count as usize)?;
    for position in 0..count {
        let own = own_at(layout, position);
        list.push(place_through(known, &shown, size, own))?;
    }
    Places::new(list)
}

/// The root's places of a view over an array that a triple shows over a base. Where they are those
/// that the view picks, it is the same list.
#[inline(always)]
pub fn places_through(
    alloc: Global,
    layout: &Layout,
    count: u32,
    known: &Option<Places>,
    triple: &Triple,
    size: u32,
) -> Result<Places, NoMemory>
    requires shown { size ≡ size_of triple.now.dims }
    requires within { (p : ℕ) → p < count → IsBelow size (own_at layout.now p) }
    ensures { IfOk result (λ places. places ≡ map (λ p.
        option_and_then (entry (placed_by known.now triple.now)) (own_at layout.now p))
        (range_with_len 0 count)) }
{
    if let Layout::Choice(choice) = layout {
        let own = choice.places.as_slice();
        if picks_places(own, count, known, triple, size) {
            return choice.places.share();
        }
    }
    listed_through(alloc, layout, count, known, triple, size)
}
