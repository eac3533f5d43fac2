//! The routes by which values go into buffers, each from a position on.
ghost use Rattle.std.specs.Prelude.{◌≡◌, ◌<◌, ◌≤◌, ◌+◌, ℕ, Some, IsTrue, is_some};
ghost use Rattle.std.specs.List.{list_all};
ghost use Rattle.pdl_numbers.specs.Shown.{place_at};
ghost use Rattle.pdl_shape.specs.Shape.{extent_limit, size_of};
ghost use Rattle.pdl_nodes.specs.Assigned.{entry, seen};
ghost use Rattle.pdl_nodes.specs.Placed.{placed};

use pdl_choice::Places;
use pdl_numbers::{Placement, Route};

/// The place at a position of a list, or nothing.
pub fn entry(places: &[Option<u32>], position: u32) -> Option<u32>
    ensures { result ≡ entry places.now position }
{
    if (position as usize) < places.len() {
        places[position as usize]
    } else {
        None
    }
}

/// The root's place at a place of a base, of which these are the root's places. Those of a root
/// aren't listed.
pub fn placed(known: &Option<Places>, spot: u32) -> Option<u32>
    ensures { result ≡ placed known.now spot }
{
    match known {
        None => Some(spot),
        Some(places) => entry(places.as_slice(), spot),
    }
}

/// A base's place that has a place in the root, of which these are the root's places.
fn seen(places: &[Option<u32>], spot: u32) -> Option<u32>
    ensures { result ≡ seen places.now spot }
{
    match entry(places, spot) {
        Some(_) => Some(spot),
        None => None,
    }
}

/// Whether each of these is a place.
fn are_all(places: &[Option<u32>]) -> bool
    ensures { result ≡ list_all is_some places.now }
{
    places.iter().all(|place| place.is_some())
}

/// Whether each of so many positions from one on shows the base's place of the same number, and all
/// of these have one of these places in the root.
pub(crate) fn are_seen(
    places: &[Option<u32>],
    placement: &Placement,
    first: u32,
    count: usize,
) -> bool
    requires within { first + count ≤ size_of placement.now.dims }
    requires small { size_of placement.now.dims ≤ extent_limit }
    ensures { IsTrue result → (p : ℕ) → p < count →
        seen places.now (place_at placement.now (first + p))
        ≡ Some (place_at placement.now (first + p)) }
{
    let from = first as usize;
    let end = from + count;
    if places.len() < end {
        return false;
    }
    placement.is_identity() && are_all(&places[from..end])
}

/// The root's places that a placement shows over a base, of which these are the root's places,
/// from a position on.
#[derive(Drop)]
pub(crate) struct OverBase<'a> {
    pub(crate) placement: Placement,
    pub(crate) places: &'a [Option<u32>],
    pub(crate) first: u32,
}

impl<'a> Route for OverBase<'a> {
    ghost use Rattle.std.specs.Prelude.{◌+◌, ◌-◌, ◌^◌, min};
    ghost use Rattle.pdl_numbers.specs.Shown.{place_at};
    ghost use Rattle.pdl_nodes.specs.Assigned.{entry};
    ghost use Rattle.pdl_shape.specs.Shape.{size_of};

    ghost count = { λ r. min (size_of r.placement.dims) (2 ^ 32) - r.first };

    ghost goes_to = { λ r p. entry r.places.now (place_at r.placement (r.first + p)) };

    fn place(&self, position: u32) -> Option<u32> {
        entry(self.places, self.placement.place(self.first + position))
    }
}

/// The places of a base that a placement shows and that have a place in the root, from a position
/// on.
#[derive(Drop)]
pub(crate) struct ThroughBase<'a> {
    pub(crate) placement: Placement,
    pub(crate) places: &'a [Option<u32>],
    pub(crate) first: u32,
}

impl<'a> Route for ThroughBase<'a> {
    ghost use Rattle.std.specs.Prelude.{◌+◌, ◌-◌, ◌^◌, min};
    ghost use Rattle.pdl_numbers.specs.Shown.{place_at};
    ghost use Rattle.pdl_nodes.specs.Assigned.{seen};
    ghost use Rattle.pdl_shape.specs.Shape.{size_of};

    ghost count = { λ r. min (size_of r.placement.dims) (2 ^ 32) - r.first };

    ghost goes_to = { λ r p. seen r.places.now (place_at r.placement (r.first + p)) };

    fn place(&self, position: u32) -> Option<u32> {
        seen(self.places, self.placement.place(self.first + position))
    }
}
