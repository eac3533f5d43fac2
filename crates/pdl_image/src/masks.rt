//! The numbers of masks, each part of which is made from the places that lie in it.
ghost use Rattle.std.specs.Prelude.{ℕ, ◌≡◌, ◌≤◌, ◌<◌, ◌^◌, ◌+◌, ◌-◌, length, pos, slice_set, take, drop};
ghost use Rattle.std.specs.List.{All};
ghost use Rattle.std.specs.List.Sorted.{IsNonDecreasing};
ghost use Rattle.pdl_image.specs.Adding.{mask_part};
ghost use Rattle.pdl_image.specs.Stems.{is_in};

/// Sets the number of a place to 1 in the part of a mask from a position on, if the part has it.
fn mark(part: &mut [i64], first: usize, place: usize)
    ensures before { place < first → part.new ≡ part.old }
    ensures inside { first ≤ place → place - first < length part.old →
        part.new ≡ slice_set part.old (place - first) (pos 1) }
    ensures past { length part.old ≤ place - first → part.new ≡ part.old }
{
    if first <= place && place - first < part.len() {
        part[place - first] = 1;
    }
}

/// Sets each of a part to a mask's numbers from a position on: 1 at the listed places, and 0
/// elsewhere.
fn mark_each(part: &mut [i64], first: usize, places: &[u32])
    ensures { part.new ≡ mask_part first (length part.old) places.now }
{
    part.fill(0);
    for place in places {
        mark(part, first, *place as usize);
    }
}

/// How many of places that rise lie below a position.
fn count_below(places: &[u32], position: usize) -> usize
    requires { IsNonDecreasing places.now }
    ensures bound { result ≤ length places.now }
    ensures below { All (λ place. place < position) (take result places.now) }
    ensures past { All (λ place. position ≤ place) (drop result places.now) }
{
    places.partition_point(|place| (*place as usize) < position)
}

/// Those of places that rise from a first position on, up to an end.
fn places_within(places: &[u32], first: usize, end: usize) -> &[u32]
    requires { IsNonDecreasing places.now }
    ensures { (place : ℕ) → first ≤ place → place < end →
        is_in result.now place ≡ is_in places.now place }
{
    let (_, not_below) = places.split_at(count_below(places, first));
    let (within, _) = not_below.split_at(count_below(not_below, end));
    within
}

/// The same as `mark_each`, where the places rise: only those of the part are read.
pub fn read_mask(places: &[u32], first: usize, part: &mut [i64])
    requires rises { IsNonDecreasing places.now }
    requires small { first + length part.old < 2 ^ 32 }
    ensures { part.new ≡ mask_part first (length part.old) places.now }
{
    let within = places_within(places, first, first + part.len());
    mark_each(part, first, within)
}
