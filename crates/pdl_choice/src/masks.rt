//! where and which: the places at which a mask isn't 0.
ghost use Rattle.std.specs.Prelude.{◌≡◌, ◌≢◌, ◌<◌, ◌≤◌, ◌^◌, ◌↔◌, ℕ, List, All, IsTrue, [], ◌∷◌, length, map, Some, Ok, Err, IfOk, IfErr, nat_eq};
ghost use Rattle.std.specs.Cmp.Lexicographic.{pointwise};
ghost use Rattle.pdl_shape.specs.Shape.{extent_limit, size_of};
ghost use Rattle.pdl_shape.specs.Places.{AllBelow, places_of};
ghost use Rattle.pdl_shape.specs.Refusals.{Refuses};
ghost use Rattle.pdl_choice.specs.Choice.{refusal_of};
ghost use Rattle.pdl_choice.specs.Where.{rises, which, where_dims, where_source};

use crate::{Choice, ChoiceFault, NoMemory, Places};
use pdl_elem::Items;
use pdl_shape::{Dims, dims_list, dims_of, elements_of, shape_laws};
use std::alloc::Global;

/// Positions in an array, in order. Contracts see the list.
pub type Positions = Items<u32>;

/// The positions at which `mask` isn't 0, rising (PDL::Primitive, which).
pub fn which_places(alloc: Global, mask: &[i64]) -> Result<Positions, NoMemory>
    requires { length mask.now < 2 ^ 32 }
    ensures places { IfOk result (λ places. places ≡ which mask.now) }
    ensures rises { IfOk result (λ places. IsTrue (rises 0 (length mask.now) places)) }
    ensures few { IfOk result (λ places. length places ≤ length mask.now) }
    ensures below { IfOk result (λ places. All (λ p. p < length mask.now) places) }
{
    Ok(Positions::new(set_positions(alloc, mask)?))
}

#[tactic(auto, using(crate::proofs::WhereLists::which_steps))]
fn set_positions(alloc: Global, mask: &[i64]) -> Result<Vec<u32>, NoMemory>
    requires { length mask.now < 2 ^ 32 }
    ensures { IfOk result (λ places. places.items ≡ which mask.now) }
{
    let mut places = Vec::with_capacity(alloc, set_count(mask))?;
    for (place, number) in mask.iter().enumerate() {
        if *number != 0 {
            places.push(place as u32)?;
        }
    }
    Ok(places)
}

/// How many numbers of `mask` aren't 0.
#[tactic(auto, using(crate::proofs::WhereLists::which_counts))]
fn set_count(mask: &[i64]) -> usize
    ensures bound { result ≤ length mask.now }
    ensures count { result ≡ length (which mask.now) }
{
    let mut count = 0;
    for number in mask {
        if *number != 0 {
            count += 1;
        }
    }
    count
}

/// The listed elements of the parent, in one dimension (PDL::Primitive, where). `dims` are those of
/// the mask that listed them; the places rise and lie below its size.
/// `Mismatch` where the dimensions aren't the parent's.
pub fn listed_places(
    alloc: Global,
    source: &Dims,
    dims: &Dims,
    places: &[u32],
) -> Result<Choice, ChoiceFault>
    requires { IsTrue (rises 0 (size_of dims.now) places.now) }
    ensures dims { IfOk result (λ c. where_dims source.now dims.now places.now ≡ Ok c.dims) }
    ensures places { let sources = λ (at : List ℕ). Some (where_source source.now places.now at) in
        IfOk result (λ c. c.places ≡ places_of c.dims source.now sources) }
    ensures inside { IfOk result (λ c. AllBelow (size_of source.now) c.places) }
    ensures refusal { IfErr result (λ f. Refuses (where_dims source.now dims.now places.now)
        (refusal_of f)) }
{
    shape_laws();
    let _count = elements_of(dims);
    if !is_same(source, dims) {
        return Err(ChoiceFault::Mismatch);
    }
    let dims = line(alloc, places.len() as u32);
    let list = as_places(alloc, places)?;
    let places = Places::new(list)?;
    Ok(Choice { dims, places })
}

/// The same positions, as places.
fn as_places(alloc: Global, positions: &[u32]) -> Result<Vec<Option<u32>>, NoMemory>
    ensures { IfOk result (λ places. places.items ≡ map (λ p. Some p) positions.now) }
{
    positions.iter().map(|place| Some(*place)).collect(alloc)
}

/// The parent's elements at which `mask` isn't 0, in one dimension (PDL::Primitive, where).
/// `Mismatch` where the mask's dimensions aren't the parent's.
pub fn where_places(
    alloc: Global,
    source: &Dims,
    mask_dims: &Dims,
    mask: &[i64],
) -> Result<Choice, ChoiceFault>
    requires { length mask.now ≡ size_of mask_dims.now }
    ensures dims { IfOk result (λ c. where_dims source.now mask_dims.now (which mask.now)
        ≡ Ok c.dims) }
    ensures places { let sources = λ (at : List ℕ).
        Some (where_source source.now (which mask.now) at) in
        IfOk result (λ c. c.places ≡ places_of c.dims source.now sources) }
    ensures inside { IfOk result (λ c. AllBelow (size_of source.now) c.places) }
    ensures refusal { IfErr result (λ f.
        Refuses (where_dims source.now mask_dims.now (which mask.now)) (refusal_of f)) }
{
    let _count = elements_of(mask_dims);
    let places = which_places(alloc, mask)?;
    listed_places(alloc, source, mask_dims, places.as_slice())
}

/// Whether two arrays have the same dimensions.
fn is_same(first: &Dims, second: &Dims) -> bool
    ensures value { result ≡ pointwise nat_eq first.now second.now }
    ensures same { IsTrue result ↔ (first.now ≡ second.now) }
    ensures limits { size_of first.now ≤ extent_limit }
{
    let _count = elements_of(first);
    dims_list(first) == dims_list(second)
}

/// One dimension of this size.
fn line(alloc: Global, size: u32) -> Dims
    requires { size ≤ extent_limit }
    ensures { result ≡ size ∷ [] }
{
    match dims_of(alloc, &[size]) {
        Ok(dims) => dims,
        Err(_) => unreachable!(),
    }
}
