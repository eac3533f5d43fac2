//! clump: the first dimensions joined to one, as a list of places.
ghost use Rattle.std.specs.Prelude.{◌≡◌, ◌≢◌, ◌⊎◌, ◌<◌, ◌≤◌, [], ◌∷◌, length, take, drop, map, Some, Ok, Err, IfOk, IfErr};
ghost use Rattle.std.specs.List.{range_with_len};
ghost use Rattle.pdl_shape.specs.Shape.{IsDims, size_of};
ghost use Rattle.pdl_shape.specs.Places.{AllBelow, places_of};
ghost use Rattle.pdl_shape.specs.Refusals.{Refuses};
ghost use Rattle.pdl_choice.specs.Choice.{refusal_of};
ghost use Rattle.pdl_choice.specs.Clump.{clump_dims, clumped_source};

use crate::answers::count_of;
use crate::{Choice, ChoiceFault, NoMemory, Places};
use pdl_shape::{Dims, clump_count, dims_list, dims_of, elements_of, shape_laws};
use std::alloc::Global;

/// The first `count` dimensions joined to one, or all for -1, as a list of places (PDL::Core,
/// clump). `BadDimension` where `count` isn't 1 to the number of dimensions or -1.
pub fn clump_list(alloc: Global, source: &Dims, count: i64) -> Result<Choice, ChoiceFault>
    ensures dims { IfOk result (λ c. clump_dims source.now count ≡ Ok c.dims) }
    ensures places { IfOk result (λ c. c.places ≡ places_of c.dims source.now (λ at.
        Some (clumped_source source.now count at))) }
    ensures inside { IfOk result (λ c. AllBelow (size_of source.now) c.places) }
    ensures refusal { IfErr result (λ f. Refuses (clump_dims source.now count) (refusal_of f)) }
{
    shape_laws();
    let parent = dims_list(source);
    let Some(joined) = clump_count(count, parent.len()) else {
        return Err(ChoiceFault::BadDimension);
    };
    let dims = clumped(alloc, parent, joined)?;
    let list = all_places(alloc, elements_of(source))?;
    let places = Places::new(list)?;
    Ok(Choice { dims, places })
}

/// The dimensions with the first `joined` of them as one.
fn clumped(alloc: Global, parent: &[u32], joined: usize) -> Result<Dims, NoMemory>
    requires limits { IsDims parent.now }
    requires some { 0 < joined ⊎ parent.now ≡ [] }
    requires enough { joined ≤ length parent.now }
    ensures { IfOk result (λ dims. dims ≡ size_of (take joined parent.now)
        ∷ drop joined parent.now) }
{
    shape_laws();
    let sizes = clumped_sizes(alloc, parent, joined)?;
    match dims_of(alloc, &sizes) {
        Ok(dims) => Ok(dims),
        Err(_) => unreachable!(),
    }
}

/// The sizes with the product of the first `joined` of them in their stead.
fn clumped_sizes(alloc: Global, parent: &[u32], joined: usize) -> Result<Vec<u32>, NoMemory>
    requires limits { IsDims parent.now }
    requires enough { joined ≤ length parent.now }
    ensures { IfOk result (λ sizes. sizes.items ≡ size_of (take joined parent.now)
        ∷ drop joined parent.now) }
{
    shape_laws();
    let (first, rest) = parent.split_at(joined);
    let product = count_of(first);
    let mut sizes = Vec::with_capacity(alloc, rest.len() + 1)?;
    sizes.push(product)?;
    sizes.extend_from_slice(rest)?;
    Ok(sizes)
}

/// The places 0 to `count` - 1.
#[tactic(auto, using(crate::proofs::WhereLists::range_steps))]
fn all_places(alloc: Global, count: u32) -> Result<Vec<Option<u32>>, NoMemory>
    ensures { IfOk result (λ places. places.items ≡ map (λ p. Some p) (range_with_len 0 count)) }
{
    let mut places = Vec::with_capacity(alloc, count as usize)?;
    for place in 0..count {
        places.push(Some(place))?;
    }
    Ok(places)
}
