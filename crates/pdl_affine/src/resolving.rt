//! The numbers of a transformation, resolved against the parent's dimensions.
ghost use Rattle.std.specs.Prelude.{◌≡◌, ◌≢◌, ◌<◌, ◌^◌, length, get_or, ◌==◌, ◌≤◌, IsTrue, IfSome, IfOk, IfErr, OnOk, List, None, Some, [], ◌∷◌, ◌++◌};
ghost use Rattle.std.specs.List.{list_all, range_with_len};
ghost use Rattle.pdl_affine.specs.Courses.{AreSmall, Resolves, Stands};
ghost use Rattle.pdl_affine.specs.Views.{all_counted, lists, is_distinct, is_arrangement, are_same_size, new_place, refusal_of, resolved, steps_on, is_well_formed};
ghost use Rattle.pdl_affine.specs.declared.Affine.{Affine};
ghost use Rattle.pdl_shape.specs.Refusals.{bad_dimension};

use crate::forms::Form;
use crate::putting::put;
use crate::slicing::taken_of;
use crate::{Affine, PlanFault};
use pdl_shape::{clump_count, from_end};
use pdl_slices::SliceArg;
use std::alloc::Global;

fn slice(alloc: Global, args: &[SliceArg], parent: &[u32]) -> Result<Form, PlanFault>
    requires small { AreSmall parent.now }
    requires moves { IsTrue (list_all steps_on args.now) }
    ensures form { Resolves (resolved (Affine.Slice args.now) parent.now) result }
    ensures stands { IfOk result (λ form. Stands form (length parent.now)) }
{
    Ok(Form::Sliced(taken_of(alloc, args, parent)?))
}

fn xchg(a: i64, b: i64, parent: &[u32]) -> Result<Form, PlanFault>
    ensures form { Resolves (resolved (Affine.Xchg a b) parent.now) result }
    ensures stands { IfOk result (λ form. Stands form (length parent.now)) }
{
    match (from_end(a, parent.len()), from_end(b, parent.len())) {
        (Some(a), Some(b)) => Ok(Form::Exchanged(a, b)),
        _ => Err(PlanFault::BadDimension),
    }
}

fn mv(a: i64, b: i64, parent: &[u32]) -> Result<Form, PlanFault>
    ensures form { Resolves (resolved (Affine.Mv a b) parent.now) result }
    ensures stands { IfOk result (λ form. Stands form (length parent.now)) }
{
    match (from_end(a, parent.len()), from_end(b, parent.len())) {
        (Some(a), Some(b)) => Ok(Form::Shifted(a, b)),
        _ => Err(PlanFault::BadDimension),
    }
}

/// The places of these numbers among so many dimensions.
fn all_counted(alloc: Global, numbers: &[i64], count: usize) -> Result<Vec<usize>, PlanFault>
    ensures ok { IfOk result (λ places. all_counted numbers.now count ≡ Some places.items) }
    ensures err { IfErr result (λ fault. IfSome (refusal_of fault) (λ refusal.
        (refusal ≡ bad_dimension) × (all_counted numbers.now count ≡ None))) }
{
    let mut places = Vec::new(alloc);
    for number in numbers {
        match from_end(*number, count) {
            Some(place) => put(&mut places, place)?,
            None => return Err(PlanFault::BadDimension),
        }
    }
    Ok(places)
}

pub fn lists(places: &[usize], place: usize) -> bool
    ensures { result ≡ lists places.now place }
{
    places.iter().any(|other| *other == place)
}

fn is_arrangement(places: &[usize], count: usize) -> bool
    ensures { result ≡ is_arrangement places.now count }
{
    places.len() == count && lists_all(places, count)
}

fn lists_all(places: &[usize], count: usize) -> bool
    ensures { result ≡ list_all (λ i. lists places.now i) (range_with_len 0 count) }
{
    for place in 0..count {
        if !lists(places, place) {
            return false;
        }
    }
    true
}

fn is_distinct(places: &[usize]) -> bool
    ensures { result ≡ is_distinct places.now }
{
    match places {
        [] => true,
        [place, rest @ ..] => !lists(rest, *place) && is_distinct(rest),
    }
}

/// The size at a place, or 0 where there is none.
pub fn size_at(parent: &[u32], place: usize) -> u32
    ensures { result ≡ get_or parent.now place 0 }
{
    if place < parent.len() {
        parent[place]
    } else {
        0
    }
}

fn are_of_size(places: &[usize], size: u32, parent: &[u32]) -> bool
    ensures { result ≡ list_all (λ j. get_or parent.now j 0 == size) places.now }
{
    match places {
        [] => true,
        [place, rest @ ..] => { size_at(parent, *place) == size && are_of_size(rest, size, parent) }
    }
}

fn are_same_size(places: &[usize], parent: &[u32]) -> bool
    ensures { result ≡ are_same_size places.now parent.now }
{
    match places {
        [] => true,
        [first, rest @ ..] => are_of_size(rest, size_at(parent, *first), parent),
    }
}

fn reorder(alloc: Global, order: &[i64], parent: &[u32]) -> Result<Form, PlanFault>
    ensures form { Resolves (resolved (Affine.Reorder order.now) parent.now) result }
    ensures stands { IfOk result (λ form. Stands form (length parent.now)) }
{
    let places = all_counted(alloc, order, parent.len())?;
    if is_arrangement(&places, parent.len()) {
        Ok(Form::Arranged(places))
    } else {
        Err(PlanFault::BadDimension)
    }
}

fn diagonal(alloc: Global, listed: &[i64], parent: &[u32]) -> Result<Form, PlanFault>
    ensures form { Resolves (resolved (Affine.Diagonal listed.now) parent.now) result }
    ensures stands { IfOk result (λ form. Stands form (length parent.now)) }
{
    let places = all_counted(alloc, listed, parent.len())?;
    if is_distinct(&places) && are_same_size(&places, parent) {
        Ok(Form::Diagonal(places))
    } else {
        Err(PlanFault::BadDimension)
    }
}

fn new_place(place: i64, count: usize) -> Option<usize>
    ensures { result ≡ new_place place count }
{
    if place >= 0 {
        Some(place as usize)
    } else {
        let back = place.unsigned_abs() as usize - 1;
        if back <= count {
            Some(count - back)
        } else {
            None
        }
    }
}

fn dummy(place: i64, size: i64, parent: &[u32]) -> Result<Form, PlanFault>
    ensures form { Resolves (resolved (Affine.Dummy place size) parent.now) result }
    ensures stands { IfOk result (λ form. Stands form (length parent.now)) }
{
    match new_place(place, parent.len()) {
        Some(place) if size >= 0 => Ok(Form::Inserted {
            place,
            size: size as u64,
        }),
        _ => Err(PlanFault::BadDimension),
    }
}

fn clump(count: i64, parent: &[u32]) -> Result<Form, PlanFault>
    ensures form { Resolves (resolved (Affine.Clump count) parent.now) result }
    ensures stands { IfOk result (λ form. Stands form (length parent.now)) }
{
    match clump_count(count, parent.len()) {
        Some(count) => Ok(Form::Clumped(count)),
        None => Err(PlanFault::BadDimension),
    }
}

/// The transformation with its numbers resolved, or the refusal of its numbers.
pub fn resolve(alloc: Global, trans: &Affine, parent: &[u32]) -> Result<Form, PlanFault>
    requires small { AreSmall parent.now }
    requires well_formed { IsTrue (is_well_formed trans.now) }
    ensures form { Resolves (resolved trans.now parent.now) result }
    ensures stands { IfOk result (λ form. Stands form (length parent.now)) }
{
    match trans {
        Affine::Slice(args) => slice(alloc, args.as_slice(), parent),
        Affine::Xchg(a, b) => xchg(*a, *b, parent),
        Affine::Mv(a, b) => mv(*a, *b, parent),
        Affine::Reorder(order) => reorder(alloc, order.as_slice(), parent),
        Affine::Dummy { place, size } => dummy(*place, *size, parent),
        Affine::Diagonal(listed) => diagonal(alloc, listed.as_slice(), parent),
        Affine::Squeeze => Ok(Form::Squeezed),
        Affine::Clump(count) => clump(*count, parent),
    }
}
