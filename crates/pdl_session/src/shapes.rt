//! The shapes of argument lists.
ghost use Rattle.std.specs.Prelude.{◌≡◌, IfOk, IfSome, option_map};
ghost use Rattle.pdl_world.specs.World.{World};
ghost use Rattle.pdl_world.specs.Sound.{IsLive};
ghost use Rattle.pdl_machine.specs.Then.{all_of};
ghost use Rattle.pdl_session.specs.Arguments.{IsGivenLive, AreGivenLive, array_number, one_array, array_and_text, text_and_more, two_arrays, second_array, array_and_one, two_and_more, few_arrays};

use crate::given::Given;
use pdl_engine::ArrayId;
use std::alloc::{AllocError, Global};

/// The array that stands alone.
pub fn one_array(given: &[Given]) -> Option<ArrayId>
    ensures shape { result ≡ one_array given.now }
    ensures live { (w : World) → AreGivenLive w given.now → IfSome result (IsLive w) }
{
    match given {
        [Given::Array(id)] => Some(*id),
        _ => None,
    }
}

/// The text, where it stands alone behind an array.
pub fn array_and_text<'a>(given: &[Given<'a>]) -> Option<&'a [u8]>
    ensures { result ≡ array_and_text given.now }
{
    match given {
        [Given::Array(_), Given::Text(text)] => Some(*text),
        _ => None,
    }
}

/// The text behind the array that stands first, and what stands behind both.
pub fn text_and_more<'a, 'b>(given: &'a [Given<'b>]) -> Option<(&'b [u8], &'a [Given<'b>])>
    ensures shape { option_map (λ r. (r.0, r.1.now)) result ≡ text_and_more given.now }
    ensures live { (w : World) → AreGivenLive w given.now →
        IfSome result (λ r. AreGivenLive w r.1.now) }
{
    match given {
        [Given::Array(_), Given::Text(text), rest @ ..] => Some((*text, rest)),
        _ => None,
    }
}

/// The two arrays that stand alone.
pub fn two_arrays(given: &[Given]) -> Option<(ArrayId, ArrayId)>
    ensures shape { result ≡ two_arrays given.now }
    ensures live { (w : World) → AreGivenLive w given.now →
        IfSome result (λ r. IsLive w r.0 × IsLive w r.1) }
{
    match given {
        [Given::Array(left), Given::Array(right)] => Some((*left, *right)),
        _ => None,
    }
}

/// The second of two arrays.
pub fn second_array(given: &[Given]) -> Option<ArrayId>
    ensures shape { result ≡ second_array given.now }
    ensures live { (w : World) → AreGivenLive w given.now → IfSome result (IsLive w) }
{
    match given {
        [Given::Array(_), Given::Array(id)] => Some(*id),
        _ => None,
    }
}

/// An array, and the one argument behind it.
pub fn array_and_one<'a>(given: &[Given<'a>]) -> Option<(ArrayId, Given<'a>)>
    ensures shape { result ≡ array_and_one given.now }
    ensures live { (w : World) → AreGivenLive w given.now →
        IfSome result (λ r. IsLive w r.0 × IsGivenLive w r.1) }
{
    match given {
        [Given::Array(id), one] => Some((*id, *one)),
        _ => None,
    }
}

/// The second of the two arrays that stand first, and what stands behind them.
pub fn two_and_more<'a, 'b>(given: &'a [Given<'b>]) -> Option<(ArrayId, &'a [Given<'b>])>
    ensures shape { option_map (λ r. (r.0, r.1.now)) result ≡ two_and_more given.now }
    ensures live { (w : World) → AreGivenLive w given.now →
        IfSome result (λ r. IsLive w r.0 × AreGivenLive w r.1.now) }
{
    match given {
        [Given::Array(_), Given::Array(id), rest @ ..] => Some((*id, rest)),
        _ => None,
    }
}

/// No argument, or one or two arrays.
pub fn few_arrays(given: &[Given]) -> Option<(Option<ArrayId>, Option<ArrayId>)>
    ensures shape { result ≡ few_arrays given.now }
    ensures live { (w : World) → AreGivenLive w given.now →
        IfSome result (λ r. IfSome r.0 (IsLive w) × IfSome r.1 (IsLive w)) }
{
    match given {
        [] => Some((None, None)),
        [Given::Array(first)] => Some((Some(*first), None)),
        [Given::Array(first), Given::Array(second)] => Some((Some(*first), Some(*second))),
        _ => None,
    }
}

/// The arrays that arguments are, if each is one.
pub fn arrays_given(alloc: Global, given: &[Given]) -> Result<Option<Vec<ArrayId>>, AllocError>
    ensures { IfOk result (λ ids. option_map (λ v. v.items) ids ≡ all_of array_number given.now) }
{
    let mut ids = Vec::new(alloc);
    for one in given {
        match one {
            Given::Array(id) => ids.push(*id)?,
            _ => return Ok(None),
        }
    }
    Ok(Some(ids))
}
