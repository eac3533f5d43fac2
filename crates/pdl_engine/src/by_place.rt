//! What an assignment leaves at places: the value that is written there last.
ghost use Rattle.std.specs.Prelude.{◌≡◌, ℕ, ◌<◌, None, Some, IfOk, OnOk, get_or, slice_set};
ghost use Rattle.pdl_engine.specs.Foresights.{HasRoom, element_after, put_at, written_at};

use std::alloc::{AllocError, Global};
use std::collections::BTreeMap;

/// What an assignment leaves at places below a limit: an image, with the element of each place; or
/// the values that are written, as an entry for each place or as a map of those at which one is
/// written.
#[derive(Drop)]
pub(crate) enum Written {
    Image(Vec<i64>),
    Each(Vec<Option<i64>>),
    Few(BTreeMap<u32, i64>),
}

impl Written {
    /// Nothing, with room for places below a size. So many times a value will be written or looked
    /// up.
    pub(crate) fn nothing(alloc: Global, size: u32, uses: u64) -> Result<Written, AllocError>
        ensures nothing { IfOk result (λ w. (p : ℕ) → written_at w p ≡ None) }
        ensures room { IfOk result (λ w. (p : ℕ) → p < size → HasRoom w p) }
    {
        if is_little(size, uses) {
            return Ok(Written::Few(BTreeMap::new(alloc)));
        }
        let each = vec![in alloc; None; size as usize]?;
        Ok(Written::Each(each))
    }

    /// Writes a value at a place, over what was written there. One without a place is dropped.
    pub(crate) fn put(&mut self, place: Option<u32>, value: i64) -> Result<(), AllocError>
        ensures ok { OnOk result ((p : ℕ) → HasRoom self.old p
            → written_at self.new p ≡ put_at place value p (written_at self.old p)) }
        ensures room { (p : ℕ) → HasRoom self.old p → HasRoom self.new p }
    {
        match place {
            Some(at) => self.put_here(at, value),
            None => Ok(()),
        }
    }

    /// Writes a value at a place.
    fn put_here(&mut self, at: u32, value: i64) -> Result<(), AllocError>
        ensures ok { OnOk result ((p : ℕ) → HasRoom self.old p
            → written_at self.new p ≡ put_at (Some at) value p (written_at self.old p)) }
        ensures room { (p : ℕ) → HasRoom self.old p → HasRoom self.new p }
    {
        match self {
            Written::Image(image) => {
                set_at(image, at, value);
                Ok(())
            }
            Written::Each(each) => {
                set_at(each, at, Some(value));
                Ok(())
            }
            Written::Few(few) => {
                few.insert(at, value)?;
                Ok(())
            }
        }
    }

    /// What is left at a place, where that is known.
    fn at(&self, place: u32) -> Option<i64>
        ensures { result ≡ written_at self.now place }
    {
        match self {
            Written::Image(image) => image.get(place as usize).copied(),
            Written::Each(each) => each_at(each, place),
            Written::Few(few) => few.get(&place).copied(),
        }
    }

    /// The element at a place, where this was it before.
    pub(crate) fn element_after(&self, place: Option<u32>, before: i64) -> i64
        ensures { result ≡ element_after self.now place before }
    {
        match place {
            Some(at) => self.at(at).unwrap_or(before),
            None => before,
        }
    }
}

/// Whether more than four of so many places come to one that is written or looked up. Then a map
/// takes less than an entry for each place.
pub(crate) fn is_little(size: u32, uses: u64) -> bool {
    u64::from(size) / 4 > uses
}

/// Sets the entry of a place, if there is one.
fn set_at<T: Copy>(each: &mut [T], at: u32, entry: T)
    ensures { each.new ≡ slice_set each.old at entry }
{
    if (at as usize) < each.len() {
        each[at as usize] = entry;
    }
}

/// The entry of a place, and nothing where there is none.
fn each_at(each: &[Option<i64>], place: u32) -> Option<i64>
    ensures { result ≡ get_or each.now place None }
{
    if (place as usize) < each.len() {
        each[place as usize]
    } else {
        None
    }
}
