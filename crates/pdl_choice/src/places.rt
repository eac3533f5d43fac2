//! Lists of places, which several may hold.
ghost use Rattle.std.specs.Prelude.{◌≡◌, IfOk};

use crate::NoMemory;
use std::marker::Model;
use std::rc::RcSlice;

/// The position in the parent for each position of a view, in order; `None` beyond an edge that
/// reads 0. Several may hold one list, which nobody changes. Contracts see the list.
#[derive(Drop, Debug)]
pub struct Places {
    list: RcSlice<Option<u32>>,
}

impl Model for Places {
    ghost use Rattle.std.specs.Prelude.{List, ℕ, Option};
    ghost use Rattle.std.specs.Rc.{rc_slice_items};

    ghost Value = { List (Option ℕ) };

    ghost view = { λ places. rc_slice_items places.list };
}

impl Places {
    /// These places, which are moved in.
    pub fn new(list: Vec<Option<u32>>) -> Result<Places, NoMemory>
        ensures { IfOk result (λ places. places ≡ list.items) }
    {
        let list = RcSlice::from_vec(list)?;
        Ok(Places { list })
    }

    /// The places in order.
    pub fn as_slice(&self) -> &[Option<u32>]
        ensures { result.now ≡ self.now }
    {
        self.list.as_slice()
    }

    /// The same list, for one more holder. No place is copied. It is refused where holders can't be
    /// counted any more.
    pub fn share(&self) -> Result<Places, NoMemory>
        ensures { IfOk result (λ places. places ≡ self.now) }
    {
        let list = self.list.clone()?;
        Ok(Places { list })
    }
}
