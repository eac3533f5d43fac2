//! The descent from an array to the views below it.
ghost use Rattle.std.specs.Prelude.{IfOk};
ghost use Rattle.pdl_nodes.specs.Below.{AreBelow};
ghost use Rattle.pdl_nodes.specs.Still.{IsStill};

use crate::table::Table;
use std::alloc::{AllocError, Global};
use std::collections::BTreeSet;

impl Table {
    /// The views that reach an array by parents, the oldest first. It looks at no other array.
    pub fn below(&self, alloc: Global, id: u64) -> Result<Vec<u64>, AllocError>
        requires { IsStill self.now }
        ensures { IfOk result (λ us. AreBelow self.now id us.items) }
    {
        let mut below = Vec::new(alloc);
        let mut known = BTreeSet::new(alloc);
        self.copy_views(id, &mut known)?;
        let mut next = known.pop_first();
        while let Some(view) = next {
            below.push(view)?;
            self.copy_views(view, &mut known)?;
            next = known.pop_first();
        }
        Ok(below)
    }
}
