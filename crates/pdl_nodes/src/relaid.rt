//! Layouts that are made anew, for an array that gets other dimensions.
ghost use Rattle.std.specs.Prelude.{◌≡◌, ◌≢◌, ℕ, ◌+◌, ◌-◌, ◌<◌, ◌^◌, option_map, true, false, [], Some, IfOk, IfErr, OnOk};
ghost use Rattle.pdl_world.specs.Cut.{breaks};
ghost use Rattle.pdl_world.specs.Paths.{path};
ghost use Rattle.pdl_world.specs.Sound.{IsSound};
ghost use Rattle.pdl_world.specs.Swept.{is_listed};
ghost use Rattle.pdl_nodes.specs.declared.relaid.RelayFault.TheVariants.{Breaks};
ghost use Rattle.pdl_nodes.specs.Relaying.{AreNewDims, IsRelaying};
ghost use Rattle.pdl_nodes.specs.Renewed.{AreRelaid, layout_at};
ghost use Rattle.pdl_nodes.specs.Rows.{NumbersBelow, has, row_at};
ghost use Rattle.pdl_nodes.specs.Still.{IsStill};
ghost use Rattle.pdl_nodes.specs.Worlds.{world_of};

use crate::apart::Apart;
use crate::faults::ViewFault;
use crate::layouts::layout;
use crate::origin::{Layout, Origin};
use crate::table::Table;
use pdl_shape::{Dims, dims_list};
use pdl_world::breaking_laws;
use std::alloc::{AllocError, Global};
use std::collections::BTreeMap;
use std::marker::Model;

/// Layouts that were made anew, by the numbers of their views.
#[derive(Drop)]
pub struct Relaid {
    layouts: BTreeMap<u64, Apart<Layout>>,
}

impl Model for Relaid {
    ghost use Rattle.std.specs.Ordering.{nat_cmp};
    ghost use Rattle.std.specs.BTreeMap.{IsOrdered};
    ghost use Rattle.pdl_nodes.specs.Renewed.{Layouts};

    ghost Value = { Layouts };

    ghost view = { λ r. r.layouts.entries };

    ghost invariant = { λ r. IsOrdered nat_cmp r.layouts };
}

impl Relaid {
    /// No layouts.
    pub fn new(alloc: Global) -> Relaid
        ensures { result ≡ [] }
    {
        Relaid {
            layouts: BTreeMap::new(alloc),
        }
    }

    /// The layout that was made anew for a view, if one was.
    fn get(&self, id: u64) -> Option<&Layout>
        ensures { option_map (λ y. y.now) result ≡ layout_at self.now id }
    {
        match self.layouts.get(&id) {
            Some(layout) => Some(layout.get()),
            None => None,
        }
    }

    /// Keeps the layout of a view.
    fn insert(&mut self, alloc: Global, id: u64, layout: Layout) -> Result<(), AllocError>
        ensures here { OnOk result (layout_at self.new id ≡ Some layout) }
        ensures others { OnOk result
            ((u : ℕ) → u ≢ id → layout_at self.new u ≡ layout_at self.old u) }
    {
        let layout = Apart::new(alloc, layout)?;
        self.layouts.insert(id, layout)?;
        Ok(())
    }

    /// Takes the layout of a view out, if it has one.
    pub(crate) fn take(&mut self, id: u64) -> Option<Apart<Layout>>
        ensures taken { result ≡ layout_at self.old id }
        ensures others { (u : ℕ) → u ≢ id → layout_at self.new u ≡ layout_at self.old u }
    {
        self.layouts.remove(&id)
    }
}

/// Why no layouts are made anew.
#[derive(Clone, Copy, PartialEq, Eq, Debug)]
pub enum RelayFault {
    /// The formula of a view refuses the dimensions that its parent would have.
    Breaks,
    /// There was no memory, also where a view would break.
    NoMemory,
}

impl From<AllocError> for RelayFault {
    ghost use Rattle.pdl_nodes.specs.declared.relaid.RelayFault.{RelayFault};

    ghost from_gives = { λ e fault. fault ≡ RelayFault.NoMemory };

    fn from(_: AllocError) -> RelayFault {
        RelayFault::NoMemory
    }
}

impl From<ViewFault> for RelayFault {
    ghost use Rattle.pdl_nodes.specs.Faults.{of_view};

    ghost from_gives = { λ e fault. fault ≡ of_view e };

    fn from(fault: ViewFault) -> RelayFault {
        match fault {
            ViewFault::NoMemory => RelayFault::NoMemory,
            _ => RelayFault::Breaks,
        }
    }
}

/// The dimensions that a parent has once the array `id` has these: its own if it is that array, and
/// else those of its new layout, if it has one.
fn new_dims<'a>(layouts: &'a Relaid, id: u64, dims: &'a Dims, parent: u64) -> Option<&'a Dims>
    ensures { AreNewDims layouts.now id dims.now parent (option_map (λ ds. ds.now) result) }
{
    if parent == id {
        return Some(dims);
    }
    match layouts.get(parent) {
        Some(layout) => Some(layout.dims()),
        None => None,
    }
}

impl Table {
    /// The layouts, for these dimensions of an array, of all views that reach it by parents. They
    /// are made the oldest first, so that each finds the new dimensions of its parent. `Breaks`
    /// comes only where the formula of such a view refuses, and there it never succeeds.
    pub fn relaid(&self, alloc: Global, id: u64, dims: &Dims) -> Result<Relaid, RelayFault>
        requires still { IsStill self.now }
        requires sound { IsSound (world_of self.now) }
        requires live { has self.now id ≡ true }
        ensures laid { IfOk result (λ ls. AreRelaid ls self.now id dims.now) }
        ensures allowed { OnOk result (breaks (world_of self.now) id dims.now ≡ false) }
        ensures breaks { IfErr result
            (λ f. f ≡ Breaks → breaks (world_of self.now) id dims.now ≡ true) }
    {
        breaking_laws();
        let mut layouts = Relaid::new(alloc);
        let below = self.below(alloc, id)?;
        for view in below.iter() {
            self.relay(alloc, id, dims, &mut layouts, *view)?;
        }
        Ok(layouts)
    }

    /// Makes the layout of a view anew whose parent is the array of other dimensions, or below it.
    /// Those of all older views were made before.
    fn relay(
        &self,
        alloc: Global,
        id: u64,
        dims: &Dims,
        layouts: &mut Relaid,
        newer: u64,
    ) -> Result<(), RelayFault>
        requires still { IsStill self.now }
        requires sound { IsSound (world_of self.now) }
        requires top { has self.now id ≡ true }
        requires live { has self.now newer ≡ true }
        requires newer { id < newer }
        requires before { IsRelaying layouts.old self.now id dims.now newer }
        ensures after { OnOk result (IsRelaying layouts.new self.now id dims.now (newer + 1)) }
        ensures breaks { IfErr result
            (λ f. f ≡ Breaks → breaks (world_of self.now) id dims.now ≡ true) }
    {
        breaking_laws();
        let Origin::View { parent, trans, .. } = self.node(newer).origin() else {
            return Ok(());
        };
        let Some(above) = new_dims(layouts, id, dims, *parent) else {
            return Ok(());
        };
        let made = layout(alloc, trans.get(), above)?;
        // the limits of dimensions are known where they are listed
        let _limits = dims_list(made.dims());
        layouts.insert(alloc, newer, made)?;
        Ok(())
    }
}
