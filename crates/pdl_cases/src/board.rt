//! The arrays of a case: an engine, and what it keeps by name.
ghost use Rattle.std.specs.Prelude.{◌≡◌, ◌<◌, ◌++◌, ◌∷◌, [], ℕ, IfSome, IsTrue, OnSome};
ghost use Rattle.pdl_buf.specs.Made.{IsMade};
ghost use Rattle.pdl_elem.specs.Types.{InRange};
ghost use Rattle.pdl_engine.specs.State.{State};
ghost use Rattle.pdl_shape.specs.Shape.{size_of};
ghost use Rattle.pdl_world.specs.Formula.{is_well_formed};
ghost use Rattle.pdl_world.specs.Sound.{IsLive};
ghost use Rattle.pdl_world.specs.World.{dims_in, ty_in};
ghost use Rattle.pdl_cases.specs.Kept.{AreKept, IsKept, Recounts, recounted};

use pdl_buf::{Elements, Steps, new_steps};
use pdl_elem::{Ty, wrap_all};
use pdl_engine::{ArrayId, Engine, ReshapeFault, ViewFault};
use pdl_shape::{Dims, elements_of};
use pdl_world::{Trans, assignment_laws, cut_laws, growth_laws, reshape_laws, sweep_laws};
use std::alloc::Global;
use std::sync::ledger::{Blank, Ledger};

// The most holds of one array.
const MOST_HOLDS: u32 = 1000;

/// An array that a case has named, and how often it is held.
#[derive(Clone, Copy)]
pub struct Array {
    pub name: u8,
    pub id: ArrayId,
    pub holds: u32,
}

/// An engine, and its arrays that are held, by name.
#[derive(Drop)]
pub struct Board<L: Ledger> {
    pub alloc: Global,
    pub engine: Engine,
    pub arrays: Vec<Array>,
    steps: Steps<L>,
}

impl<L: Ledger> Board<L> {
    /// No arrays.
    pub fn new(alloc: Global, blank: Blank) -> Board<L>
        requires name { blank.name ≡ L.name }
        requires parts { blank.parts ≡ L.parts }
        requires some { 0 < blank.parts }
        ensures { AreKept result.engine result.arrays.items }
    {
        Board {
            alloc,
            engine: Engine::new(alloc),
            arrays: Vec::new(alloc),
            steps: new_steps::<L>(blank),
        }
    }

    /// The newest array of a name.
    pub fn find(&self, name: u8) -> Option<Array>
        requires { AreKept self.now.engine self.now.arrays.items }
        ensures { IfSome result (IsKept self.now.engine) }
    {
        for array in self.arrays.iter().rev() {
            if array.name == name {
                return Some(*array);
            }
        }
        None
    }

    /// A new root.
    pub fn make(&mut self, name: u8, ty: Ty, dims: &Dims, elems: Elements) -> Option<()>
        requires kept { AreKept self.old.engine self.old.arrays.items }
        requires made { IsMade ty dims.now elems }
        ensures { OnSome result (AreKept self.new.engine self.new.arrays.items) }
    {
        growth_laws();
        let id = self.engine.make(ty, dims, elems, &mut self.steps).ok()?;
        put(&mut self.arrays, Array { name, id, holds: 1 })?;
        Some(())
    }

    /// A new view, or why there is none.
    pub fn view(&mut self, name: u8, parent: &Array, trans: Trans) -> Option<Option<ViewFault>>
        requires kept { AreKept self.old.engine self.old.arrays.items }
        requires parent { IsKept self.old.engine parent.now }
        requires well_formed { IsTrue (is_well_formed trans) }
        ensures { OnSome result (AreKept self.new.engine self.new.arrays.items) }
    {
        growth_laws();
        match self.engine.view(parent.id, trans) {
            Ok(id) => {
                put(&mut self.arrays, Array { name, id, holds: 1 })?;
                Some(None)
            }
            Err(fault) => Some(Some(fault)),
        }
    }

    /// Makes an array one that can be lent.
    pub fn ready(&mut self, array: &Array) -> Option<()>
        requires kept { AreKept self.old.engine self.old.arrays.items }
        requires array { IsKept self.old.engine array.now }
        ensures kept { OnSome result (AreKept self.new.engine self.new.arrays.items) }
        ensures array { OnSome result (IsKept self.new.engine array.now) }
    {
        self.engine.ready(array.id, &mut self.steps).ok()
    }

    /// Puts numbers at the positions of an array that can be lent.
    pub fn assign(&mut self, array: &Array, numbers: &mut [i64]) -> Option<()>
        requires kept { AreKept self.old.engine self.old.arrays.items }
        requires array { IsKept self.old.engine array.now }
        ensures { OnSome result (AreKept self.new.engine self.new.arrays.items) }
    {
        assignment_laws();
        let count = elements_of(self.engine.dims(array.id)) as usize;
        if numbers.len() != count || !self.engine.is_fresh(array.id) {
            return None;
        }
        wrap_all(self.engine.ty(array.id), numbers);
        self.engine.assign(array.id, numbers, &mut self.steps);
        Some(())
    }

    /// Cuts an array from its parent.
    pub fn sever(&mut self, array: &Array) -> Option<()>
        requires kept { AreKept self.old.engine self.old.arrays.items }
        requires array { IsKept self.old.engine array.now }
        ensures { OnSome result (AreKept self.new.engine self.new.arrays.items) }
    {
        cut_laws();
        match self.engine.sever(array.id, &mut self.steps) {
            Ok(()) => Some(()),
            Err(_) => None,
        }
    }

    /// Gives an array other dimensions, or says that they break a view.
    pub fn reshape(&mut self, array: &Array, dims: &Dims) -> Option<Option<ReshapeFault>>
        requires kept { AreKept self.old.engine self.old.arrays.items }
        requires array { IsKept self.old.engine array.now }
        ensures { OnSome result (AreKept self.new.engine self.new.arrays.items) }
    {
        reshape_laws();
        match self.engine.reshape(array.id, dims, &mut self.steps) {
            Ok(()) => Some(None),
            Err(ReshapeFault::Breaks) => Some(Some(ReshapeFault::Breaks)),
            Err(ReshapeFault::NoMemory) => None,
        }
    }

    /// Holds an array once more.
    pub fn hold(&mut self, array: &Array) -> Option<()>
        requires kept { AreKept self.old.engine self.old.arrays.items }
        requires array { IsKept self.old.engine array.now }
        ensures { OnSome result (AreKept self.new.engine self.new.arrays.items) }
    {
        if array.holds >= MOST_HOLDS {
            return None;
        }
        self.engine.hold(array.id);
        self.arrays = recounted(self.alloc, &self.arrays, array.id, true)?;
        Some(())
    }

    /// Takes one hold of an array back. What is held no more has no name afterwards.
    pub fn release(&mut self, array: &Array) -> Option<()>
        requires kept { AreKept self.old.engine self.old.arrays.items }
        requires array { IsKept self.old.engine array.now }
        ensures { OnSome result (AreKept self.new.engine self.new.arrays.items) }
    {
        sweep_laws();
        self.engine.release(array.id, &mut self.steps);
        self.arrays = recounted(self.alloc, &self.arrays, array.id, false)?;
        Some(())
    }
}

// Puts an array behind the others.
fn put(arrays: &mut Vec<Array>, array: Array) -> Option<()>
    ensures { OnSome result (arrays.new.items ≡ arrays.old.items ++ array ∷ []) }
{
    arrays.push(array).ok()
}

// How often an array is held after one hold more or less of the array of this number.
fn holds_of(array: &Array, id: ArrayId, more: bool) -> Option<u32>
    ensures { IfSome result (λ n. n ≡ recounted more id array.now.id array.now.holds) }
{
    if array.id != id {
        return Some(array.holds);
    }
    if more {
        return array.holds.checked_add(1);
    }
    Some(array.holds.saturating_sub(1))
}

// The arrays that are held after one hold more or less of the array of this number.
fn recounted(alloc: Global, arrays: &[Array], id: ArrayId, more: bool) -> Option<Vec<Array>>
    ensures { (old new : State) → Recounts more id old new → AreKept old arrays.now →
        IfSome result (λ left. AreKept new left.items) }
{
    let mut left = Vec::new(alloc);
    for array in arrays {
        let holds = holds_of(array, id, more)?;
        if holds > 0 {
            put(&mut left, Array { holds, ..*array })?;
        }
    }
    Some(left)
}
