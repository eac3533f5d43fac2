//! Where an array comes from.
ghost use Rattle.std.specs.Prelude.{◌≡◌, ℕ, List, is_some, true};
ghost use Rattle.pdl_nodes.specs.Joined.{LaidOver, dims_from, over_from};
ghost use Rattle.pdl_nodes.specs.Renewed.{with_layout};
ghost use Rattle.pdl_nodes.specs.Row.{parent_from};
ghost use Rattle.pdl_nodes.specs.Still.{base_over, triple_over};
ghost use Rattle.pdl_nodes.specs.Sized.{HasDims};

use crate::apart::Apart;
use pdl_affine::{AffinePlan, compose, plan_dims};
use pdl_choice::Choice;
use pdl_shape::{Dims, Triple, whole_triple};
use pdl_world::Trans;
use std::alloc::Global;

/// How a view's positions lie in its parent: by a plan over the parent's dimensions, or by a list
/// of places.
#[derive(Drop)]
pub enum Layout {
    Plan(AffinePlan),
    Choice(Choice),
}

impl Layout {
    /// The dimensions of the view.
    pub fn dims(&self) -> &Dims
        ensures { HasDims self.now result.now }
    {
        match self {
            Layout::Plan(plan) => plan_dims(plan),
            Layout::Choice(choice) => &choice.dims,
        }
    }
}

/// A root, or a view of an older array. What a view is made by stands apart, so that a node, which
/// is moved when an array is made and when it goes, has no room for it.
#[derive(Drop)]
pub enum Origin {
    Root,
    View {
        parent: u64,
        trans: Apart<Trans>,
        layout: Apart<Layout>,
    },
}

impl Origin {
    /// The number of the parent, or nothing for a root.
    pub fn parent(&self) -> Option<u64>
        ensures { result ≡ parent_from self.now }
    {
        match self {
            Origin::Root => None,
            Origin::View { parent, .. } => Some(*parent),
        }
    }

    /// Takes another layout, if it is a view and one is given.
    pub(crate) fn lay(&mut self, new: Option<Apart<Layout>>)
        ensures { self.new ≡ with_layout self.old new }
    {
        if let (Origin::View { layout, .. }, Some(new)) = (self, new) {
            *layout = new;
        }
    }

    /// The triple that shows a view over the base that this one shows its parent over. None for a
    /// root, and for a view that can't be shown so.
    fn over(&self, alloc: Global, above: &Triple) -> Option<Triple>
        requires laid { LaidOver self.now above.now.dims }
        ensures { result ≡ over_from self.now above.now }
    {
        match self {
            Origin::View { layout, .. } => match layout.get() {
                Layout::Plan(plan) => compose(alloc, plan, above),
                Layout::Choice(_) => None,
            },
            Origin::Root => None,
        }
    }

    /// The base of a view, and the triple that shows it over this: those of its parent, which this
    /// triple shows over this base, where it can be shown so, and else its own.
    pub(crate) fn shown(&self, alloc: Global, id: u64, base: u64, above: &Triple) -> (u64, Triple)
        requires view { is_some (parent_from self.now) ≡ true }
        requires laid { LaidOver self.now above.now.dims }
        ensures base { result.0 ≡ base_over id base (over_from self.now above.now) }
        ensures triple { result.1
            ≡ triple_over (dims_from self.now above.now.dims) (over_from self.now above.now) }
    {
        match self.over(alloc, above) {
            Some(triple) => (base, triple),
            None => (id, whole_triple(alloc, self.dims())),
        }
    }

    /// The dimensions of a view, which is laid over a parent of these.
    fn dims(&self) -> &Dims
        requires view { is_some (parent_from self.now) ≡ true }
        ensures { (ds : List ℕ) → LaidOver self.now ds → result.now ≡ dims_from self.now ds }
    {
        match self {
            Origin::View { layout, .. } => layout.get().dims(),
            Origin::Root => unreachable!(),
        }
    }
}
