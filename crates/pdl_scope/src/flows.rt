//! The flows that a scope keeps: roots that equal their formulas (PDL::Dataflow).
ghost use Rattle.std.specs.Prelude.{◌≡◌};
ghost use Rattle.pdl_flow.specs.Formula.{arrays_in, tree_of};

use pdl_engine::ArrayId;
use pdl_flow::Formula;
use std::marker::Model;

/// A root that always equals a formula of older arrays, with the arrays that the formula reads, in
/// the order of its text. It is seen as its root and its formula.
#[derive(Drop)]
pub struct KeptFlow {
    root: ArrayId,
    formula: Formula,
    reads: Vec<ArrayId>,
}

impl Model for KeptFlow {
    ghost use Rattle.std.specs.Coded.{codes};
    ghost use Rattle.std.specs.Prelude.{◌≡◌};
    ghost use Rattle.pdl_flow.specs.Formula.{arrays_in, tree_of};
    ghost use Rattle.pdl_machine.specs.Flows.{Flow};
    ghost use Rattle.pdl_flow.specs.Coding.{coded_formula};

    ghost Value = { Flow };

    ghost coded = { Prim.hlevel (codes, coded_formula) };

    ghost view = { λ f. record { root = f.root; formula = tree_of f.formula } };

    ghost invariant = { λ f. f.reads.items ≡ arrays_in (tree_of f.formula) };
}

impl KeptFlow {
    /// The flow of a root that equals a formula, which reads these arrays.
    pub(crate) fn new(root: ArrayId, formula: Formula, reads: Vec<ArrayId>) -> KeptFlow
        requires { reads.items ≡ arrays_in (tree_of formula) }
        ensures { result ≡ record { root = root; formula = tree_of formula } }
    {
        KeptFlow {
            root,
            formula,
            reads,
        }
    }

    /// The array that has the elements of the formula.
    pub(crate) fn root(&self) -> ArrayId
        ensures { result ≡ self.now.root }
    {
        self.root
    }

    /// What its root equals.
    pub(crate) fn formula(&self) -> &Formula
        ensures { tree_of result.now ≡ self.now.formula }
    {
        &self.formula
    }

    /// The arrays that its formula reads, in the order of its text.
    pub(crate) fn reads(&self) -> &[ArrayId]
        ensures { result.now ≡ arrays_in self.now.formula }
    {
        &self.reads
    }
}
