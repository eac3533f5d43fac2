//! Laws of what kernel code means. Each is the contract of a function with an empty body.
ghost use Rattle.std.specs.Prelude.{◌≡◌, ℕ, Vec};
ghost use Rattle.std.specs.Global.{Global};
ghost use Rattle.pdl_code.specs.declared.tree.Expr.{Access};
ghost use Rattle.pdl_code.specs.declared.tree.Stmt.{If, Loop};
ghost use Rattle.pdl_code.specs.Tree.{access, choose, repeat};
ghost use Rattle.pdl_code.specs.TreeOf.{KernelEntry, KernelExpr, KernelStmt, code_of, indices_of, step_of, tree_of};
ghost use Rattle.pdl_code.specs.Spelled.{TextsHaveOneMeaning, TextsHaveOneReading};

/// A text's meaning is exactly the code that it spells by the grammar, or the first of its
/// refusals.
pub fn code_meaning()
    ensures { TextsHaveOneMeaning }
{}

/// A text spells code in one way at most.
pub fn one_reading()
    ensures { TextsHaveOneReading }
{}

/// The tree of an access has its indices in their order, and the tree of a statement the code that
/// it holds.
pub fn rows_are_trees()
    ensures access { (argument : ℕ) (given : Vec KernelEntry Global) →
        tree_of (Access argument given) ≡ access argument (indices_of given.items) }
    ensures repeat { (dimension : ℕ) (body : Vec KernelStmt Global) →
        step_of (Loop dimension body) ≡ repeat dimension (code_of body.items) }
    ensures choose { (e : KernelExpr) (whole other : Vec KernelStmt Global) →
        step_of (If e whole other)
        ≡ choose (tree_of e) (code_of whole.items) (code_of other.items) }
{}
