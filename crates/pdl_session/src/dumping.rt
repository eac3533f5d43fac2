//! The statement that prints a script for the session's kernels, arrays and names.
ghost use Rattle.std.specs.Prelude.{◌≡◌, ◌≤◌, ◌+◌, ◌++◌, [], true, sum_by, OnErr, OnOk};
ghost use Rattle.pdl_syntax.specs.StatementTree.{dump as dump'};
ghost use Rattle.pdl_machine.specs.Step.{effect};
ghost use Rattle.pdl_scope.specs.Dumping.{dump_steps, is_refused_unread};
ghost use Rattle.pdl_scope.specs.Scope.{engine_of, machine};
ghost use Rattle.pdl_session.specs.Performed.{Performs};

use pdl_buf::Steps;
use pdl_scope::{Scope, ScopeFault};
use std::alloc::AllocError;
use std::sync::ledger::Ledger;

/// Adds a text to what was printed. Where nothing was, the text is moved there and not copied.
fn print_whole(out: &mut Vec<u8>, text: Vec<u8>) -> Result<(), AllocError>
    ensures ok { OnOk result (out.new.items ≡ out.old.items ++ text.items) }
    ensures err { OnErr result (out.new.items ≡ out.old.items) }
{
    if out.is_empty() {
        *out = text;
        return Ok(());
    }
    out.extend_from_slice(&text)
}

/// Prints the dump. It is made whole before a byte of it is printed. Each root is read once;
/// nothing is, where a slot is attached, there is a flow or names would be too many.
#[tactic(auto, using(crate::proofs::DumpingLemmas::dump_performed, crate::proofs::DumpingLemmas::dump_refused))]
pub fn dump<L: Ledger>(
    scope: &mut Scope,
    out: &mut Vec<u8>,
    steps: &mut Steps<L>,
) -> Result<(), ScopeFault>
    ensures performs { let wanted = effect [] (machine scope.old) dump' in
        Performs wanted scope.old scope.new out.old.items out.new.items result }
    ensures counted { let e = engine_of scope.old in
        steps.new ≤ steps.old + sum_by (dump_steps e) e.world }
    ensures unmoved { is_refused_unread (machine scope.old) ≡ true
        → (scope.new ≡ scope.old) × (steps.new ≡ steps.old) }
{
    let text = scope.dump(steps)?;
    Ok(print_whole(out, text)?)
}
