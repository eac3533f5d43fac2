//! Reads a script in parts, and runs each statement as soon as it is whole.
ghost use Rattle.std.specs.Prelude.{◌≡◌, ℕ, ◌+◌, ◌<◌, ◌^◌, nat_lt, false, List, Some, IfOk, OnOk, OnErr, IfErr};
ghost use Rattle.std.specs.Io.KnownBytes.{IsAtEnd};
ghost use Rattle.pdl_io.specs.Told.{KeepsTelling};
ghost use Rattle.pdl_lex.specs.Limits.{script_limit};
ghost use Rattle.pdl_watch.specs.Slots.{slots_by};
ghost use Rattle.pdl_session.specs.Watching.{AreServed};
ghost use Rattle.pdl_shell.specs.Outside.{outlets, outside};
ghost use Rattle.pdl_shell.specs.Answers.{IsShort, TakesAtMost, ending_on, status_of_stop};
ghost use Rattle.pdl_shell.specs.Course.{IsFresh, Comes};
ghost use Rattle.pdl_shell.specs.Stops.{HasCauses};
ghost use Rattle.pdl_shell.specs.Taken.{Reads, terms_for};

use crate::laws::course_laws;
use crate::limits::MOST_READ;
use crate::runner::Runner;
use crate::stop::Stop;
use pdl_buf::Steps;
use pdl_io::{Sink, Source};
use pdl_lex::SCRIPT_LIMIT;
use pdl_machine::{run_laws, so_far_laws};
use pdl_watch::Watcher;
use std::sync::ledger::Ledger;

// Takes the source's bytes in parts, and runs each statement when its last byte is
// there: to the end of the source, or until the run is ended, or up to and with the byte past
// the limit of a script. Answers whether that one came.
pub(crate) fn read_parts<S: Source, K: Sink, W: Watcher, L: Ledger, M: Ledger>(
    runner: &mut Runner,
    source: &mut S,
    sink: &mut K,
    watchers: &mut Vec<Option<W>>,
    steps: &mut Steps<L>,
    runs: &mut Steps<M>,
) -> Result<bool, Stop>
    requires fresh { IsFresh runner.old }
    requires ready { (runner.old.cutter.failed ≡ false) × (runner.old.cutter.taken ≡ 0) }
    requires served { AreServed runner.old.session.state.watches
        (slots_by W.seen watchers.old.items) }
    ensures comes { IfOk result (λ is_cut. (count : ℕ) × Comes runner.old (S.left source.old)
        (outlets K.taken K.is_flushed K.faults sink.old (slots_by W.seen watchers.old.items))
        count runner.new (S.left source.new)
        (outlets K.taken K.is_flushed K.faults sink.new (slots_by W.seen watchers.new.items))
        × (is_cut ≡ nat_lt script_limit count)) }
    ensures end { IfOk result (λ is_cut. is_cut ≡ false → runner.new.ended ≡ false →
        IsAtEnd (S.left source.new)) }
    ensures stops { (script : List ℕ) → S.left source.old ≡ Some script →
        let slots = slots_by W.seen watchers.old.items in
        let whole = ending_on (terms_for runner.old.keep_going slots runner.new.refused) script in
        OnErr result (IsShort whole
        (outlets K.taken K.is_flushed K.faults sink.old slots)
        (outlets K.taken K.is_flushed K.faults sink.new (slots_by W.seen watchers.new.items))) }
    ensures reads { IfErr result (λ stop. Reads runner.old.keep_going runner.new.refused
        (status_of_stop stop)
        (outside S.left S.faults source.old
        (outlets K.taken K.is_flushed K.faults sink.old (slots_by W.seen watchers.old.items)))
        (outside S.left S.faults source.new
        (outlets K.taken K.is_flushed K.faults sink.new (slots_by W.seen watchers.new.items)))) }
    ensures at_most { TakesAtMost (script_limit + 1) (S.left source.old) (S.left source.new) }
    ensures works { OnOk result (runner.new.cutter.failed ≡ false) }
    ensures counted { OnOk result (runner.new.count < 2 ^ 63) }
    ensures served { OnOk result (AreServed runner.new.session.state.watches
        (slots_by W.seen watchers.new.items)) }
    ensures tells { KeepsTelling (K.is_flushed sink.old) (K.is_flushed sink.new) }
    ensures causes { HasCauses
        (outside S.left S.faults source.old
        (outlets K.taken K.is_flushed K.faults sink.old (slots_by W.seen watchers.old.items)))
        (outside S.left S.faults source.new
        (outlets K.taken K.is_flushed K.faults sink.new (slots_by W.seen watchers.new.items)))
        result }
{
    course_laws();
    run_laws();
    so_far_laws();
    let mut part = [0u8; MOST_READ];
    let mut taken = 0;
    'reading: while !runner.is_ended() && taken <= SCRIPT_LIMIT {
        let most = (SCRIPT_LIMIT + 1 - taken).min(MOST_READ);
        let count = match source.read(&mut part[..most]) {
            Ok(count) => count,
            Err(_) => return Err(Stop::Source),
        };
        if count == 0 {
            return Ok(false);
        }
        let within = count.min(SCRIPT_LIMIT - taken);
        runner.take(&part[..within], sink, watchers, steps, runs)?;
        taken += count;
    }
    Ok(taken > SCRIPT_LIMIT)
}
