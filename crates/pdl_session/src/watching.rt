//! Watchers: attached and detached by statements, and told what has run.
ghost use Rattle.std.specs.Prelude.{◌≡◌, ◌&&◌, ◌≤◌, [], length, is_some, is_none, OnOk, OnErr};
ghost use Rattle.pdl_syntax.specs.StatementTree.{watch as watch'};
ghost use Rattle.pdl_watch.specs.Slots.{slots_by, present_in, all_ended, AreOpen, EndedShort};
ghost use Rattle.pdl_machine.specs.Step.{effect, unwatching};
ghost use Rattle.pdl_machine.specs.Watches.{watch_of, is_present};
ghost use Rattle.pdl_scope.specs.Answers.{Runs};
ghost use Rattle.pdl_scope.specs.Scope.{machine, slots_limit};
ghost use Rattle.pdl_session.specs.News.{heard, IsHeardShort, IsInside};

use crate::fault::WatcherFailed;
use crate::news::News;
use pdl_elem::Name;
use pdl_engine::ArrayId;
use pdl_io::Failed;
use pdl_machine::Fault;
use pdl_scope::{Scope, ScopeFault};
use pdl_watch::{Watcher, end_slot, finish_all, tell_all};

/// Attaches the watcher of a slot to the array of a name, with `UnknownName` where the name isn't
/// bound, and then `BadWatcher` where the slot has no watcher or is attached.
pub fn watch<W: Watcher>(
    scope: &mut Scope,
    name: &Name,
    slot: u64,
    watchers: &Vec<Option<W>>,
) -> Result<(), ScopeFault>
    requires { length watchers.now.items ≤ slots_limit }
    ensures { let present = present_in (slots_by W.seen watchers.now.items) in
        let wanted = effect present (machine scope.old) (watch' name.now slot) in
        Runs wanted scope.old scope.new [] [] result }
{
    match scope.number_of(name) {
        Some(id) => {
            if can_attach(watchers, scope.watches(), slot) {
                scope.watch(id, slot as usize)
            } else {
                Err(ScopeFault::Script(Fault::BadWatcher))
            }
        }
        None => Err(ScopeFault::Script(Fault::UnknownName)),
    }
}

/// Whether the watcher of a slot can be attached: there is one, and it isn't attached.
fn can_attach<W: Watcher>(watchers: &Vec<Option<W>>, watches: &[Option<ArrayId>], slot: u64) -> bool
    ensures { let present = present_in (slots_by W.seen watchers.now.items) in
        result ≡ (is_present present slot && is_none (watch_of watches.now slot)) }
{
    has_watcher(watchers, slot) && !is_attached(watches, slot)
}

/// Whether a slot has a watcher. One that `unwatch` emptied has none, nor has one past the last.
fn has_watcher<W: Watcher>(watchers: &Vec<Option<W>>, slot: u64) -> bool
    ensures { result ≡ is_present (present_in (slots_by W.seen watchers.now.items)) slot }
{
    let at = slot as usize;
    at < watchers.len() && watchers[at].is_some()
}

/// Whether a slot is attached to an array. One past the last isn't.
fn is_attached(watches: &[Option<ArrayId>], slot: u64) -> bool
    ensures { result ≡ is_some (watch_of watches.now slot) }
{
    let at = slot as usize;
    at < watches.len() && watches[at].is_some()
}

/// Detaches the watcher of a slot, with `BadWatcher` where the slot isn't attached.
pub fn unwatch(scope: &mut Scope, slot: u64) -> Result<(), ScopeFault>
    ensures { Runs (unwatching (machine scope.old) slot) scope.old scope.new [] [] result }
{
    if is_attached(scope.watches(), slot) {
        scope.unwatch(slot as usize)
    } else {
        Err(ScopeFault::Script(Fault::BadWatcher))
    }
}

/// Lets watchers hear of a statement, slot after slot, until a call of one fails.
pub fn hear<W: Watcher>(watchers: &mut Vec<Option<W>>, news: &News) -> Result<(), Failed>
    requires open { AreOpen (slots_by W.seen watchers.old.items) }
    requires inside { IsInside news.now (length watchers.old.items) }
    ensures ok { OnOk result (slots_by W.seen watchers.new.items
        ≡ heard (slots_by W.seen watchers.old.items) news.now) }
    ensures short { OnErr result (IsHeardShort (slots_by W.seen watchers.old.items) news.now
        (slots_by W.seen watchers.new.items)) }
{
    match news {
        News::Notices(all) => tell_all(watchers, all),
        News::End(slot) => end_slot(watchers, *slot),
        News::Nothing => Ok(()),
    }
}

/// Finishes the watchers of the attached slots, slot after slot, until one fails.
pub fn finish<W: Watcher>(
    watchers: &mut Vec<Option<W>>,
    watches: &[Option<ArrayId>],
) -> Result<(), WatcherFailed>
    requires { AreOpen (slots_by W.seen watchers.old.items) }
    ensures ok { OnOk result (slots_by W.seen watchers.new.items
        ≡ all_ended (slots_by W.seen watchers.old.items) watches.now) }
    ensures short { OnErr result (EndedShort (slots_by W.seen watchers.old.items) watches.now
        (slots_by W.seen watchers.new.items)) }
{
    match finish_all(watchers, watches) {
        Ok(()) => Ok(()),
        Err(_) => Err(WatcherFailed),
    }
}
