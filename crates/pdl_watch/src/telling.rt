//! Slots of watchers that are told or finished one after another.
ghost use Rattle.std.specs.Prelude.{◌≡◌, ◌↔◌, ◌<◌, ◌≤◌, length, slice_set, Some, None, [], ◌∷◌, true, false, OnOk, OnErr, IsSome, IsTrue, option_map, map, is_some};
ghost use Rattle.pdl_watch.specs.Watched.{Watched, told_more, ended, Leaves};
ghost use Rattle.pdl_watch.specs.Slots.{StopsAt, StopsInTurn, SlotMissed, IsOpen, AreOpen, slots_by, all_told, all_ended, ended_where, lists_of, ToldShort, EndedShort, EndsShort, slot};

use crate::notice::Notice;
use crate::watcher::Watcher;
use pdl_io::Failed;

// Tells notices in order, until a call fails.
fn tell_each<W: Watcher>(w: &mut W, notices: &[Notice]) -> Result<(), Failed>
    requires { (W.seen w.old).finished ≡ false }
    ensures ok { OnOk result (W.seen w.new ≡ told_more notices.now (W.seen w.old)) }
    ensures stops { OnErr result
        (StopsAt notices.now (Some (W.seen w.old)) (Some (W.seen w.new))) }
{
    'telling: for notice in notices {
        w.tell(notice)?;
    }
    Ok(())
}

// Tells the watcher of a slot, if it has one.
fn tell_slot<W: Watcher>(slot: &mut Option<W>, notices: &[Notice]) -> Result<(), Failed>
    requires { IsOpen (option_map W.seen slot.old) }
    ensures ok { OnOk result (option_map W.seen slot.new
        ≡ option_map (told_more notices.now) (option_map W.seen slot.old)) }
    ensures stops { OnErr result
        (StopsAt notices.now (option_map W.seen slot.old) (option_map W.seen slot.new)) }
{
    match slot {
        Some(w) => tell_each(w, notices),
        None => Ok(()),
    }
}

/// Tells the watcher of each slot the notices of that slot, slot after slot, until a call fails.
pub fn tell_all<W: Watcher>(slots: &mut Vec<Option<W>>, all: &[Vec<Notice>]) -> Result<(), Failed>
    requires { AreOpen (slots_by W.seen slots.old.items) }
    ensures ok { OnOk result (slots_by W.seen slots.new.items
        ≡ all_told (slots_by W.seen slots.old.items) (lists_of all.now)) }
    ensures turn { OnErr result (StopsInTurn (slots_by W.seen slots.old.items) (lists_of all.now)
        (slots_by W.seen slots.new.items)) }
    ensures short { OnErr result (ToldShort (slots_by W.seen slots.old.items) (lists_of all.now)
        (slots_by W.seen slots.new.items)) }
{
    let count = slots.len().min(all.len());
    'telling: for k in 0..count {
        tell_slot(&mut slots[k], &all[k])?;
    }
    Ok(())
}

// Finishes the watcher of a slot, if it has one.
fn finish_slot<W: Watcher>(slot: &mut Option<W>) -> Result<(), Failed>
    requires { IsOpen (option_map W.seen slot.old) }
    ensures ok { OnOk result (option_map W.seen slot.new
        ≡ option_map ended (option_map W.seen slot.old)) }
    ensures missed { OnErr result
        (SlotMissed (option_map W.seen slot.old) (option_map W.seen slot.new)) }
{
    match slot {
        Some(w) => w.finish(),
        None => Ok(()),
    }
}

// Finishes the watcher of a slot, if the slot is attached.
fn finish_where<W: Watcher>(slot: &mut Option<W>, watch: Option<u64>) -> Result<(), Failed>
    requires { IsOpen (option_map W.seen slot.old) }
    ensures ok { OnOk result (option_map W.seen slot.new
        ≡ option_map (ended_where watch) (option_map W.seen slot.old)) }
    ensures attached { OnErr result (IsSome watch) }
    ensures missed { OnErr result
        (SlotMissed (option_map W.seen slot.old) (option_map W.seen slot.new)) }
{
    match watch {
        Some(_) => finish_slot(slot),
        None => Ok(()),
    }
}

/// Finishes the watcher of each attached slot, in order, until a call fails.
pub fn finish_all<W: Watcher>(
    slots: &mut Vec<Option<W>>,
    watches: &[Option<u64>],
) -> Result<(), Failed>
    requires { AreOpen (slots_by W.seen slots.old.items) }
    ensures ok { OnOk result (slots_by W.seen slots.new.items
        ≡ all_ended (slots_by W.seen slots.old.items) watches.now) }
    ensures short { OnErr result (EndedShort (slots_by W.seen slots.old.items) watches.now
        (slots_by W.seen slots.new.items)) }
{
    let count = slots.len().min(watches.len());
    'finishing: for k in 0..count {
        let watch = watches[k];
        finish_where(&mut slots[k], watch)?;
    }
    Ok(())
}

/// Finishes the watcher of a slot, and then drops it. After a failure the slot keeps it.
pub fn end_slot<W: Watcher>(slots: &mut Vec<Option<W>>, k: usize) -> Result<(), Failed>
    requires there { k < length slots.old.items }
    requires open { AreOpen (slots_by W.seen slots.old.items) }
    ensures ok { OnOk result (slots_by W.seen slots.new.items
        ≡ slice_set (slots_by W.seen slots.old.items) k None) }
    ensures short { OnErr result (EndsShort (slots_by W.seen slots.old.items) k
        (slots_by W.seen slots.new.items)) }
{
    finish_slot(&mut slots[k])?;
    slots[k] = None;
    Ok(())
}

// Whether the watcher of a slot, if it has one, isn't finished.
fn is_open<W: Watcher>(slot: &Option<W>) -> bool
    ensures { IsTrue result ↔ IsOpen (option_map W.seen slot.now) }
{
    match slot {
        Some(w) => !w.is_finished(),
        None => true,
    }
}

// Whether none of these watchers is finished.
fn all_open<W: Watcher>(slots: &[Option<W>]) -> bool
    ensures { IsTrue result ↔ AreOpen (slots_by W.seen slots.now) }
{
    for slot in slots {
        if !is_open(slot) {
            return false;
        }
    }
    true
}

/// Whether no watcher is finished.
pub fn are_open<W: Watcher>(slots: &Vec<Option<W>>) -> bool
    ensures { IsTrue result ↔ AreOpen (slots_by W.seen slots.now.items) }
{
    all_open(slots)
}
