//! Each call once: what changed, watchers in memory and over a sink, and slots of boxes.
use crate::comparing::{same, same_list};
use pdl_io::{Failed, MemSink};
use pdl_watch::*;
use std::alloc::Global;
use std::process::Abort;

// Element 2 went from 2 to 5 in the third statement.
fn change() -> Notice {
    Notice {
        statement: 3,
        position: 2,
        before: 2,
        after: 5,
    }
}

#[test]
fn what_changed_is_listed_by_rising_position(rt: HostRuntime) {
    let rt = &rt;
    let found = changes(rt.alloc(), 3, &[0, 1, 2, 3], &[0, 1, 5, -1]).expect(rt, "memory");
    let last = Notice {
        statement: 3,
        position: 3,
        before: 3,
        after: -1,
    };
    same_list(rt, &found, &[change(), last]);
}

#[test]
fn a_recorder_keeps_what_it_is_told(rt: HostRuntime) {
    let rt = &rt;
    let failing = Vec::from_slice(rt.alloc(), &[1]).expect(rt, "memory");
    let mut recorder = Recorder::with_room(rt.alloc(), 1, failing).expect(rt, "memory");
    same(rt, recorder.tell(&change()), Ok(()));
    // the list
    same(rt, recorder.finish(), Err(Failed));
    // no room
    same(rt, recorder.tell(&change()), Err(Failed));
    same(rt, recorder.finish(), Ok(()));
    same_list(rt, recorder.notices(), &[change()]);
    same(rt, recorder.count(), 1);
    same(rt, recorder.last(), Some(change()));
    same(rt, recorder.is_finished(), true);
}

#[test]
fn a_notice_is_written_as_a_line(rt: HostRuntime) {
    let rt = &rt;
    let sink = MemSink::with_room(rt.alloc(), 100, 5, Vec::new(rt.alloc())).expect(rt, "memory");
    let mut watcher = LineWatcher::new(rt.alloc(), 0, sink).expect(rt, "memory");
    same(rt, watcher.tell(&change()), Ok(()));
    same(rt, watcher.finish(), Ok(()));
    let line = b"watch 0: statement 3 position 2: 2 -> 5\n";
    same_list(rt, watcher.sink().bytes(), line);
    same(rt, watcher.count(), 1);
    same(rt, watcher.last(), Some(change()));
    same(rt, watcher.is_finished(), true);
}

// How a line watcher over a sink with this failing call is told and finished: the line of 40 bytes
// takes the calls 0 to 7, and the flush is one more.
fn tells_and_finishes(rt: &impl Abort, alloc: Global, failing: u64, answer: Result<(), Failed>) {
    let failing = Vec::from_slice(alloc, &[failing]).expect(rt, "memory");
    let sink = MemSink::with_room(alloc, 100, 5, failing).expect(rt, "memory");
    let mut watcher = LineWatcher::new(alloc, 0, sink).expect(rt, "memory");
    same(rt, watcher.tell(&change()), Ok(()));
    assert!(rt; !watcher.is_finished());
    same(rt, watcher.finish(), answer);
}

#[test]
fn telling_is_one_line_and_finishing_one_flush(rt: HostRuntime) {
    let rt = &rt;
    tells_and_finishes(rt, rt.alloc(), 8, Err(Failed));
    tells_and_finishes(rt, rt.alloc(), 9, Ok(()));
}

// A list of one change for slot 0.
fn for_slot_0(rt: &impl Abort, alloc: Global) -> Vec<Vec<Notice>> {
    let mut notices = Vec::new(alloc);
    notices.push(change()).expect(rt, "memory");
    let mut all = Vec::new(alloc);
    all.push(notices).expect(rt, "memory");
    all
}

// How many notices the watcher of slot 0 was told.
fn count_of(slots: &[Option<Box<dyn Watcher>>]) -> u64 {
    match slots.first() {
        Some(Some(watcher)) => watcher.count(),
        _ => 0,
    }
}

#[test]
fn a_boxed_watcher_is_told_and_dropped(rt: HostRuntime) {
    let rt = &rt;
    let alloc = rt.alloc();
    let mut slots: Vec<Option<Box<dyn Watcher>>> = Vec::new(alloc);
    let recorder = Recorder::with_room(alloc, 8, Vec::new(alloc)).expect(rt, "memory");
    let boxed = Box::new(alloc, recorder).expect(rt, "memory");
    slots.push(Some(boxed)).expect(rt, "memory");
    assert!(rt; are_open(&slots));
    let all = for_slot_0(rt, alloc);
    same(rt, tell_all(&mut slots, &all), Ok(()));
    same(rt, count_of(&slots), 1);
    assert!(rt; are_open(&slots));
    // a slot that isn't attached is left alone
    same(rt, finish_all(&mut slots, &[None]), Ok(()));
    assert!(rt; are_open(&slots));
    same(rt, end_slot(&mut slots, 0), Ok(()));
    assert!(rt; slots[0].is_none());
}

#[test]
fn a_slot_keeps_a_watcher_that_fails_to_finish(rt: HostRuntime) {
    let rt = &rt;
    let alloc = rt.alloc();
    let mut slots: Vec<Option<Recorder>> = Vec::new(alloc);
    let failing = Vec::from_slice(alloc, &[0]).expect(rt, "memory");
    let recorder = Recorder::with_room(alloc, 8, failing).expect(rt, "memory");
    slots.push(Some(recorder)).expect(rt, "memory");
    assert!(rt; are_open(&slots));
    same(rt, end_slot(&mut slots, 0), Err(Failed));
    assert!(rt; slots[0].is_some());
}
