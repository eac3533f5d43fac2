//! Who is told of changes: the trait `Watcher`, one that keeps its notices in memory, one that writes
//! a line for each, what changed between two lists of elements, and slots of watchers that are told and
//! finished in order.
#![tactic(auto)]

mod comparing;
mod laws;
mod line;
mod line_watcher;
mod notice;
mod recorder;
mod telling;
mod watcher;

pub use comparing::{change_laws, changes};
pub use laws::{limits_law, slot_laws, telling_laws};
pub use line::LINE_ROOM;
pub use line_watcher::LineWatcher;
pub use notice::Notice;
pub use recorder::Recorder;
pub use std::alloc::AllocError as NoMemory;
pub use telling::{are_open, end_slot, finish_all, tell_all};
pub use watcher::Watcher;
