//! What watchers hear of a statement.
use pdl_watch::Notice;

/// What watchers hear of a statement that has run.
#[derive(Drop)]
pub enum News {
    /// The notices of each slot.
    Notices(Vec<Vec<Notice>>),
    /// The watcher of this slot is finished and dropped.
    End(usize),
    Nothing,
}
