//! A watcher that writes a line for each notice.
ghost use Rattle.std.specs.Prelude.{◌≡◌, ◌≤◌, [], ◌∷◌, false, true, None, Some, min, ◌+◌, IfOk, OnOk, OnErr, vec_capacity};
ghost use Rattle.std.specs.Io.KnownBytes.{Appends, Keeps};
ghost use Rattle.pdl_io.specs.Counts.{HasCause, next_count};
ghost use Rattle.pdl_io.specs.Told.{AppendsPrefix, Says};
ghost use Rattle.pdl_watch.specs.NoticeLine.{line_room, notice_line};

use crate::line::{LINE_ROOM, make_line};
use crate::notice::Notice;
use crate::watcher::Watcher;
use pdl_io::{Failed, Sink, count_one, write_all};
use std::alloc::{AllocError, Global};

/// A watcher that writes one line for each notice to its sink. It doesn't tell its notices.
#[derive(Drop)]
pub struct LineWatcher<K> {
    slot: u64,
    sink: K,
    line: Vec<u8>,
    told: u64,
    newest: Option<Notice>,
    finished: bool,
    ghost room: { line_room ≤ vec_capacity line },
}

impl<K: Sink + Drop> LineWatcher<K> {
    ghost use Rattle.pdl_watch.specs.Lines.{sink_of, slot_of, is_ended, told_count, newest_of};

    /// A watcher of this slot, which was told nothing. It takes its memory here.
    pub fn new(alloc: Global, slot: u64, sink: K) -> Result<LineWatcher<K>, AllocError>
        ensures sink { IfOk result (λ w. sink_of w ≡ sink) }
        ensures slot { IfOk result (λ w. slot_of w ≡ slot) }
        ensures open { IfOk result (λ w. is_ended w ≡ false) }
        ensures untold { IfOk result (λ w. told_count w ≡ 0) }
        ensures nothing { IfOk result (λ w. newest_of w ≡ None) }
    {
        let line = Vec::with_capacity(alloc, LINE_ROOM)?;
        Ok(LineWatcher {
            slot,
            sink,
            line,
            told: 0,
            newest: None,
            finished: false,
        })
    }

    /// The sink that takes the lines.
    pub fn sink(&self) -> &K
        ensures { result.now ≡ sink_of self.now }
    {
        &self.sink
    }

    /// Writes the line of a notice. After a failure a prefix of it was taken.
    pub fn line(&mut self, notice: &Notice) -> Result<(), Failed>
        ensures whole { OnOk result (Appends (K.taken (sink_of self.old)) (K.taken (sink_of self.new))
            (notice_line (slot_of self.old) notice.now)) }
        ensures prefix { OnErr result (AppendsPrefix (K.taken (sink_of self.old))
            (K.taken (sink_of self.new)) (notice_line (slot_of self.old) notice.now)) }
        ensures cause { HasCause (K.faults (sink_of self.old)) (K.faults (sink_of self.new)) result }
        ensures slot { slot_of self.new ≡ slot_of self.old }
        ensures ended { is_ended self.new ≡ is_ended self.old }
        ensures told { told_count self.new ≡ told_count self.old }
        ensures newest { newest_of self.new ≡ newest_of self.old }
    {
        make_line(&mut self.line, self.slot, notice);
        write_all(&mut self.sink, &self.line)
    }
}

impl<K: Sink + Drop> Watcher for LineWatcher<K> {
    ghost use Rattle.pdl_watch.specs.Watched.{Leaves, told_more, ended};
    ghost use Rattle.pdl_watch.specs.Lines.{sink_of, slot_of, is_ended, told_count, newest_of, watched};

    ghost seen = { watched K.faults };

    fn tell(&mut self, notice: &Notice) -> Result<(), Failed>
        requires { is_ended self.old ≡ false }
        ensures leaves { Leaves (told_more (notice.now ∷ []) (watched K.faults self.old))
            (watched K.faults self.old) (watched K.faults self.new) result }
        ensures counted { OnOk result (told_count self.new ≡ next_count (told_count self.old)) }
        ensures newest { OnOk result (newest_of self.new ≡ Some notice.now) }
        ensures uncounted { OnErr result (told_count self.new ≡ told_count self.old) }
        ensures same { OnErr result (newest_of self.new ≡ newest_of self.old) }
        ensures slot { slot_of self.new ≡ slot_of self.old }
        ensures whole { OnOk result (Appends (K.taken (sink_of self.old)) (K.taken (sink_of self.new))
            (notice_line (slot_of self.old) notice.now)) }
        ensures prefix { OnErr result (AppendsPrefix (K.taken (sink_of self.old))
            (K.taken (sink_of self.new)) (notice_line (slot_of self.old) notice.now)) }
    {
        self.line(notice)?;
        count_one(&mut self.told);
        self.newest = Some(*notice);
        Ok(())
    }

    fn finish(&mut self) -> Result<(), Failed>
        requires { is_ended self.old ≡ false }
        ensures leaves { Leaves (ended (watched K.faults self.old)) (watched K.faults self.old)
            (watched K.faults self.new) result }
        ensures bytes { Keeps (K.taken (sink_of self.old)) (K.taken (sink_of self.new)) }
        ensures flushed { OnOk result (Says (K.is_flushed (sink_of self.new)) true) }
        ensures slot { slot_of self.new ≡ slot_of self.old }
        ensures told { told_count self.new ≡ told_count self.old }
        ensures newest { newest_of self.new ≡ newest_of self.old }
    {
        self.sink.flush()?;
        self.finished = true;
        Ok(())
    }

    fn count(&self) -> u64
        ensures { result ≡ told_count self.now }
    {
        self.told
    }

    fn last(&self) -> Option<Notice>
        ensures { result ≡ newest_of self.now }
    {
        self.newest
    }

    fn is_finished(&self) -> bool {
        self.finished
    }
}
