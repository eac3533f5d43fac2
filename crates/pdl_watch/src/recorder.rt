//! A watcher in memory.
ghost use Rattle.std.specs.Prelude.{◌≡◌, ◌-◌, ◌^◌, ◌<◌, [], ◌∷◌, false, true, min, length, slice_get, Contains, IfOk, OnOk, OnErr, IsErr, IsOk, ◌↔◌, IfSome, Some};
ghost use Rattle.pdl_watch.specs.Watched.{told_more, ended, Leaves};
ghost use Rattle.pdl_watch.specs.RecorderState.{seen_in, FailsToTell, after_tell, after_finish, after_miss};

use crate::notice::Notice;
use crate::watcher::Watcher;
use pdl_io::{Failed, count_one};
use std::alloc::{AllocError, Global};
use std::marker::Model;

/// A watcher that keeps what it is told in memory. Its calls of `tell` and `finish` are numbered
/// together from 0.
#[derive(Drop)]
pub struct Recorder {
    notices: Vec<Notice>,
    room: usize,
    failing: Vec<u64>,
    next_call: u64,
    misses: u64,
    finished: bool,
}

impl Model for Recorder {
    ghost use Rattle.std.specs.Prelude.{◌≤◌, length, vec_capacity};
    ghost use Rattle.pdl_watch.specs.RecorderState.{RecorderState};

    ghost Value = { RecorderState };

    ghost view = { λ a. record {
      notices = a.notices.items;
      room = a.room;
      failing = a.failing.items;
      next_call = a.next_call;
      misses = a.misses;
      finished = a.finished;
    } };

    ghost invariant = { λ a. (length a.notices.items ≤ a.room) × (a.room ≤ vec_capacity a.notices) };
}

impl Recorder {
    /// A watcher that was told nothing. It takes the memory for `room` notices here, and fails at
    /// the calls whose numbers are in `failing`.
    pub fn with_room(alloc: Global, room: usize, failing: Vec<u64>) -> Result<Recorder, AllocError>
        ensures { IfOk result (λ r. r ≡ record {
          notices = [];
          room = room;
          failing = failing.items;
          next_call = 0;
          misses = 0;
          finished = false;
        }) }
    {
        let notices = Vec::with_capacity(alloc, room)?;
        Ok(Recorder {
            notices,
            room,
            failing,
            next_call: 0,
            misses: 0,
            finished: false,
        })
    }

    /// The notices told so far.
    pub fn notices(&self) -> &[Notice]
        ensures { result.now ≡ self.now.notices }
    {
        &self.notices
    }
}

impl Watcher for Recorder {
    ghost seen = { seen_in };

    fn tell(&mut self, notice: &Notice) -> Result<(), Failed>
        requires { self.old.finished ≡ false }
        ensures leaves { Leaves (told_more (notice.now ∷ []) (seen_in self.old)) (seen_in self.old)
            (seen_in self.new) result }
        ensures held { OnOk result (self.new ≡ after_tell self.old notice.now) }
        ensures fails { IsErr result ↔ FailsToTell self.old }
        ensures failed { OnErr result (self.new ≡ after_miss self.old) }
    {
        let number = count_one(&mut self.next_call);
        if self.failing.contains(&number) || self.notices.len() >= self.room {
            count_one(&mut self.misses);
            return Err(Failed);
        }
        self.notices.push(*notice).unwrap();
        Ok(())
    }

    fn finish(&mut self) -> Result<(), Failed>
        requires { self.old.finished ≡ false }
        ensures leaves { Leaves (ended (seen_in self.old)) (seen_in self.old) (seen_in self.new) result }
        ensures held { OnOk result (self.new ≡ after_finish self.old) }
        ensures fails { IsErr result ↔ Contains self.old.failing self.old.next_call }
        ensures failed { OnErr result (self.new ≡ after_miss self.old) }
    {
        let number = count_one(&mut self.next_call);
        if self.failing.contains(&number) {
            count_one(&mut self.misses);
            return Err(Failed);
        }
        self.finished = true;
        Ok(())
    }

    fn count(&self) -> u64 {
        self.notices.len() as u64
    }

    fn last(&self) -> Option<Notice> {
        self.notices.last().copied()
    }

    fn is_finished(&self) -> bool {
        self.finished
    }
}
