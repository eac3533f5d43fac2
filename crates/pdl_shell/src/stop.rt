//! Why a run stops short.
ghost use Rattle.std.specs.Prelude.{◌≡◌};
ghost use Rattle.pdl_shell.specs.declared.stop.Stop.TheVariants.{Watcher, NoMemory};
ghost use Rattle.pdl_shell.specs.Answers.{status_at_end, status_after};

use crate::refused::Refused;
use crate::status::Status;
use pdl_session::WatcherFailed;
use std::alloc::AllocError;

// Why a run stops short.
#[derive(Clone, Copy)]
pub(crate) enum Stop {
    Source,
    Sink,
    Watcher,
    NoMemory,
}

impl From<AllocError> for Stop {
    ghost from_gives = { λ _ e. e ≡ NoMemory };

    fn from(_error: AllocError) -> Stop {
        Stop::NoMemory
    }
}

impl From<WatcherFailed> for Stop {
    ghost from_gives = { λ _ e. e ≡ Watcher };

    fn from(_error: WatcherFailed) -> Stop {
        Stop::Watcher
    }
}

// The status of a run that came to its end.
fn status_at_end(faulted: bool, refused: &Refused) -> Status
    ensures { result ≡ status_at_end faulted refused.now }
{
    match refused.numbers() {
        [] if faulted => Status::ScriptFault,
        [] => Status::Done,
        _ => Status::NoMemory,
    }
}

// The status of a run that came to its end, faulted or not, or stopped short, where memory refused
// these statements.
pub(crate) fn status_after(ran: Result<bool, Stop>, refused: &Refused) -> Status
    ensures { result ≡ status_after ran refused.now }
{
    match ran {
        Ok(faulted) => status_at_end(faulted, refused),
        Err(Stop::Source) => Status::SourceFault,
        Err(Stop::Sink) => Status::SinkFault,
        Err(Stop::Watcher) => Status::WatcherFault,
        Err(Stop::NoMemory) => Status::NoMemory,
    }
}
