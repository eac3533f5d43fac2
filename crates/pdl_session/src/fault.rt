//! Why a session's call gave nothing.
use pdl_machine::Fault;
use pdl_scope::ScopeFault;

/// Why a statement gave nothing.
#[derive(Clone, Copy, PartialEq, Eq, Debug)]
pub enum StepFault {
    /// The statement's fault. Session, text and watchers are as they were.
    Script(Fault),
    /// A watcher failed, while the statement's changes were told or its slot was given up. The
    /// statement has run, its text is written, and the session may only be dropped.
    Watcher,
    /// There was no memory. Session, text and watchers are as they were.
    NoMemory,
}

impl From<ScopeFault> for StepFault {
    ghost use Rattle.std.specs.Prelude.{◌≡◌};
    ghost use Rattle.pdl_session.specs.Faults.{of_scope};

    ghost from_gives = { λ refused fault. fault ≡ of_scope refused };

    fn from(refused: ScopeFault) -> StepFault {
        match refused {
            ScopeFault::Script(fault) => StepFault::Script(fault),
            ScopeFault::NoMemory => StepFault::NoMemory,
        }
    }
}

/// A watcher failed when it was to be finished.
#[derive(Clone, Copy, PartialEq, Eq, Debug)]
pub struct WatcherFailed;
