//! How a run ended.
ghost use Rattle.std.specs.Prelude.{◌≡◌};

/// How a run ended.
#[derive(Clone, Copy, PartialEq, Eq, Debug)]
pub enum Status {
    /// The script was read to its end, and no statement faulted.
    Done,
    /// A statement that was run faulted, or the script was too long.
    ScriptFault,
    /// The words are no spelling of the command.
    Usage,
    /// The source failed.
    SourceFault,
    /// The sink failed.
    SinkFault,
    /// A watcher failed.
    WatcherFault,
    /// Memory refused a statement, or the call was out of memory and stopped short.
    NoMemory,
}

impl Status {
    ghost use Rattle.pdl_shell.specs.Number.{number_of};

    /// The number of the status, which is the program's exit status.
    pub fn number(self) -> u8
        ensures { result ≡ number_of self }
    {
        match self {
            Status::Done => 0,
            Status::ScriptFault => 1,
            Status::Usage => 2,
            Status::SourceFault => 3,
            Status::SinkFault => 4,
            Status::WatcherFault => 5,
            Status::NoMemory => 6,
        }
    }
}
