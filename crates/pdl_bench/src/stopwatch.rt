//! The least time of several runs of one piece of work.
use std::io::{self, ErrorKind};
use std::rt::Clock;
use std::time::Instant;

/// How many runs are timed.
pub const RUNS: u32 = 9;

/// What stands for a time that isn't known.
pub const UNKNOWN: u64 = u64::MAX;

/// What the clock says, if it says anything.
pub fn now(clock: &impl Clock) -> Option<Instant> {
    Instant::now(clock).ok()
}

/// The nanoseconds since a run began. A time that the clock doesn't tell is unknown, so that no loop
/// over runs has to give up.
pub fn since(clock: &impl Clock, start: Option<Instant>) -> u64 {
    let Some(start) = start else {
        return UNKNOWN;
    };
    match start.elapsed(clock) {
        Ok(time) => u64::try_from(time.as_nanos()).unwrap_or(UNKNOWN),
        Err(_) => UNKNOWN,
    }
}

/// How many things each run did, the nanoseconds of the shortest run, and what came out of the work.
#[derive(Clone, Copy)]
pub struct Timing {
    pub count: u32,
    pub least: u64,
    pub sum: u64,
}

impl Timing {
    /// Prints the name, the count, the time of one thing in nanoseconds, and the sum.
    pub fn report(self, rt: &impl Print, name: &str) -> io::Result<()> {
        let Timing { count, least, sum } = self;
        if least == UNKNOWN {
            return Err(ErrorKind::Other.into());
        }
        let hundredths = least.saturating_mul(100) / u64::from(count.max(1));
        let whole = hundredths / 100;
        let part = hundredths % 100;
        println!(rt; "{name:<28} {count:>8} {whole:>6}.{part:02} ns  {sum:016x}")
    }
}
