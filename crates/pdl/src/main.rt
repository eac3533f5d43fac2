//! The program `pdl`: runs the script on standard input, and writes what it prints to standard output,
//! and what its eight watchers are told to standard error.
#![tactic(auto)]

use pdl_io::{ReadSource, WriteSink};
use pdl_shell::{MOST_SLOTS, Refused, Status, run_shell};
use pdl_watch::{LineWatcher, Watcher, are_open};
use std::alloc::{AllocError, Global};
use std::env;
use std::io::{self, ErrorKind};
use std::process::ExitCode;

// The words of the command line, without the program's name. A word that isn't UTF-8 makes them a faulty
// command line, as the one empty word is.
fn words(rt: &HostRuntime) -> io::Result<Vec<String>> {
    match env::args(rt) {
        Ok(all) => Ok(all.skip(1).collect(rt.alloc())?),
        Err(error) if error.kind() == ErrorKind::InvalidData => {
            let mut words = Vec::new(rt.alloc());
            words.push(String::new(rt.alloc()))?;
            Ok(words)
        }
        Err(error) => Err(error),
    }
}

// Nearly the most bytes of a block that the C library takes as a measure of what to keep.
const LARGEST: usize = 33_488_896;

// Makes the C library keep memory that was given back. It keeps twice the largest block that was
// ever given back, and hands what is above to the system, which then clears it anew, page by page:
// an assignment to an `index` of half a million places took half as long again for that. No page of
// this block is touched, and where there is no room for it nothing is lost.
fn keep_memory(alloc: Global) {
    let _ = Vec::<u8>::with_capacity(alloc, LARGEST);
}

// How many slots of watchers there are: from 0 on.
const SLOTS: u64 = 8;

// Runs the script on standard input, with a watcher in each slot.
fn watched(rt: &HostRuntime, words: &[String]) -> Result<Status, AllocError> {
    let alloc = rt.alloc();
    let mut watchers: Vec<Option<Box<dyn Watcher>>> = Vec::new(alloc);
    for slot in 0..SLOTS {
        let watcher = LineWatcher::new(alloc, slot, WriteSink::new(rt.stderr()))?;
        watchers.push(Some(Box::new(alloc, watcher)?))?;
    }
    // The conditions of the call, which hold of new watchers.
    if !are_open(&watchers) || watchers.len() > MOST_SLOTS {
        return Err(AllocError);
    }
    let mut source = ReadSource::new(rt.stdin());
    let mut sink = WriteSink::new(rt.stdout());
    let mut refused = Refused::new();
    Ok(run_shell(
        alloc,
        words,
        &mut source,
        &mut sink,
        &mut watchers,
        &mut refused,
    ))
}

fn answer(rt: &HostRuntime) -> Status {
    match words(rt) {
        Ok(words) => watched(rt, &words).unwrap_or(Status::NoMemory),
        Err(_) => Status::NoMemory,
    }
}

fn main(rt: HostRuntime) -> ExitCode {
    keep_memory(rt.alloc());
    ExitCode::from(answer(&rt).number())
}
