//! Times the calls that the engine's speed hangs on. With no words it does nothing.
#![tactic(auto)]

mod arrays;
mod operators;
mod reads;
mod stopwatch;
mod words;

use crate::stopwatch::Timing;
use crate::words::{SUBJECTS, Subject, TYPES, named};
use pdl_elem::Ty;
use std::alloc::{AllocError, Global};
use std::process::ExitCode;
use std::rt::Clock;
use std::{env, io};

const USAGE: &str = "usage: pdl_bench [TYPE SUBJECT..]";

// Times one subject at a type.
fn time(clock: &impl Clock, alloc: Global, ty: Ty, subject: Subject) -> Result<Timing, AllocError> {
    match subject {
        Subject::Operator(op) => operators::time(clock, alloc, op, ty),
        Subject::Window(form) => reads::time(clock, alloc, form, ty),
    }
}

// Times what a word names, and answers whether it names something.
fn time_word(rt: &(impl Print + Clock), alloc: Global, ty: Ty, word: &str) -> io::Result<bool> {
    let Some(subject) = named(SUBJECTS, word) else {
        return Ok(false);
    };
    time(rt, alloc, ty, subject)?.report(rt, word)?;
    Ok(true)
}

// Times what the words name, one by one, up to one that names nothing, and answers whether each
// named something.
fn time_all(
    rt: &(impl Print + Clock),
    alloc: Global,
    ty: Ty,
    words: &[String],
) -> io::Result<bool> {
    for word in words {
        if !time_word(rt, alloc, ty, word.as_str())? {
            return Ok(false);
        }
    }
    Ok(true)
}

// The same, where the program's name and the word of a type stand before them.
fn time_words(rt: &(impl Print + Clock), alloc: Global, words: &[String]) -> io::Result<bool> {
    let [_, first, rest @ ..] = words else {
        return Ok(true);
    };
    match named(TYPES, first.as_str()) {
        Some(ty) => time_all(rt, alloc, ty, rest),
        None => Ok(false),
    }
}

// Does what the words of the command line ask.
fn answer(rt: &(impl Print + Clock), alloc: Global, words: &[String]) -> io::Result<ExitCode> {
    if time_words(rt, alloc, words)? {
        return Ok(ExitCode::SUCCESS);
    }
    println!(rt; "{USAGE}")?;
    Ok(ExitCode::from(2))
}

fn main(rt: HostRuntime) -> io::Result<ExitCode> {
    let words: Vec<String> = env::args(&rt)?.collect(rt.alloc())?;
    answer(&rt, rt.alloc(), &words)
}
