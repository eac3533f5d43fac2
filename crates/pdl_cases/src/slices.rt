//! `slice TEXT => ARGUMENTS`, or the fault of the slice text.

use crate::answer::Answer;
use crate::cursor::Cursor;
use pdl_slices::{SliceArg, read_slice};

// Writes a number, or `-` where it is left out.
fn say_or_none(answer: &mut Answer, number: Option<i32>) {
    match number {
        Some(number) => answer.tell(" ", &number),
        None => answer.say(" -"),
    }
}

fn say_argument(answer: &mut Answer, arg: &SliceArg) {
    match arg {
        SliceArg::Whole => answer.say("Whole"),
        SliceArg::One(place) => answer.tell("One ", place),
        SliceArg::Dropped(place) => answer.tell("Dropped ", place),
        SliceArg::Dummy(size) => answer.tell("Dummy ", size),
        SliceArg::Span { from, to, step } => {
            answer.say("Span");
            say_or_none(answer, *from);
            say_or_none(answer, *to);
            say_or_none(answer, *step);
        }
    }
}

fn say_arguments(answer: &mut Answer, args: &[SliceArg]) {
    for arg in args {
        answer.next(", ");
        say_argument(answer, arg);
    }
    answer.or_none();
}

/// Reads the slice text of a line.
pub fn slice_answer(line: &mut Cursor<'_>, answer: &mut Answer) -> Option<()> {
    let text = line.short_text()?;
    match read_slice(line.alloc, &text) {
        Ok(args) => say_arguments(answer, args.as_slice()),
        Err(fault) => answer.debug(&fault),
    }
    Some(())
}
