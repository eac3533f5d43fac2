//! Runs the cases of data files, a case a line, and the examples, and says which differ. Standard
//! input names the files, a line each, and the examples with their statuses.
#![tactic(auto)]

mod affine;
mod answer;
mod arguments;
mod board;
mod choice;
mod cursor;
mod engine;
mod escapes;
mod kernel_code;
mod nice;
mod numbers;
mod rebuilt;
mod script;
mod session;
mod slices;
mod statement;
mod tokens;
mod tree;
mod watchers;

use answer::Answer;
use cursor::Cursor;
use std::process::ExitCode;
use std::{fs, io};

// The calls that a line can make.
#[derive(Clone, Copy)]
enum Call {
    Script,
    Rebuilt,
    Session,
    Status,
    Cut,
    Tokens,
    Lexemes,
    Form,
    Statement,
    Kernel,
    Nice,
    Slice,
    Plan,
    Window,
    Index,
    Range,
    Where,
    Clump,
    Which,
    Wrap,
    Unary,
    Binary,
    Engine,
}

const CALLS: &[(&str, Call)] = &[
    ("script", Call::Script),
    ("rebuilt", Call::Rebuilt),
    ("session", Call::Session),
    ("status", Call::Status),
    ("cut", Call::Cut),
    ("tokens", Call::Tokens),
    ("lexemes", Call::Lexemes),
    ("form", Call::Form),
    ("statement", Call::Statement),
    ("kernel", Call::Kernel),
    ("nice", Call::Nice),
    ("slice", Call::Slice),
    ("plan", Call::Plan),
    ("window", Call::Window),
    ("index", Call::Index),
    ("range", Call::Range),
    ("where", Call::Where),
    ("clump_list", Call::Clump),
    ("which", Call::Which),
    ("wrap", Call::Wrap),
    ("unary", Call::Unary),
    ("binary", Call::Binary),
    ("engine", Call::Engine),
];

// Makes the call of a line, and says what it answers.
fn make_call(line: &mut Cursor<'_>, answer: &mut Answer) -> Option<()> {
    match line.named(CALLS)? {
        Call::Script => script::script_answer(line, answer),
        Call::Rebuilt => rebuilt::rebuilt_answer(line, answer),
        Call::Session => session::session_answer(line, answer),
        Call::Status => script::status_answer(line, answer),
        Call::Cut => tokens::cut(line, answer),
        Call::Tokens => tokens::tokens_answer(line, answer),
        Call::Lexemes => tokens::lexemes_answer(line, answer),
        Call::Form => statement::form_answer(line, answer),
        Call::Statement => statement::tree_answer(line, answer),
        Call::Kernel => kernel_code::kernel_answer(line, answer),
        Call::Nice => nice::nice_answer(line, answer),
        Call::Slice => slices::slice_answer(line, answer),
        Call::Plan => affine::plan_answer(line, answer),
        Call::Window => affine::window_answer(line, answer),
        Call::Index => choice::index_answer(line, answer),
        Call::Range => choice::range_answer(line, answer),
        Call::Where => choice::where_answer(line, answer),
        Call::Clump => choice::clump_answer(line, answer),
        Call::Which => choice::which_answer(line, answer),
        Call::Wrap => numbers::wrap_answer(line, answer),
        Call::Unary => numbers::unary_answer(line, answer),
        Call::Binary => numbers::binary_answer(line, answer),
        Call::Engine => engine::engine_answer(line, answer),
    }
}

// Whether the call of a line answers what the line has behind its `=>`.
fn agrees(line: &mut Cursor<'_>, answer: &mut Answer) -> bool {
    if make_call(line, answer).is_none() || !answer.is_whole() {
        answer.say(" (no answer)");
        return false;
    }
    line.takes(b'=') && line.takes(b'>') && answer.text().as_bytes() == line.left()
}

// Whether a line holds: its call answers what stands behind its `=>`; or, where the line begins with
// `!`, it doesn't.
fn holds(line: &mut Cursor<'_>, answer: &mut Answer) -> bool {
    let must_differ = line.takes(b'!');
    agrees(line, answer) != must_differ
}

// Tries one line, and says it where it differs.
fn try_line(rt: &HostRuntime, name: &str, number: usize, text: &str) -> io::Result<bool> {
    let mut line = Cursor::of(rt.alloc(), text.as_bytes());
    let mut answer = Answer::new(rt.alloc());
    if holds(&mut line, &mut answer) {
        return Ok(true);
    }
    let came = answer.text();
    println!(rt; "{name}:{number}: {text}\n    came: {came}")?;
    Ok(false)
}

// How many cases were tried, and how many of them differ.
#[derive(Clone, Copy)]
struct Counts {
    cases: u64,
    differ: u64,
}

impl Counts {
    fn none() -> Counts {
        Counts {
            cases: 0,
            differ: 0,
        }
    }

    fn add(&mut self, more: Counts) {
        self.cases = self.cases.saturating_add(more.cases);
        self.differ = self.differ.saturating_add(more.differ);
    }

    fn say(self, rt: &HostRuntime, name: &str) -> io::Result<()> {
        let Counts { cases, differ } = self;
        println!(rt; "{name}: {cases} cases, {differ} differ")
    }
}

// Tries the cases of a text.
fn try_lines(rt: &HostRuntime, name: &str, text: &str) -> io::Result<Counts> {
    let mut counts = Counts::none();
    for (number, line) in text.lines().enumerate() {
        if line.is_empty() || line.starts_with('#') {
            continue;
        }
        let agrees = try_line(rt, name, number.saturating_add(1), line)?;
        counts.add(Counts {
            cases: 1,
            differ: u64::from(!agrees),
        });
    }
    Ok(counts)
}

// Tries the cases of a file, and says how many there are.
fn try_file(rt: &HostRuntime, name: &str) -> io::Result<Counts> {
    let text = fs::read_to_string(rt, name)?;
    let counts = try_lines(rt, name, text.as_str())?;
    counts.say(rt, name)?;
    Ok(counts)
}

// What an example has to come to: its status, the text that it prints, and the lines of its watchers.
#[derive(Clone, Copy)]
struct Wanted<'a> {
    status: &'a str,
    text: &'a [u8],
    lines: &'a [u8],
}

impl Wanted<'_> {
    fn say(&self, answer: &mut Answer) {
        answer.say(self.status);
        answer.say(" ");
        answer.quoted(self.text);
        answer.say(" ");
        answer.quoted(self.lines);
    }
}

// Whether a script comes to this.
fn runs_so(script: &[u8], wanted: &Wanted<'_>, answer: &mut Answer) -> bool {
    let mut said = Answer::new(answer.alloc);
    wanted.say(&mut said);
    let is_run = script::run_example(script, answer).is_some();
    is_run && answer.is_whole() && said.is_whole() && answer.text() == said.text()
}

// Tries an example, and says what came where it differs.
fn try_example(
    rt: &HostRuntime,
    name: &str,
    script: &[u8],
    wanted: &Wanted<'_>,
) -> io::Result<Counts> {
    let mut answer = Answer::new(rt.alloc());
    if runs_so(script, wanted, &mut answer) {
        return Ok(Counts {
            cases: 1,
            differ: 0,
        });
    }
    let status = wanted.status;
    let came = answer.text();
    println!(rt; "{name}: {status}\n    came: {came}")?;
    Ok(Counts {
        cases: 1,
        differ: 1,
    })
}

// Tries the example of this name: the script `NAME.pdl` prints the text `NAME.out`, and its watchers
// the lines `NAME.err`, if there are any.
fn try_example_file(rt: &HostRuntime, name: &str, status: &str) -> io::Result<Counts> {
    let script = read(rt, name, "pdl")?;
    let text = read(rt, name, "out")?;
    let lines = read_if_there(rt, name, "err")?;
    let wanted = Wanted {
        status,
        text: &text,
        lines: &lines,
    };
    try_example(rt, name, &script, &wanted)
}

fn read(rt: &HostRuntime, name: &str, ending: &str) -> io::Result<Vec<u8>> {
    let path = format!(in rt.alloc(); "{name}.{ending}")?;
    fs::read(rt, path.as_str())
}

fn read_if_there(rt: &HostRuntime, name: &str, ending: &str) -> io::Result<Vec<u8>> {
    let path = format!(in rt.alloc(); "{name}.{ending}")?;
    if fs::exists(rt, path.as_str())? {
        fs::read(rt, path.as_str())
    } else {
        Ok(Vec::new(rt.alloc()))
    }
}

// Tries the cases of the files of these names, a line each; where a status stands behind a name, the
// example of that name.
fn try_files(rt: &HostRuntime, names: &str) -> io::Result<Counts> {
    let mut all = Counts::none();
    for line in names.lines() {
        all.add(match line.split_once(' ') {
            Some((name, status)) => try_example_file(rt, name, status)?,
            None => try_file(rt, line)?,
        });
    }
    all.say(rt, "all")?;
    Ok(all)
}

// Tries the cases of the files that standard input names, and answers whether none differs.
fn try_all(rt: &HostRuntime) -> io::Result<bool> {
    let names = io::read_to_string(rt.alloc(), rt.stdin())?;
    let all = try_files(rt, names.as_str())?;
    Ok(all.differ == 0)
}

fn main(rt: HostRuntime) -> ExitCode {
    match try_all(&rt) {
        Ok(true) => ExitCode::SUCCESS,
        Ok(false) => ExitCode::FAILURE,
        Err(fault) => {
            let _ = eprintln!(rt; "pdl_cases: {fault}");
            ExitCode::FAILURE
        }
    }
}
