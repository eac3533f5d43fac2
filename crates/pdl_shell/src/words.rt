//! The words of the command line.
ghost use Rattle.std.specs.Prelude.{◌≡◌};
ghost use Rattle.pdl_shell.specs.Command.{is_keep_going, is_generate, value_of, is_number_of_rounds, generating, generating_joined, command_of_one, command_of_two, command_of_three, asked_by};

use crate::limits::MOST_ROUNDS;

// What the words ask for.
#[derive(Clone, Copy)]
pub(crate) enum Command {
    // To run the source's script, which goes on after faults or doesn't.
    Run { keep_going: bool },
    // To run the generated script of so many rounds, which goes on after faults or
    // doesn't, and write its summary.
    Generate { keep_going: bool, rounds: u16 },
}

// The word that asks to go on after faults.
const KEEP_GOING: &[u8] = b"--keep-going";

// The word that stands before a number of rounds.
const GENERATE: &[u8] = b"--generate";

// What stands before a number of rounds in the same word.
const GENERATE_EQUALS: &[u8] = b"--generate=";

fn is_keep_going(word: &[u8]) -> bool
    ensures { result ≡ is_keep_going word.now }
{
    word == KEEP_GOING
}

fn is_generate(word: &[u8]) -> bool
    ensures { result ≡ is_generate word.now }
{
    word == GENERATE
}

// What a number of rounds asks for.
fn generating(keep_going: bool, word: &[u8]) -> Option<Command>
    ensures { result ≡ generating keep_going word.now }
{
    if word.is_empty() || word.len() > 4 {
        return None;
    }
    let mut rounds = 0;
    'reading: for digit in word {
        if !digit.is_ascii_digit() {
            return None;
        }
        rounds = rounds * 10 + u16::from(*digit - b'0');
    }
    if rounds <= MOST_ROUNDS {
        Some(Command::Generate { keep_going, rounds })
    } else {
        None
    }
}

// What a number of rounds asks for in the same word.
fn generating_joined(keep_going: bool, word: &[u8]) -> Option<Command>
    ensures { result ≡ generating_joined keep_going word.now }
{
    if word.starts_with(GENERATE_EQUALS) {
        generating(keep_going, &word[GENERATE_EQUALS.len()..])
    } else {
        None
    }
}

fn read_one(word: &[u8]) -> Option<Command>
    ensures { result ≡ command_of_one word.now }
{
    if is_keep_going(word) {
        Some(Command::Run { keep_going: true })
    } else {
        generating_joined(false, word)
    }
}

fn read_two(first: &[u8], second: &[u8]) -> Option<Command>
    ensures { result ≡ command_of_two first.now second.now }
{
    if is_keep_going(first) {
        generating_joined(true, second)
    } else if is_keep_going(second) {
        generating_joined(true, first)
    } else if is_generate(first) {
        generating(false, second)
    } else {
        None
    }
}

fn read_three(first: &[u8], second: &[u8], third: &[u8]) -> Option<Command>
    ensures { result ≡ command_of_three first.now second.now third.now }
{
    if is_keep_going(first) && is_generate(second) {
        generating(true, third)
    } else if is_generate(first) && is_keep_going(third) {
        generating(true, second)
    } else {
        None
    }
}

// What the words ask for, or nothing where they are no spelling of the command.
pub(crate) fn read_words(words: &[String]) -> Option<Command>
    ensures { result ≡ asked_by words.now }
{
    match words {
        [] => Some(Command::Run { keep_going: false }),
        [word] => read_one(word.as_bytes()),
        [first, second] => read_two(first.as_bytes(), second.as_bytes()),
        [first, second, third] => read_three(first.as_bytes(), second.as_bytes(), third.as_bytes()),
        _ => None,
    }
}
