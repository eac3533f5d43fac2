//! `engine [marks] CALL; CALL; .. => ANSWER; ANSWER; ..`: calls of an engine without arrays, in order.
//!
//! Each array has a letter. `root x = TYPE [SIZES]: VALUES` and `view y = x VIEW` make one; a VIEW is
//! one of an affine view, `index [SIZES]: VALUES`, `where [SIZES]: MASK` or
//! `range [SIZES]: VALUES sizes SIZES edge EDGE`. Then there are `ready x`, `assign x: VALUES`,
//! `sever x`, `reshape x [SIZES]`, `hold x`, `release x`. These answer nothing, but for a view or a
//! reshape that is refused, which has its fault.
//!
//! `fresh` answers the arrays that can be lent, `lend x` the array, `read x` the same after `ready`,
//! `live` how many arrays there are, `parent x` its parent, `reaches x y` whether `y` is `x` or above
//! it, `breaks x [SIZES]` whether `reshape x [SIZES]` is refused. With `marks` each call answers the
//! arrays that can be lent after it, too.
ghost use Rattle.std.specs.Prelude.{◌≡◌, ◌<◌, IfSome, IsTrue, OnSome};
ghost use Rattle.pdl_world.specs.Formula.{is_well_formed};
ghost use Rattle.pdl_cases.specs.Kept.{AreKept, IsKept};

use crate::affine;
use crate::answer::Answer;
use crate::board::{Array, Board};
use crate::choice::{self, Values};
use crate::cursor::Cursor;
use crate::numbers::TYPES;
use pdl_affine::Numbers;
use pdl_buf::{Elements, Strided, strided_dims, strided_get, strided_type};
use pdl_elem::wrap_all;
use pdl_engine::ArrayId;
use pdl_shape::{dims_list, elements_of};
use pdl_world::Trans;
use std::marker::Brand;
use std::sync::ledger::{Blank, Ledger};

// The most calls of a line.
const MOST_CALLS: usize = 1000;

// The calls that change arrays.
#[derive(Clone, Copy)]
enum Change {
    Root,
    View,
    Ready,
    Assign,
    Sever,
    Reshape,
    Hold,
    Release,
}

const CHANGES: &[(&str, Change)] = &[
    ("root", Change::Root),
    ("view", Change::View),
    ("ready", Change::Ready),
    ("assign", Change::Assign),
    ("sever", Change::Sever),
    ("reshape", Change::Reshape),
    ("hold", Change::Hold),
    ("release", Change::Release),
];

// The calls that tell something of them.
#[derive(Clone, Copy)]
enum Question {
    Fresh,
    Lend,
    Read,
    Live,
    Parent,
    Reaches,
    Breaks,
}

const QUESTIONS: &[(&str, Question)] = &[
    ("fresh", Question::Fresh),
    ("lend", Question::Lend),
    ("read", Question::Read),
    ("live", Question::Live),
    ("parent", Question::Parent),
    ("reaches", Question::Reaches),
    ("breaks", Question::Breaks),
];

// What stands between two answers.
const BETWEEN: &str = "; ";

// The letter of an array.
fn letter(line: &mut Cursor<'_>) -> Option<u8> {
    match line.word() {
        [letter] => Some(*letter),
        _ => None,
    }
}

// The letter of a new array.
fn new_letter(line: &mut Cursor<'_>) -> Option<u8> {
    let letter = letter(line)?;
    line.expect(b'=')?;
    Some(letter)
}

// The array whose letter a line has next.
fn array<L: Ledger>(board: &Board<L>, line: &mut Cursor<'_>) -> Option<Array>
    requires { AreKept board.now.engine board.now.arrays.items }
    ensures { IfSome result (IsKept board.now.engine) }
{
    board.find(letter(line)?)
}

fn indexed(line: &mut Cursor<'_>) -> Option<Trans>
    ensures { IfSome result (λ trans. IsTrue (is_well_formed trans)) }
{
    let Values { dims, numbers } = choice::read_values(line)?;
    let ind = Numbers::new(numbers);
    Some(Trans::Index { dims, ind })
}

fn masked(line: &mut Cursor<'_>) -> Option<Trans>
    ensures { IfSome result (λ trans. IsTrue (is_well_formed trans)) }
{
    let Values { dims, numbers } = choice::read_values(line)?;
    let _count = elements_of(&dims);
    let places = choice::places(line.alloc, &numbers)?;
    Some(Trans::Where { dims, places })
}

fn windows(line: &mut Cursor<'_>) -> Option<Trans>
    ensures { IfSome result (λ trans. IsTrue (is_well_formed trans)) }
{
    let Values { dims, numbers } = choice::read_values(line)?;
    let (sizes, edge) = choice::sizes_and_edge(line)?;
    Some(Trans::Range {
        dims,
        ind: Numbers::new(numbers),
        sizes: Numbers::new(sizes),
        edge,
    })
}

// How a view shows its parent.
fn transformation(line: &mut Cursor<'_>) -> Option<Trans>
    ensures { IfSome result (λ trans. IsTrue (is_well_formed trans)) }
{
    if line.takes_word("index") {
        return indexed(line);
    }
    if line.takes_word("where") {
        return masked(line);
    }
    if line.takes_word("range") {
        return windows(line);
    }
    Some(Trans::Affine(affine::transformation(line)?))
}

fn make<L: Ledger>(board: &mut Board<L>, line: &mut Cursor<'_>) -> Option<()>
    requires { AreKept board.old.engine board.old.arrays.items }
    ensures { OnSome result (AreKept board.new.engine board.new.arrays.items) }
{
    let name = new_letter(line)?;
    let ty = line.named(TYPES)?;
    let Values { dims, mut numbers } = choice::read_values(line)?;
    wrap_all(ty, &mut numbers);
    board.make(name, ty, &dims, Elements::new(numbers))
}

// Makes a view, and says why there is none.
fn view<L: Ledger>(board: &mut Board<L>, line: &mut Cursor<'_>, answer: &mut Answer) -> Option<()>
    requires { AreKept board.old.engine board.old.arrays.items }
    ensures { OnSome result (AreKept board.new.engine board.new.arrays.items) }
{
    let name = new_letter(line)?;
    let parent = array(board, line)?;
    let trans = transformation(line)?;
    if let Some(fault) = board.view(name, &parent, trans)? {
        answer.next(BETWEEN);
        answer.debug(&fault);
    }
    Some(())
}

fn assign<L: Ledger>(board: &mut Board<L>, line: &mut Cursor<'_>) -> Option<()>
    requires { AreKept board.old.engine board.old.arrays.items }
    ensures { OnSome result (AreKept board.new.engine board.new.arrays.items) }
{
    let array = array(board, line)?;
    let mut numbers = choice::elements(line)?;
    board.assign(&array, &mut numbers)
}

// Gives an array other dimensions, and says why not.
fn reshape<L: Ledger>(
    board: &mut Board<L>,
    line: &mut Cursor<'_>,
    answer: &mut Answer,
) -> Option<()>
    requires { AreKept board.old.engine board.old.arrays.items }
    ensures { OnSome result (AreKept board.new.engine board.new.arrays.items) }
{
    let array = array(board, line)?;
    let dims = choice::dims(line)?;
    if let Some(fault) = board.reshape(&array, &dims)? {
        answer.next(BETWEEN);
        answer.debug(&fault);
    }
    Some(())
}

// A call of an array alone.
fn change_one<L: Ledger>(board: &mut Board<L>, change: Change, line: &mut Cursor<'_>) -> Option<()>
    requires { AreKept board.old.engine board.old.arrays.items }
    ensures { OnSome result (AreKept board.new.engine board.new.arrays.items) }
{
    let array = array(board, line)?;
    match change {
        Change::Ready => board.ready(&array),
        Change::Sever => board.sever(&array),
        Change::Hold => board.hold(&array),
        Change::Release => board.release(&array),
        _ => None,
    }
}

// A call that changes arrays.
fn make_change<L: Ledger>(
    board: &mut Board<L>,
    line: &mut Cursor<'_>,
    answer: &mut Answer,
) -> Option<()>
    requires { AreKept board.old.engine board.old.arrays.items }
    ensures { OnSome result (AreKept board.new.engine board.new.arrays.items) }
{
    match line.named(CHANGES)? {
        Change::View => view(board, line, answer),
        Change::Root => make(board, line),
        Change::Assign => assign(board, line),
        Change::Reshape => reshape(board, line, answer),
        other => change_one(board, other, line),
    }
}

// The letters of the arrays that can be lent.
fn say_fresh<L: Ledger>(board: &Board<L>, answer: &mut Answer)
    requires { AreKept board.now.engine board.now.arrays.items }
{
    answer.next(BETWEEN);
    let mut any = false;
    for array in &board.arrays {
        if board.engine.is_fresh(array.id) {
            answer.show(&char::from(array.name));
            any = true;
        }
    }
    if !any {
        answer.say("-");
    }
}

// The type, the dimensions and the elements of what is lent.
fn say_window(answer: &mut Answer, window: &Strided<'_>) {
    answer.debug(&strided_type(window));
    answer.say(" ");
    answer.list(dims_list(strided_dims(window)));
    answer.say(":");
    for position in 0..elements_of(strided_dims(window)) {
        answer.tell(" ", &strided_get(window, position));
    }
}

// What is lent of an array as it is, without making it ready, if it can be lent.
fn say_lent<L: Ledger>(board: &Board<L>, array: &Array, answer: &mut Answer) -> Option<()>
    requires { IsKept board.now.engine array.now }
{
    if !board.engine.is_fresh(array.id) {
        return None;
    }
    answer.next(BETWEEN);
    say_window(answer, &board.engine.lend(array.id));
    Some(())
}

// What is lent of an array that is made ready before.
fn read<L: Ledger>(board: &mut Board<L>, line: &mut Cursor<'_>, answer: &mut Answer) -> Option<()>
    requires { AreKept board.old.engine board.old.arrays.items }
    ensures { OnSome result (AreKept board.new.engine board.new.arrays.items) }
{
    let array = array(board, line)?;
    board.ready(&array)?;
    say_lent(board, &array, answer)
}

// The letter of an array's parent: `-` for a root, and `?` where the parent has none.
fn say_parent<L: Ledger>(board: &Board<L>, array: &Array, answer: &mut Answer)
    requires { IsKept board.now.engine array.now }
{
    answer.next(BETWEEN);
    match board.engine.parent(array.id) {
        None => answer.say("-"),
        Some(parent) => say_letter(&board.arrays, parent, answer),
    }
}

fn say_letter(arrays: &[Array], id: ArrayId, answer: &mut Answer) {
    for array in arrays {
        if array.id == id {
            answer.show(&char::from(array.name));
            return;
        }
    }
    answer.say("?");
}

// Whether an array is another one, or a view of it, or of a view of it.
fn say_reached<L: Ledger>(
    board: &Board<L>,
    below: &Array,
    line: &mut Cursor<'_>,
    answer: &mut Answer,
) -> Option<()>
    requires kept { AreKept board.now.engine board.now.arrays.items }
    requires below { IsKept board.now.engine below.now }
{
    let above = array(board, line)?;
    answer.next(BETWEEN);
    answer.show(&board.engine.reaches(below.id, above.id));
    Some(())
}

// Whether other dimensions of an array would break a view.
fn say_broken<L: Ledger>(
    board: &Board<L>,
    array: &Array,
    line: &mut Cursor<'_>,
    answer: &mut Answer,
) -> Option<()>
    requires { IsKept board.now.engine array.now }
{
    let dims = choice::dims(line)?;
    let breaks = board.engine.breaks(array.id, &dims).ok()?;
    answer.next(BETWEEN);
    answer.show(&breaks);
    Some(())
}

// A call that tells something of one array.
fn tell_one<L: Ledger>(
    board: &Board<L>,
    question: Question,
    line: &mut Cursor<'_>,
    answer: &mut Answer,
) -> Option<()>
    requires { AreKept board.now.engine board.now.arrays.items }
{
    let array = array(board, line)?;
    match question {
        Question::Reaches => say_reached(board, &array, line, answer),
        Question::Breaks => say_broken(board, &array, line, answer),
        Question::Parent => {
            say_parent(board, &array, answer);
            Some(())
        }
        _ => say_lent(board, &array, answer),
    }
}

// A call that tells something.
fn tell<L: Ledger>(
    board: &Board<L>,
    question: Question,
    line: &mut Cursor<'_>,
    answer: &mut Answer,
) -> Option<()>
    requires { AreKept board.now.engine board.now.arrays.items }
{
    match question {
        Question::Fresh => {
            say_fresh(board, answer);
            Some(())
        }
        Question::Live => {
            answer.next(BETWEEN);
            answer.show(&board.engine.live());
            Some(())
        }
        _ => tell_one(board, question, line, answer),
    }
}

// Makes the next call, and says what it answers.
fn call<L: Ledger>(board: &mut Board<L>, line: &mut Cursor<'_>, answer: &mut Answer) -> Option<()>
    requires { AreKept board.old.engine board.old.arrays.items }
    ensures { OnSome result (AreKept board.new.engine board.new.arrays.items) }
{
    match line.named(QUESTIONS) {
        Some(Question::Read) => read(board, line, answer),
        Some(question) => tell(board, question, line, answer),
        None => make_change(board, line, answer),
    }
}

// Makes the calls of a line, and says what they answer.
fn run_all<L: Ledger>(
    board: &mut Board<L>,
    line: &mut Cursor<'_>,
    answer: &mut Answer,
) -> Option<()>
    requires { AreKept board.old.engine board.old.arrays.items }
{
    let marks = line.takes_word("marks");
    for _ in 0..MOST_CALLS {
        call(board, line, answer)?;
        if marks {
            say_fresh(board, answer);
        }
        if !line.takes(b';') {
            return Some(());
        }
    }
    None
}

fn run<L: Ledger>(line: &mut Cursor<'_>, answer: &mut Answer, blank: Blank) -> Option<()>
    requires name { blank.name ≡ L.name }
    requires parts { blank.parts ≡ L.parts }
    requires some { 0 < blank.parts }
{
    let mut board = Board::<L>::new(line.alloc, blank);
    run_all(&mut board, line, answer)
}

/// Makes the calls of a line.
pub fn engine_answer(line: &mut Cursor<'_>, answer: &mut Answer) -> Option<()> {
    run::<Brand>(line, answer, Blank::new(1))
}
