//! Where the reader of slice texts stands, and how one byte moves it.

ghost use Rattle.std.specs.Prelude.{◌≡◌, option_map, nat_abs};
ghost use Rattle.pdl_slices.specs.SliceReading.{kind_of, more_digits, with_sign, number_in, part_after_blank, part_after_digit, part_after_minus, takes_number, takes_sign, slot_after, arg_of, moved, ending_argument, fitted, fitted_number, fitted_size, fitted_end, in_slot, is_first};

use crate::SliceArg;

/// What a byte can be in a slice text.
#[derive(Clone, Copy)]
pub enum Kind {
    Blank,
    Digit(u8),
    Minus,
    Open,
    Close,
    Star,
    Colon,
    Comma,
    Other,
}

/// Which number of an argument is read, or awaited.
#[derive(Clone, Copy)]
pub enum Slot {
    /// The first one, outside brackets.
    Single,
    /// The one in brackets.
    Bracket,
    /// None: this one was in brackets, and they are closed.
    Bracketed(i64),
    /// The size after a `*`.
    Size,
    /// The one after the first `:`; this one stood before it.
    To(Option<i64>),
    /// The one after the second `:`; these stood before.
    By(Option<i64>, Option<i64>),
}

/// How far a number is read.
#[derive(Clone, Copy)]
pub enum NumberSoFar {
    /// Not begun.
    Before,
    /// Its `-`.
    Minus,
    /// Its sign and some digits.
    Digits { negative: bool, size: u32 },
    /// All of it, and a blank.
    After(i64),
}

/// Where in an argument the reader stands.
#[derive(Clone, Copy)]
pub struct Place {
    pub slot: Slot,
    pub part: NumberSoFar,
}

/// The greatest size that a number may have.
pub const LARGEST_SIZE: u32 = 2_147_483_647;

/// A number's size is above that.
#[derive(Clone, Copy, Debug)]
pub struct TooLarge;

/// A size that stands for all that are too large.
const TOO_LARGE: u32 = LARGEST_SIZE + 1;

pub fn kind_of(byte: u8) -> Kind
    ensures { result ≡ kind_of byte }
{
    match byte {
        b' ' | b'\t' => Kind::Blank,
        b'0'..=b'9' => Kind::Digit(byte - b'0'),
        b'-' => Kind::Minus,
        b'(' => Kind::Open,
        b')' => Kind::Close,
        b'*' => Kind::Star,
        b':' => Kind::Colon,
        b',' => Kind::Comma,
        _ => Kind::Other,
    }
}

fn more_digits(size: u32, digit: u8) -> u32
    ensures { result ≡ more_digits size digit }
{
    (10 * u64::from(size) + u64::from(digit)).min(u64::from(TOO_LARGE)) as u32
}

fn with_sign(negative: bool, size: u32) -> i64
    ensures { result ≡ with_sign negative size }
{
    if negative {
        -i64::from(size)
    } else {
        i64::from(size)
    }
}

/// The number that the part holds, if any; nothing where it isn't whole.
fn number_in(part: NumberSoFar) -> Option<Option<i64>>
    ensures { result ≡ number_in part }
{
    match part {
        NumberSoFar::Before => Some(None),
        NumberSoFar::Minus => None,
        NumberSoFar::Digits { negative, size } => Some(Some(with_sign(negative, size))),
        NumberSoFar::After(number) => Some(Some(number)),
    }
}

fn part_after_blank(part: NumberSoFar) -> Option<NumberSoFar>
    ensures { result ≡ part_after_blank part }
{
    match part {
        NumberSoFar::Before => Some(NumberSoFar::Before),
        NumberSoFar::Minus => None,
        NumberSoFar::Digits { negative, size } => {
            Some(NumberSoFar::After(with_sign(negative, size)))
        }
        NumberSoFar::After(number) => Some(NumberSoFar::After(number)),
    }
}

fn part_after_digit(part: NumberSoFar, digit: u8) -> Option<NumberSoFar>
    ensures { result ≡ part_after_digit part digit }
{
    match part {
        NumberSoFar::Before => Some(NumberSoFar::Digits {
            negative: false,
            size: more_digits(0, digit),
        }),
        NumberSoFar::Minus => Some(NumberSoFar::Digits {
            negative: true,
            size: more_digits(0, digit),
        }),
        NumberSoFar::Digits { negative, size } => Some(NumberSoFar::Digits {
            negative,
            size: more_digits(size, digit),
        }),
        NumberSoFar::After(_) => None,
    }
}

fn part_after_minus(part: NumberSoFar) -> Option<NumberSoFar>
    ensures { result ≡ part_after_minus part }
{
    match part {
        NumberSoFar::Before => Some(NumberSoFar::Minus),
        _ => None,
    }
}

fn takes_number(slot: Slot) -> bool
    ensures { result ≡ takes_number slot }
{
    !matches!(slot, Slot::Bracketed(_))
}

fn takes_sign(slot: Slot) -> bool
    ensures { result ≡ takes_sign slot }
{
    !matches!(slot, Slot::Bracketed(_) | Slot::Size)
}

fn slot_after(slot: Slot, number: Option<i64>, kind: Kind) -> Option<Slot>
    ensures { result ≡ slot_after slot number kind }
{
    match (slot, number, kind) {
        (Slot::Single, None, Kind::Open) => Some(Slot::Bracket),
        (Slot::Single, None, Kind::Star) => Some(Slot::Size),
        (Slot::Single, from, Kind::Colon) => Some(Slot::To(from)),
        (Slot::Bracket, Some(number), Kind::Close) => Some(Slot::Bracketed(number)),
        (Slot::To(from), to, Kind::Colon) => Some(Slot::By(from, to)),
        _ => None,
    }
}

/// Where a byte that is no comma leads from a place, if it may stand there.
pub fn moved(place: Place, kind: Kind) -> Option<Place>
    ensures { result ≡ moved place kind }
{
    let Place { slot, part } = place;
    match kind {
        Kind::Blank => in_slot(slot, part_after_blank(part)),
        Kind::Digit(digit) if takes_number(slot) => in_slot(slot, part_after_digit(part, digit)),
        Kind::Minus if takes_sign(slot) => in_slot(slot, part_after_minus(part)),
        Kind::Digit(_) | Kind::Minus => None,
        _ => {
            let slot = slot_after(slot, number_in(part)?, kind)?;
            Some(Place {
                slot,
                part: NumberSoFar::Before,
            })
        }
    }
}

/// Whether an argument begins at the place.
pub fn is_first(place: Place) -> bool
    ensures { result ≡ is_first place }
{
    matches!(
        (place.slot, place.part),
        (Slot::Single, NumberSoFar::Before)
    )
}

fn in_slot(slot: Slot, part: Option<NumberSoFar>) -> Option<Place>
    ensures { result ≡ in_slot slot part }
{
    let part = part?;
    Some(Place { slot, part })
}

fn fitted_number(number: i64) -> Result<i32, TooLarge>
    ensures { result ≡ fitted_number number }
{
    if number.unsigned_abs() < u64::from(TOO_LARGE) {
        Ok(number as i32)
    } else {
        Err(TooLarge)
    }
}

fn fitted_size(number: i64) -> Result<u32, TooLarge>
    ensures { result ≡ fitted_size number }
{
    let size = number.unsigned_abs();
    if size < u64::from(TOO_LARGE) {
        Ok(size as u32)
    } else {
        Err(TooLarge)
    }
}

fn fitted_end(number: Option<i64>) -> Result<Option<i32>, TooLarge>
    ensures { result ≡ fitted_end number }
{
    match number {
        None => Ok(None),
        Some(number) => Ok(Some(fitted_number(number)?)),
    }
}

fn one(number: i64) -> Result<SliceArg, TooLarge>
    ensures { result ≡ fitted (SliceArg.One number) }
{
    Ok(SliceArg::One(fitted_number(number)?))
}

fn dropped(number: i64) -> Result<SliceArg, TooLarge>
    ensures { result ≡ fitted (SliceArg.Dropped number) }
{
    Ok(SliceArg::Dropped(fitted_number(number)?))
}

fn dummy(number: i64) -> Result<SliceArg, TooLarge>
    ensures { result ≡ fitted (SliceArg.Dummy (nat_abs number)) }
{
    Ok(SliceArg::Dummy(fitted_size(number)?))
}

fn span(from: Option<i64>, to: Option<i64>, step: Option<i64>) -> Result<SliceArg, TooLarge>
    ensures { result ≡ fitted (SliceArg.Span from to step) }
{
    Ok(SliceArg::Span {
        from: fitted_end(from)?,
        to: fitted_end(to)?,
        step: fitted_end(step)?,
    })
}

fn arg_of(slot: Slot, number: Option<i64>) -> Option<Result<SliceArg, TooLarge>>
    ensures { result ≡ option_map fitted (arg_of slot number) }
{
    match (slot, number) {
        (Slot::Single, None) => Some(Ok(SliceArg::Whole)),
        (Slot::Single, Some(number)) => Some(one(number)),
        (Slot::Bracketed(number), None) => Some(dropped(number)),
        (Slot::Size, None) => Some(Ok(SliceArg::Dummy(1))),
        (Slot::Size, Some(number)) => Some(dummy(number)),
        (Slot::To(None), None) => Some(Ok(SliceArg::Whole)),
        (Slot::To(from), to) => Some(span(from, to, None)),
        (Slot::By(from, to), Some(step)) => Some(span(from, to, Some(step))),
        _ => None,
    }
}

/// The argument that ends at a place, if one may end there.
pub fn ending_argument(place: Place) -> Option<Result<SliceArg, TooLarge>>
    ensures { result ≡ option_map fitted (ending_argument place) }
{
    arg_of(place.slot, number_in(place.part)?)
}
