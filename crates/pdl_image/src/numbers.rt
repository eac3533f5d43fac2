//! The parts of lines, each appended to the line that is made.
ghost use Rattle.std.specs.Prelude.{◌≡◌, ◌≤◌, ◌<◌, length, ◌==◌, ◌∷◌, [], ◌++◌, map, OnOk, decimal};
ghost use Rattle.std.specs.Fmt.{signed_decimal};
ghost use Rattle.std.specs.List.{list_any};
ghost use Rattle.pdl_slices.specs.Written.{arg_text, end_text, more_text as more_args_text, slice_text, step_text};
ghost use Rattle.pdl_image.specs.declared.TheConstants.{PART};
ghost use Rattle.pdl_image.specs.Dump.{as_listed};
ghost use Rattle.pdl_image.specs.Lines.{more_text, numbers_text, quote_of, quoted, sizes_text};

use crate::PART;
use crate::content::{Content, part_count};
use crate::page::Page;
use itoa::Buffer;
use pdl_slices::SliceArg;
use std::alloc::AllocError;

/// A number as it stands in a list: 0 for the least longlong.
pub fn as_listed(number: i64) -> i64
    ensures { result ≡ as_listed number }
{
    if number == i64::MIN { 0 } else { number }
}

/// Appends a number.
pub fn push_number(page: &mut Page, number: i64) -> Result<(), AllocError>
    ensures line { OnOk result (page.new.line ≡ page.old.line ++ signed_decimal number) }
    ensures text { page.new.text ≡ page.old.text }
{
    let mut buffer = Buffer::new();
    page.extend(buffer.format(number).as_bytes())
}

/// Appends a number that isn't below 0.
pub fn push_count(page: &mut Page, count: u64) -> Result<(), AllocError>
    ensures line { OnOk result (page.new.line ≡ page.old.line ++ decimal count) }
    ensures text { page.new.text ≡ page.old.text }
{
    let mut buffer = Buffer::new();
    page.extend(buffer.format(count).as_bytes())
}

/// Appends numbers, each behind a comma.
fn push_more(page: &mut Page, numbers: &[i64]) -> Result<(), AllocError>
    ensures line { OnOk result (page.new.line ≡ page.old.line ++ more_text numbers.now) }
    ensures text { page.new.text ≡ page.old.text }
{
    for number in numbers {
        page.push(b',')?;
        push_number(page, *number)?;
    }
    Ok(())
}

/// Appends numbers with commas between them.
pub fn push_numbers(page: &mut Page, numbers: &[i64]) -> Result<(), AllocError>
    ensures line { OnOk result (page.new.line ≡ page.old.line ++ numbers_text numbers.now) }
    ensures text { page.new.text ≡ page.old.text }
{
    let [first, more @ ..] = numbers else {
        return Ok(());
    };
    push_number(page, *first)?;
    push_more(page, more)
}

/// Appends numbers as they stand in a list, each behind a comma.
fn push_more_listed(page: &mut Page, numbers: &[i64]) -> Result<(), AllocError>
    ensures line { OnOk result (page.new.line
        ≡ page.old.line ++ more_text (map as_listed numbers.now)) }
    ensures text { page.new.text ≡ page.old.text }
{
    for number in numbers {
        page.push(b',')?;
        push_number(page, as_listed(*number))?;
    }
    Ok(())
}

/// Appends the numbers of a part as they stand in a list, each behind a comma.
fn push_part(page: &mut Page, part: &Content<'_>) -> Result<(), AllocError>
    requires { length part.now ≤ PART }
    ensures line { OnOk result (page.new.line
        ≡ page.old.line ++ more_text (map as_listed part.now)) }
    ensures text { page.new.text ≡ page.old.text }
{
    let mut room = [0; PART];
    let count = part.len();
    part.read(&mut room[..count]);
    push_more_listed(page, &room[..count])
}

/// Appends numbers as they stand in a list, each behind a comma, part by part.
fn push_parts(page: &mut Page, numbers: &Content<'_>) -> Result<(), AllocError>
    ensures line { OnOk result (page.new.line
        ≡ page.old.line ++ more_text (map as_listed numbers.now)) }
    ensures text { page.new.text ≡ page.old.text }
{
    for p in 0..part_count(numbers.len()) {
        push_part(page, &numbers.part(p))?;
    }
    Ok(())
}

/// Appends numbers, at least one, as they stand in a list, with commas between them.
pub fn push_listed(page: &mut Page, numbers: &Content<'_>) -> Result<(), AllocError>
    requires { 0 < length numbers.now }
    ensures line { OnOk result (page.new.line
        ≡ page.old.line ++ numbers_text (map as_listed numbers.now)) }
    ensures text { page.new.text ≡ page.old.text }
{
    push_number(page, as_listed(numbers.head()))?;
    push_parts(page, &numbers.cut(1, numbers.len()))
}

/// Appends sizes, each behind a comma.
pub fn push_sizes(page: &mut Page, sizes: &[u32]) -> Result<(), AllocError>
    ensures line { OnOk result (page.new.line ≡ page.old.line ++ sizes_text sizes.now) }
    ensures text { page.new.text ≡ page.old.text }
{
    for size in sizes {
        page.push(b',')?;
        push_count(page, u64::from(*size))?;
    }
    Ok(())
}

/// Whether a text has a `"`.
fn has_quote(text: &[u8]) -> bool
    ensures { result ≡ list_any (λ b. b == 34) text.now }
{
    text.iter().any(|byte| *byte == b'"')
}

/// The quote in which a text stands.
fn quote_of(text: &[u8]) -> u8
    ensures { result ≡ quote_of text.now }
{
    if has_quote(text) { b'\'' } else { b'"' }
}

/// Appends a text between two of its quotes.
pub fn push_quoted(page: &mut Page, text: &[u8]) -> Result<(), AllocError>
    ensures line { OnOk result (page.new.line ≡ page.old.line ++ quoted text.now) }
    ensures text { page.new.text ≡ page.old.text }
{
    let quote = quote_of(text);
    page.push(quote)?;
    page.extend(text)?;
    page.push(quote)
}

/// Appends one end of a span, if it is given.
fn push_end(page: &mut Page, end: Option<i32>) -> Result<(), AllocError>
    ensures line { OnOk result (page.new.line ≡ page.old.line ++ end_text end) }
    ensures text { page.new.text ≡ page.old.text }
{
    match end {
        Some(number) => push_number(page, i64::from(number)),
        None => Ok(()),
    }
}

/// Appends a step behind its colon, if it is given.
fn push_step(page: &mut Page, step: Option<i32>) -> Result<(), AllocError>
    ensures line { OnOk result (page.new.line ≡ page.old.line ++ step_text step) }
    ensures text { page.new.text ≡ page.old.text }
{
    match step {
        Some(number) => {
            page.push(b':')?;
            push_number(page, i64::from(number))
        }
        None => Ok(()),
    }
}

/// Appends a span.
fn push_span(
    page: &mut Page,
    from: Option<i32>,
    to: Option<i32>,
    step: Option<i32>,
) -> Result<(), AllocError>
    ensures line { OnOk result (page.new.line
        ≡ page.old.line ++ (end_text from ++ 58 ∷ (end_text to ++ step_text step))) }
    ensures text { page.new.text ≡ page.old.text }
{
    push_end(page, from)?;
    page.push(b':')?;
    push_end(page, to)?;
    push_step(page, step)
}

/// Appends a number between round brackets.
fn push_bracketed(page: &mut Page, number: i32) -> Result<(), AllocError>
    ensures line { OnOk result (page.new.line
        ≡ page.old.line ++ 40 ∷ (signed_decimal number ++ 41 ∷ [])) }
    ensures text { page.new.text ≡ page.old.text }
{
    page.push(b'(')?;
    push_number(page, i64::from(number))?;
    page.push(b')')
}

/// Appends the size of a new dimension.
fn push_starred(page: &mut Page, size: u32) -> Result<(), AllocError>
    ensures line { OnOk result (page.new.line ≡ page.old.line ++ 42 ∷ decimal size) }
    ensures text { page.new.text ≡ page.old.text }
{
    page.push(b'*')?;
    push_count(page, u64::from(size))
}

/// Appends one argument of a slice.
fn push_arg(page: &mut Page, arg: SliceArg) -> Result<(), AllocError>
    ensures line { OnOk result (page.new.line ≡ page.old.line ++ arg_text arg) }
    ensures text { page.new.text ≡ page.old.text }
{
    match arg {
        SliceArg::Whole => page.push(b':'),
        SliceArg::One(number) => push_number(page, i64::from(number)),
        SliceArg::Dropped(number) => push_bracketed(page, number),
        SliceArg::Dummy(size) => push_starred(page, size),
        SliceArg::Span { from, to, step } => push_span(page, from, to, step),
    }
}

/// Appends arguments of a slice, each behind a comma.
fn push_more_args(page: &mut Page, args: &[SliceArg]) -> Result<(), AllocError>
    ensures line { OnOk result (page.new.line ≡ page.old.line ++ more_args_text args.now) }
    ensures text { page.new.text ≡ page.old.text }
{
    for arg in args {
        page.push(b',')?;
        push_arg(page, *arg)?;
    }
    Ok(())
}

/// Appends the text of a slice.
pub fn push_slice(page: &mut Page, args: &[SliceArg]) -> Result<(), AllocError>
    ensures line { OnOk result (page.new.line ≡ page.old.line ++ slice_text args.now) }
    ensures text { page.new.text ≡ page.old.text }
{
    let [first, more @ ..] = args else {
        return Ok(());
    };
    push_arg(page, *first)?;
    push_more_args(page, more)
}
