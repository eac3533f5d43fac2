//! The texts of the calls that make views, each appended to the line that is made.
ghost use Rattle.std.specs.Prelude.{◌≡◌, ◌++◌, OnOk};
ghost use Rattle.pdl_image.specs.Dump.{affine_call, edge_number};
ghost use Rattle.pdl_image.specs.Lines.{call_text, chosen, numbered, ranged, sliced};

use crate::numbers::{push_count, push_numbers, push_slice};
use crate::own::OwnName;
use crate::page::Page;
use pdl_affine::Affine;
use pdl_choice::Edge;
use pdl_slices::SliceArg;
use std::alloc::AllocError;

/// Appends the call of a slice.
fn push_slice_call(page: &mut Page, args: &[SliceArg]) -> Result<(), AllocError>
    ensures line { OnOk result (page.new.line ≡ page.old.line ++ call_text (sliced args.now)) }
    ensures text { page.new.text ≡ page.old.text }
{
    page.extend(b"slice(\"")?;
    push_slice(page, args)?;
    page.extend(b"\")")
}

/// Appends a call with numbers.
fn push_call(page: &mut Page, word: &[u8], numbers: &[i64]) -> Result<(), AllocError>
    ensures line { OnOk result (page.new.line
        ≡ page.old.line ++ call_text (numbered word.now numbers.now)) }
    ensures text { page.new.text ≡ page.old.text }
{
    page.extend(word)?;
    page.push(b'(')?;
    push_numbers(page, numbers)?;
    page.push(b')')
}

/// Appends the call of an affine view.
pub fn push_affine(page: &mut Page, affine: &Affine) -> Result<(), AllocError>
    ensures line { OnOk result (page.new.line
        ≡ page.old.line ++ call_text (affine_call affine.now)) }
    ensures text { page.new.text ≡ page.old.text }
{
    match affine {
        Affine::Slice(args) => push_slice_call(page, args.as_slice()),
        Affine::Xchg(a, b) => push_call(page, b"xchg", &[*a, *b]),
        Affine::Mv(a, b) => push_call(page, b"mv", &[*a, *b]),
        Affine::Reorder(order) => push_call(page, b"reorder", order.as_slice()),
        Affine::Dummy { place, size } => push_call(page, b"dummy", &[*place, *size]),
        Affine::Diagonal(listed) => push_call(page, b"diagonal", listed.as_slice()),
        Affine::Squeeze => push_call(page, b"squeeze", &[]),
        Affine::Clump(count) => push_call(page, b"clump", &[*count]),
    }
}

/// Appends a call with the array that chooses.
pub fn push_chosen(page: &mut Page, word: &[u8], index: &OwnName<'_>) -> Result<(), AllocError>
    ensures line { OnOk result (page.new.line
        ≡ page.old.line ++ call_text (chosen word.now index.now)) }
    ensures text { page.new.text ≡ page.old.text }
{
    page.extend(word)?;
    page.push(b'(')?;
    index.push(page)?;
    page.push(b')')
}

/// The number of what stands beyond the edges.
fn edge_number(edge: Edge) -> u64
    ensures { result ≡ edge_number edge }
{
    match edge {
        Edge::Refuse => 0,
        Edge::Zero => 1,
        Edge::Nearest => 2,
        Edge::Periodic => 3,
    }
}

/// Appends the call of a range.
pub fn push_ranged(
    page: &mut Page,
    index: &OwnName<'_>,
    sizes: &[i64],
    edge: Edge,
) -> Result<(), AllocError>
    ensures line { OnOk result (page.new.line
        ≡ page.old.line ++ call_text (ranged index.now sizes.now (edge_number edge))) }
    ensures text { page.new.text ≡ page.old.text }
{
    page.extend(b"range(")?;
    index.push(page)?;
    page.extend(b",pdl [")?;
    push_numbers(page, sizes)?;
    page.extend(b"],")?;
    push_count(page, edge_number(edge))?;
    page.push(b')')
}
