//! The texts of lines, each of which takes the place of the line that was made before.
ghost use Rattle.std.specs.Prelude.{◌≡◌, ◌<◌, ◌^◌, ◌+◌, ◌-◌, ◌++◌, length, map, OnOk, codes, decimal};
ghost use Rattle.pdl_image.specs.Adding.{bytes_to};
ghost use Rattle.pdl_image.specs.Dump.{affine_call, as_listed, edge_number};
ghost use Rattle.pdl_image.specs.Lines.{chosen, kernel_line, least_line, line_text, ranged, root_line, same_line, undef_line, view_line};

use crate::calls::{push_affine, push_chosen, push_ranged};
use crate::content::Content;
use crate::numbers::{push_count, push_listed, push_quoted, push_sizes};
use crate::own::OwnName;
use crate::page::Page;
use pdl_affine::Affine;
use pdl_choice::Edge;
use pdl_elem::{Ty, type_word};
use pdl_shape::{Dims, dims_list};
use std::alloc::AllocError;

/// Writes the definition of a kernel.
pub fn write_kernel(
    page: &mut Page,
    name: &[u8],
    signature: &[u8],
    code: &[u8],
) -> Result<(), AllocError>
    ensures line { OnOk result (page.new.line
        ≡ line_text (kernel_line name.now signature.now code.now)) }
    ensures text { page.new.text ≡ page.old.text }
{
    page.begin(b"pp_def(")?;
    push_quoted(page, name)?;
    page.push(b',')?;
    push_quoted(page, signature)?;
    page.push(b',')?;
    push_quoted(page, code)?;
    page.push(b')')
}

/// Writes what makes an array of zeros.
pub fn write_root(
    page: &mut Page,
    name: &OwnName<'_>,
    ty: Ty,
    dims: &Dims,
) -> Result<(), AllocError>
    ensures line { OnOk result (page.new.line ≡ line_text (root_line name.now ty dims.now)) }
    ensures text { page.new.text ≡ page.old.text }
{
    name.begin(page)?;
    page.extend(b" = zeroes(")?;
    page.extend(type_word(ty).as_bytes())?;
    push_sizes(page, dims_list(dims))?;
    page.push(b')')
}

/// Begins a text that names elements of an array, up to the first position.
fn begin_elements(page: &mut Page, name: &OwnName<'_>, first: usize) -> Result<(), AllocError>
    ensures line { OnOk result (page.new.line
        ≡ (name.now ++ codes "->flat->slice(\"") ++ decimal first) }
    ensures text { page.new.text ≡ page.old.text }
{
    name.begin(page)?;
    page.extend(b"->flat->slice(\"")?;
    push_count(page, first as u64)
}

/// Writes what gives these numbers, at least one, as they stand in a list, to the elements from a
/// position on.
pub fn write_piece(
    page: &mut Page,
    name: &OwnName<'_>,
    first: usize,
    numbers: &Content<'_>,
) -> Result<(), AllocError>
    requires some { 0 < length numbers.now }
    requires small { first + length numbers.now < 2 ^ 32 }
    ensures line { OnOk result (page.new.line
        ≡ bytes_to name.now first (first + length numbers.now - 1) (map as_listed numbers.now)) }
    ensures text { page.new.text ≡ page.old.text }
{
    begin_elements(page, name, first)?;
    page.push(b':')?;
    push_count(page, (first + numbers.len() - 1) as u64)?;
    page.extend(b"\") .= pdl [")?;
    push_listed(page, numbers)?;
    page.push(b']')
}

/// Writes what gives an element the least longlong.
pub fn write_least(page: &mut Page, name: &OwnName<'_>, position: usize) -> Result<(), AllocError>
    ensures line { OnOk result (page.new.line ≡ line_text (least_line name.now position)) }
    ensures text { page.new.text ≡ page.old.text }
{
    begin_elements(page, name, position)?;
    page.extend(b"\") .= longlong(1) << 63")
}

/// Begins the text of a view, up to the call.
fn begin_view(page: &mut Page, name: &OwnName<'_>, parent: &OwnName<'_>) -> Result<(), AllocError>
    ensures line { OnOk result (page.new.line
        ≡ ((name.now ++ codes " = ") ++ parent.now) ++ codes "->") }
    ensures text { page.new.text ≡ page.old.text }
{
    name.begin(page)?;
    page.extend(b" = ")?;
    parent.push(page)?;
    page.extend(b"->")
}

/// Writes what makes an affine view.
pub fn write_affine(
    page: &mut Page,
    name: &OwnName<'_>,
    parent: &OwnName<'_>,
    affine: &Affine,
) -> Result<(), AllocError>
    ensures line { OnOk result (page.new.line
        ≡ line_text (view_line name.now parent.now (affine_call affine.now))) }
    ensures text { page.new.text ≡ page.old.text }
{
    begin_view(page, name, parent)?;
    push_affine(page, affine)
}

/// Writes what makes a view by the array that chooses.
pub fn write_chosen(
    page: &mut Page,
    name: &OwnName<'_>,
    parent: &OwnName<'_>,
    word: &[u8],
    index: &OwnName<'_>,
) -> Result<(), AllocError>
    ensures line { OnOk result (page.new.line
        ≡ line_text (view_line name.now parent.now (chosen word.now index.now))) }
    ensures text { page.new.text ≡ page.old.text }
{
    begin_view(page, name, parent)?;
    push_chosen(page, word, index)
}

/// Writes what makes a view of windows.
pub fn write_ranged(
    page: &mut Page,
    name: &OwnName<'_>,
    parent: &OwnName<'_>,
    index: &OwnName<'_>,
    sizes: &[i64],
    edge: Edge,
) -> Result<(), AllocError>
    ensures line { OnOk result (page.new.line
        ≡ line_text (view_line name.now parent.now
        (ranged index.now sizes.now (edge_number edge)))) }
    ensures text { page.new.text ≡ page.old.text }
{
    begin_view(page, name, parent)?;
    push_ranged(page, index, sizes, edge)
}

/// Writes what gives another name to an array.
pub fn write_same(page: &mut Page, name: &[u8], other: &OwnName<'_>) -> Result<(), AllocError>
    ensures line { OnOk result (page.new.line ≡ line_text (same_line name.now other.now)) }
    ensures text { page.new.text ≡ page.old.text }
{
    page.begin(name)?;
    page.extend(b" = ")?;
    other.push(page)
}

/// Writes what ends a name.
pub fn write_undef(page: &mut Page, name: &OwnName<'_>) -> Result<(), AllocError>
    ensures line { OnOk result (page.new.line ≡ line_text (undef_line name.now)) }
    ensures text { page.new.text ≡ page.old.text }
{
    page.begin(b"undef ")?;
    name.push(page)
}
