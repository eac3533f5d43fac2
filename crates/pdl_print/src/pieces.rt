//! The pieces of the printed text, each appended to what was there before.
ghost use Rattle.std.specs.Prelude.{◌≡◌, ◌<◌, ◌≤◌, ◌+◌, ◌*◌, ◌++◌, length, take, drop, get_or, decimal, OnOk, IfOk, ◌^◌};
ghost use Rattle.pdl_shape.specs.Shape.{size_of};
ghost use Rattle.pdl_print.specs.Pieces.{Begins};
ghost use Rattle.pdl_print.specs.Printed.{spaces, aligned, widest, line, decimals_joined, block, bracketed, elements_text, lines, array_text, info};

use itoa::Buffer;
use pdl_buf::{Strided, strided_dims, strided_get, strided_read};
use pdl_elem::{Ty, type_name};
use pdl_shape::{Dims, dims_list, elements_of};
use std::alloc::{AllocError, Global};

/// Above so many elements an array isn't printed.
pub const MOST_PRINTED: u32 = 10_000;

/// Appends so many spaces.
fn push_spaces(into: &mut Vec<u8>, count: usize) -> Result<(), AllocError>
    ensures ok { OnOk result (into.new.items ≡ into.old.items ++ spaces count) }
    ensures front { Begins into.old.items into.new.items }
{
    for _ in 0..count {
        into.push(b' ')?;
    }
    Ok(())
}

/// Appends a number, with spaces before it up to the width.
fn push_number(into: &mut Vec<u8>, number: i64, width: usize) -> Result<(), AllocError>
    ensures ok { OnOk result (into.new.items ≡ into.old.items ++ aligned width number) }
    ensures front { Begins into.old.items into.new.items }
{
    let mut buffer = Buffer::new();
    let text = buffer.format(number);
    push_spaces(into, width.saturating_sub(text.len()))?;
    into.extend_from_slice(text.as_bytes())
}

/// So many elements from a position on.
fn block_of(
    alloc: Global,
    elems: &Strided<'_>,
    first: u32,
    count: u32,
) -> Result<Vec<i64>, AllocError>
    requires { first + count ≤ length elems.now.elems }
    ensures { IfOk result (λ block. block.items ≡ take count (drop first elems.now.elems)) }
{
    let mut block = vec![in alloc; 0; count as usize]?;
    strided_read(elems, first, &mut block);
    Ok(block)
}

/// The width of the widest number.
fn widest_of(numbers: &[i64]) -> usize
    ensures { result ≡ widest numbers.now }
{
    let mut widest = 0;
    for number in numbers {
        let mut buffer = Buffer::new();
        widest = widest.max(buffer.format(*number).len());
    }
    widest
}

/// Appends the row of these numbers, at least one.
fn push_line(
    into: &mut Vec<u8>,
    numbers: &[i64],
    indent: usize,
    width: usize,
) -> Result<(), AllocError>
    requires { 0 < length numbers.now }
    ensures ok { OnOk result (into.new.items ≡ into.old.items ++ line indent width numbers.now) }
    ensures front { Begins into.old.items into.new.items }
{
    push_bracket(into, indent, b"[")?;
    push_number(into, numbers[0], width)?;
    for i in 1..numbers.len() {
        into.push(b' ')?;
        push_number(into, numbers[i], width)?;
    }
    push_bracket(into, 0, b"]\n")
}

/// Appends an indent and a bracket.
fn push_bracket(into: &mut Vec<u8>, indent: usize, bracket: &[u8]) -> Result<(), AllocError>
    ensures ok { OnOk result (into.new.items ≡ into.old.items ++ (spaces indent ++ bracket.now)) }
    ensures front { Begins into.old.items into.new.items }
{
    push_spaces(into, indent)?;
    into.extend_from_slice(bracket)
}

/// Appends so many rows of `size` elements each from a position on.
fn push_rows(
    into: &mut Vec<u8>,
    elems: &Strided<'_>,
    first: u32,
    rows: u32,
    size: u32,
    indent: usize,
) -> Result<(), AllocError>
    requires some { 0 < size }
    requires within { first + rows * size ≤ length elems.now.elems }
    requires small { first + rows * size < 2 ^ 32 }
    ensures ok { OnOk result (into.new.items ≡ into.old.items
        ++ lines indent rows size (take (rows * size) (drop first elems.now.elems))) }
    ensures front { Begins into.old.items into.new.items }
{
    let block = block_of(*into.allocator(), elems, first, rows * size)?;
    let numbers = block.as_slice();
    let width = widest_of(numbers);
    for row in 0..rows {
        let (start, end) = (row * size, row * size + size);
        push_line(into, &numbers[start as usize..end as usize], indent, width)?;
    }
    Ok(())
}

/// Appends the plane of so many rows of `size` elements each from a position on.
fn push_plane(
    into: &mut Vec<u8>,
    elems: &Strided<'_>,
    first: u32,
    rows: u32,
    size: u32,
    indent: usize,
) -> Result<(), AllocError>
    requires some { 0 < size }
    requires within { first + rows * size ≤ length elems.now.elems }
    requires small { first + rows * size < 2 ^ 32 }
    ensures ok { OnOk result (into.new.items ≡ into.old.items
        ++ bracketed indent (lines (indent + 1) rows size
        (take (rows * size) (drop first elems.now.elems)))) }
    ensures front { Begins into.old.items into.new.items }
{
    push_bracket(into, indent, b"[\n")?;
    push_rows(into, elems, first, rows, size, indent + 1)?;
    push_bracket(into, indent, b"]\n")
}

/// The size of the outermost dimension of so many around the first two, or of the second one.
fn members_of(elems: &Strided<'_>, around: usize) -> u32
    requires { around + 2 ≤ length elems.now.dims }
    ensures { result ≡ get_or elems.now.dims (around + 1) 0 }
{
    dims_list(strided_dims(elems))[around + 1]
}

/// Appends the block of so many elements from a position on: of the first two dimensions and so
/// many dimensions around them.
fn push_block(
    into: &mut Vec<u8>,
    elems: &Strided<'_>,
    first: u32,
    count: u32,
    around: usize,
    indent: usize,
) -> Result<(), AllocError>
    requires dims { around + 2 ≤ length elems.now.dims }
    requires count { count ≡ size_of (take (around + 2) elems.now.dims) }
    requires some { 0 < count }
    requires within { first + count ≤ length elems.now.elems }
    requires small { first + count < 2 ^ 32 }
    requires shallow { around + indent < 2 ^ 32 }
    ensures ok { OnOk result (into.new.items ≡ into.old.items
        ++ block elems.now.dims around indent (take count (drop first elems.now.elems))) }
    ensures front { Begins into.old.items into.new.items }
{
    let members = members_of(elems, around);
    let size = count / members;
    if around == 0 {
        return push_plane(into, elems, first, members, size, indent);
    }
    push_bracket(into, indent, b"[\n")?;
    for member in 0..members {
        push_block(
            into,
            elems,
            first + member * size,
            size,
            around - 1,
            indent + 1,
        )?;
    }
    push_bracket(into, indent, b"]\n")
}

/// Appends a number in decimal.
fn push_size(into: &mut Vec<u8>, size: u32) -> Result<(), AllocError>
    ensures ok { OnOk result (into.new.items ≡ into.old.items ++ decimal size) }
    ensures front { Begins into.old.items into.new.items }
{
    let mut buffer = Buffer::new();
    into.extend_from_slice(buffer.format(size).as_bytes())
}

/// Appends sizes in decimal with a byte between them.
fn push_sizes(into: &mut Vec<u8>, sizes: &[u32], byte: u8) -> Result<(), AllocError>
    ensures ok { OnOk result (into.new.items ≡ into.old.items ++ decimals_joined byte sizes.now) }
    ensures front { Begins into.old.items into.new.items }
{
    let [first, rest @ ..] = sizes else {
        return Ok(());
    };
    push_size(into, *first)?;
    for size in rest {
        into.push(byte)?;
        push_size(into, *size)?;
    }
    Ok(())
}

/// Appends an array's text, with its last newline.
pub fn push_array(into: &mut Vec<u8>, elems: &Strided<'_>) -> Result<(), AllocError>
    ensures ok { OnOk result (into.new.items ≡ into.old.items
        ++ array_text elems.now.dims elems.now.elems) }
    ensures front { Begins into.old.items into.new.items }
{
    let dims = strided_dims(elems);
    let sizes = dims_list(dims);
    let count = elements_of(dims);
    if count == 0 {
        into.extend_from_slice(b"Empty[")?;
        push_sizes(into, sizes, b'x')?;
        into.extend_from_slice(b"]\n")
    } else if count > MOST_PRINTED {
        into.extend_from_slice(b"TOO LONG TO PRINT\n")
    } else {
        push_elements(into, elems, count)
    }
}

/// Appends the text of an array with elements, and not too many of them.
fn push_elements(into: &mut Vec<u8>, elems: &Strided<'_>, count: u32) -> Result<(), AllocError>
    requires count { count ≡ size_of elems.now.dims }
    requires some { 0 < count }
    ensures ok { OnOk result (into.new.items ≡ into.old.items
        ++ elements_text elems.now.dims elems.now.elems) }
    ensures front { Begins into.old.items into.new.items }
{
    let sizes = dims_list(strided_dims(elems));
    if sizes.is_empty() {
        push_number(into, strided_get(elems, 0), 0)?;
        return push_bracket(into, 0, b"\n");
    }
    if sizes.len() == 1 {
        let row = block_of(*into.allocator(), elems, 0, count)?;
        return push_line(into, &row, 0, 0);
    }
    push_bracket(into, 0, b"\n")?;
    push_block(into, elems, 0, count, sizes.len() - 2, 0)
}

/// Appends what `info` tells of an array.
pub fn push_info(into: &mut Vec<u8>, ty: Ty, dims: &Dims) -> Result<(), AllocError>
    ensures ok { OnOk result (into.new.items ≡ into.old.items ++ info ty dims.now) }
    ensures front { Begins into.old.items into.new.items }
{
    into.extend_from_slice(b"PDL: ")?;
    into.extend_from_slice(type_name(ty).as_bytes())?;
    into.extend_from_slice(b" D [")?;
    push_sizes(into, dims_list(dims), b',')?;
    into.push(b']')?;
    Ok(())
}
