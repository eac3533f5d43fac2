//! The lines of roots: zeros, and then the elements piece by piece.
ghost use Rattle.std.specs.Prelude.{◌≡◌, ◌≤◌, ◌<◌, ◌^◌, ◌+◌, ◌∷◌, [], length};
ghost use Rattle.pdl_image.specs.declared.TheConstants.{PART};
ghost use Rattle.pdl_image.specs.Adding.{Adds};
ghost use Rattle.pdl_image.specs.Dump.{filling_lines, least_lines, piece_count, root_lines};

use crate::content::{Content, part_count};
use crate::draft::Draft;
use crate::own::OwnName;
use crate::{ImageFault, PART, PIECE};
use pdl_elem::Ty;
use pdl_shape::Dims;

/// Appends the line that gives an element the least longlong, if it has this number.
fn add_if_least(
    draft: &mut Draft,
    name: &OwnName<'_>,
    position: usize,
    number: i64,
) -> Result<(), ImageFault>
    ensures { Adds draft.old draft.new
        (least_lines name.now position (number ∷ [])) result }
{
    if number != i64::MIN {
        // brings in that the text so far isn't too long
        let _len = draft.len();
        return Ok(());
    }
    draft.add_least(name, position)
}

/// Appends a line for each least longlong among listed elements from a position on.
fn add_listed_leasts(
    draft: &mut Draft,
    name: &OwnName<'_>,
    first: usize,
    numbers: &[i64],
) -> Result<(), ImageFault>
    requires { first + length numbers.now < 2 ^ 32 }
    ensures { Adds draft.old draft.new (least_lines name.now first numbers.now) result }
{
    // brings in that the text so far isn't too long
    let _len = draft.len();
    for (i, number) in numbers.iter().enumerate() {
        add_if_least(draft, name, first + i, *number)?;
    }
    Ok(())
}

/// Appends a line for each least longlong among a part's elements from a position on.
fn add_part_leasts(
    draft: &mut Draft,
    name: &OwnName<'_>,
    first: usize,
    part: &Content<'_>,
) -> Result<(), ImageFault>
    requires short { length part.now ≤ PART }
    requires small { first + length part.now < 2 ^ 32 }
    ensures { Adds draft.old draft.new (least_lines name.now first part.now) result }
{
    let mut room = [0; PART];
    let count = part.len();
    part.read(&mut room[..count]);
    add_listed_leasts(draft, name, first, &room[..count])
}

/// Appends a line for each least longlong among the elements from a position on, part by part.
fn add_leasts(
    draft: &mut Draft,
    name: &OwnName<'_>,
    first: usize,
    numbers: &Content<'_>,
) -> Result<(), ImageFault>
    requires { first + length numbers.now < 2 ^ 32 }
    ensures { Adds draft.old draft.new (least_lines name.now first numbers.now) result }
{
    // brings in that the text so far isn't too long
    let _len = draft.len();
    for p in 0..part_count(numbers.len()) {
        add_part_leasts(draft, name, first + PART * p, &numbers.part(p))?;
    }
    Ok(())
}

/// The same, without a look at numbers of which none can be the least longlong.
fn add_any_leasts(
    draft: &mut Draft,
    name: &OwnName<'_>,
    first: usize,
    numbers: &Content<'_>,
) -> Result<(), ImageFault>
    requires { first + length numbers.now < 2 ^ 32 }
    ensures { Adds draft.old draft.new (least_lines name.now first numbers.now) result }
{
    if !numbers.can_be_least() {
        // brings in that the text so far isn't too long
        let _len = draft.len();
        return Ok(());
    }
    add_leasts(draft, name, first, numbers)
}

/// Appends the lines that fill the elements from a position on.
fn add_piece(
    draft: &mut Draft,
    name: &OwnName<'_>,
    first: usize,
    numbers: &Content<'_>,
) -> Result<(), ImageFault>
    requires { first + length numbers.now < 2 ^ 32 }
    ensures { Adds draft.old draft.new (filling_lines name.now first numbers.now) result }
{
    draft.add_given(name, first, numbers)?;
    add_any_leasts(draft, name, first, numbers)
}

/// How many pieces so many elements have.
fn piece_count(count: usize) -> usize
    requires { count < 2 ^ 31 }
    ensures { result ≡ piece_count count }
{
    (count + (PIECE - 1)) / PIECE
}

/// Appends the lines of a root of these numbers.
pub fn add_root(
    draft: &mut Draft,
    name: &OwnName<'_>,
    ty: Ty,
    dims: &Dims,
    numbers: &Content<'_>,
) -> Result<(), ImageFault>
    ensures { Adds draft.old draft.new
        (root_lines name.now ty dims.now numbers.now) result }
{
    draft.add_zeros(name, ty, dims)?;
    for k in 0..piece_count(numbers.len()) {
        add_piece(draft, name, PIECE * k, &numbers.cut(PIECE * k, PIECE))?;
    }
    Ok(())
}
