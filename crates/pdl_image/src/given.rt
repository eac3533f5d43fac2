//! Whether a list of numbers is to be written.
ghost use Rattle.std.specs.Prelude.{◌≡◌, ◌≤◌, length};
ghost use Rattle.std.specs.List.{list_any};
ghost use Rattle.pdl_choice.specs.Where.{is_set};
ghost use Rattle.pdl_image.specs.declared.TheConstants.{PART};
ghost use Rattle.pdl_image.specs.Dump.{as_listed};

use crate::PART;
use crate::content::{Content, part_count};
use crate::numbers::as_listed;

/// Whether a number isn't 0 as it stands in a list.
fn is_given(number: i64) -> bool
    ensures { result ≡ is_set (as_listed number) }
{
    as_listed(number) != 0
}

/// Whether some number of a list isn't 0 as it stands in a list.
fn has_given(numbers: &[i64]) -> bool
    ensures { result ≡ list_any (λ n. is_set (as_listed n)) numbers.now }
{
    numbers.iter().any(|number| is_given(*number))
}

/// Whether some number of a part isn't 0 as it stands in a list.
fn part_has_given(part: &Content<'_>) -> bool
    requires { length part.now ≤ PART }
    ensures { result ≡ list_any (λ n. is_set (as_listed n)) part.now }
{
    let mut room = [0; PART];
    let count = part.len();
    part.read(&mut room[..count]);
    has_given(&room[..count])
}

/// Whether some number isn't 0 as it stands in a list.
pub fn is_any_given(numbers: &Content<'_>) -> bool
    ensures { result ≡ list_any (λ n. is_set (as_listed n)) numbers.now }
{
    for p in 0..part_count(numbers.len()) {
        if part_has_given(&numbers.part(p)) {
            return true;
        }
    }
    false
}
