//! The names of a dump's own.
ghost use Rattle.std.specs.Prelude.{◌≡◌, ◌++◌, OnOk};
ghost use Rattle.pdl_image.specs.Adding.{own_end};
ghost use Rattle.pdl_image.specs.Stems.{index_name, name_at};

use crate::numbers::push_count;
use crate::page::Page;
use std::alloc::AllocError;
use std::marker::Model;

/// A name of the dump's own, seen as its bytes. These are made where they stand in a line, so it
/// takes no memory.
#[derive(Drop)]
pub struct OwnName<'a> {
    stem: &'a [u8],
    // the number of an array, and none for what a view chooses by
    number: Option<u64>,
}

impl<'a> Model for OwnName<'a> {
    ghost use Rattle.std.specs.Prelude.{List, ℕ, ◌++◌};
    ghost use Rattle.pdl_image.specs.Adding.{own_end};

    ghost Value = { List ℕ };

    ghost view = { λ n. n.stem.now ++ own_end n.number };
}

impl<'a> OwnName<'a> {
    /// The name of the array with a number.
    pub fn array(stem: &'a [u8], k: u64) -> OwnName<'a>
        ensures { result ≡ name_at stem.now k }
    {
        OwnName {
            stem,
            number: Some(k),
        }
    }

    /// The name of the array that a view chooses by.
    pub fn index(stem: &'a [u8]) -> OwnName<'a>
        ensures { result ≡ index_name stem.now }
    {
        OwnName { stem, number: None }
    }

    /// Appends it to the line.
    pub fn push(&self, page: &mut Page) -> Result<(), AllocError>
        ensures line { OnOk result (page.new.line ≡ page.old.line ++ self.now) }
        ensures text { page.new.text ≡ page.old.text }
    {
        page.extend(self.stem)?;
        push_end(page, self.number)
    }

    /// Begins the line with it, in place of what was there before.
    pub fn begin(&self, page: &mut Page) -> Result<(), AllocError>
        ensures line { OnOk result (page.new.line ≡ self.now) }
        ensures text { page.new.text ≡ page.old.text }
    {
        page.begin(self.stem)?;
        push_end(page, self.number)
    }
}

/// Appends what stands behind the stem.
fn push_end(page: &mut Page, number: Option<u64>) -> Result<(), AllocError>
    ensures line { OnOk result (page.new.line ≡ page.old.line ++ own_end number) }
    ensures text { page.new.text ≡ page.old.text }
{
    match number {
        Some(k) => push_count(page, k),
        None => page.push(b'i'),
    }
}
