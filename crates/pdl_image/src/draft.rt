//! The text of a dump while it is written, line by line.
ghost use Rattle.std.specs.Prelude.{◌≡◌, ◌≤◌, ◌<◌, ◌^◌, ◌+◌, ◌∷◌, [], length, map, take, OnErr, OnOk};
ghost use Rattle.pdl_image.specs.Adding.{Adds, Writes};
ghost use Rattle.pdl_image.specs.Dump.{affine_call, as_listed, edge_number, given_lines};
ghost use Rattle.pdl_image.specs.Lines.{Line, chosen, kernel_line, least_line, line_text, ranged, root_line, same_line, undef_line, view_line};

use crate::content::Content;
use crate::given::is_any_given;
use crate::lines::{
    write_affine, write_chosen, write_kernel, write_least, write_piece, write_ranged, write_root,
    write_same, write_undef,
};
use crate::own::OwnName;
use crate::page::Page;
use crate::{ImageFault, LONGEST_DUMP};
use pdl_affine::Affine;
use pdl_choice::Edge;
use pdl_elem::Ty;
use pdl_lex::STATEMENT_LIMIT;
use pdl_shape::Dims;
use std::alloc::{AllocError, Global};
use std::marker::Model;

/// The text of a dump so far. It is seen as the text.
///
/// A line is refused with `TooLong` where it is too long behind the text, and nowhere else. Where
/// memory runs out before that is known, it is refused with `NoMemory`.
#[derive(Drop)]
pub struct Draft {
    page: Page,
}

impl Model for Draft {
    ghost use Rattle.std.specs.Prelude.{◌≤◌, List, ℕ, length};
    ghost use Rattle.pdl_image.specs.declared.TheConstants.{LONGEST_DUMP};

    ghost Value = { List ℕ };

    ghost view = { λ d. d.page.text };

    ghost invariant = { λ d. length d.page.text ≤ LONGEST_DUMP };
}

/// Appends the line that was made and its end, if there was memory to make it and there is room for
/// it in the text.
fn keep_line(page: &mut Page, made: Result<(), AllocError>) -> Result<(), ImageFault>
    requires { length page.old.text ≤ LONGEST_DUMP }
    ensures adds { (l : Line) → OnOk made (page.old.line ≡ line_text l) →
        Adds page.old.text page.new.text (l ∷ []) result }
    ensures room { length page.new.text ≤ LONGEST_DUMP }
    ensures err { OnErr result (page.new.text ≡ page.old.text) }
{
    made?;
    let len = page.line_len();
    if STATEMENT_LIMIT < len || LONGEST_DUMP - page.text_len() < len + 2 {
        return Err(ImageFault::TooLong);
    }
    page.extend(b";\n")?;
    page.keep();
    Ok(())
}

impl Draft {
    /// The empty text.
    pub fn new(alloc: Global) -> Draft
        ensures { result ≡ [] }
    {
        Draft {
            page: Page::new(alloc),
        }
    }

    /// How many bytes the text has.
    pub fn len(&self) -> usize
        ensures count { result ≡ length self.now }
        ensures room { length self.now ≤ LONGEST_DUMP }
    {
        self.page.text_len()
    }

    /// Takes back what stands past the mark.
    pub fn truncate(&mut self, mark: usize)
        ensures { self.new ≡ take mark self.old }
    {
        self.page.truncate(mark);
    }

    /// The text of all lines that were appended and not taken back.
    pub fn into_text(self) -> Vec<u8>
        ensures { result.items ≡ self }
    {
        let Draft { page } = self;
        page.into_text()
    }

    /// Appends the line that defines a kernel.
    pub fn add_kernel(
        &mut self,
        name: &[u8],
        signature: &[u8],
        code: &[u8],
    ) -> Result<(), ImageFault>
        ensures { Writes self.old self.new
            (kernel_line name.now signature.now code.now ∷ []) result }
    {
        let made = write_kernel(&mut self.page, name, signature, code);
        keep_line(&mut self.page, made)
    }

    /// Appends the line that makes an array of zeros.
    pub fn add_zeros(&mut self, name: &OwnName<'_>, ty: Ty, dims: &Dims) -> Result<(), ImageFault>
        ensures { Adds self.old self.new (root_line name.now ty dims.now ∷ []) result }
    {
        let made = write_root(&mut self.page, name, ty, dims);
        keep_line(&mut self.page, made)
    }

    /// Appends the line that gives numbers to the elements from a position on, as they stand in a
    /// list, unless all of these are 0.
    pub fn add_given(
        &mut self,
        name: &OwnName<'_>,
        first: usize,
        numbers: &Content<'_>,
    ) -> Result<(), ImageFault>
        requires { first + length numbers.now < 2 ^ 32 }
        ensures { Adds self.old self.new
            (given_lines name.now first (map as_listed numbers.now)) result }
    {
        if !is_any_given(numbers) {
            // brings in that the text so far isn't too long
            let _len = self.len();
            return Ok(());
        }
        let made = write_piece(&mut self.page, name, first, numbers);
        keep_line(&mut self.page, made)
    }

    /// Appends the line that gives an element the least longlong.
    pub fn add_least(&mut self, name: &OwnName<'_>, position: usize) -> Result<(), ImageFault>
        ensures { Adds self.old self.new (least_line name.now position ∷ []) result }
    {
        let made = write_least(&mut self.page, name, position);
        keep_line(&mut self.page, made)
    }

    /// Appends the line of an affine view.
    pub fn add_affine(
        &mut self,
        name: &OwnName<'_>,
        parent: &OwnName<'_>,
        affine: &Affine,
    ) -> Result<(), ImageFault>
        ensures { Adds self.old self.new
            (view_line name.now parent.now (affine_call affine.now) ∷ []) result }
    {
        let made = write_affine(&mut self.page, name, parent, affine);
        keep_line(&mut self.page, made)
    }

    /// Appends the line of a view by the array that chooses.
    pub fn add_chosen(
        &mut self,
        name: &OwnName<'_>,
        parent: &OwnName<'_>,
        word: &[u8],
        index: &OwnName<'_>,
    ) -> Result<(), ImageFault>
        ensures { Adds self.old self.new
            (view_line name.now parent.now (chosen word.now index.now) ∷ []) result }
    {
        let made = write_chosen(&mut self.page, name, parent, word, index);
        keep_line(&mut self.page, made)
    }

    /// Appends the line of a view of windows.
    pub fn add_ranged(
        &mut self,
        name: &OwnName<'_>,
        parent: &OwnName<'_>,
        index: &OwnName<'_>,
        sizes: &[i64],
        edge: Edge,
    ) -> Result<(), ImageFault>
        ensures { Adds self.old self.new
            (view_line name.now parent.now
            (ranged index.now sizes.now (edge_number edge)) ∷ []) result }
    {
        let made = write_ranged(&mut self.page, name, parent, index, sizes, edge);
        keep_line(&mut self.page, made)
    }

    /// Appends the line that gives another name to an array.
    pub fn add_same(&mut self, name: &[u8], other: &OwnName<'_>) -> Result<(), ImageFault>
        ensures { Writes self.old self.new (same_line name.now other.now ∷ []) result }
    {
        let made = write_same(&mut self.page, name, other);
        keep_line(&mut self.page, made)
    }

    /// Appends the line that ends a name.
    pub fn add_undef(&mut self, name: &OwnName<'_>) -> Result<(), ImageFault>
        ensures { Adds self.old self.new (undef_line name.now ∷ []) result }
    {
        let made = write_undef(&mut self.page, name);
        keep_line(&mut self.page, made)
    }
}
