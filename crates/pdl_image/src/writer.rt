//! The writer of a dump.
ghost use Rattle.std.specs.Prelude.{◌≡◌, ◌≤◌, ◌∷◌, ◌++◌, [], true, false, IfErr, IfOk, IsTrue, OnErr, OnOk, length, take};
ghost use Rattle.pdl_world.specs.Formula.{is_well_formed};
ghost use Rattle.pdl_image.specs.Adding.{Writes};
ghost use Rattle.pdl_image.specs.Dump.{is_too_long, root_lines, undef_lines, view_lines};
ghost use Rattle.pdl_image.specs.Image.{with_array, with_lines};
ghost use Rattle.pdl_image.specs.Lines.{kernel_line, same_line, script_of};
ghost use Rattle.pdl_image.specs.Stems.{index_name, name_at};

use crate::ImageFault;
use crate::content::Content;
use crate::draft::Draft;
use crate::own::OwnName;
use crate::pieces::add_root;
use crate::views::{add_undefs, add_view};
use pdl_buf::{Strided, strided_dims, strided_type};
use pdl_elem::{Name, Text};
use pdl_world::Trans;
use std::alloc::Global;
use std::marker::Model;

/// Writes a dump, a call for each kernel, then for each array with the numbers 0, 1, 2 and so on,
/// then for each name, and then the end. It is seen as the stem of its names, the number of its
/// arrays, and its text.
///
/// A call is refused with `TooLong` exactly where its lines are too long behind the text, and then
/// the text is as before; so it is where memory has run out.
#[derive(Drop)]
pub struct ImageWriter {
    stem: Name,
    arrays: u64,
    draft: Draft,
}

impl Model for ImageWriter {
    ghost use Rattle.std.specs.Prelude.{◌≤◌, length};
    ghost use Rattle.pdl_image.specs.declared.TheConstants.{LONGEST_DUMP};
    ghost use Rattle.pdl_image.specs.Image.{Image};

    ghost Value = { Image };

    ghost view = { λ w. record { stem = w.stem; arrays = w.arrays; text = w.draft } };

    ghost invariant = { λ w. (w.arrays ≤ length w.draft) × (length w.draft ≤ LONGEST_DUMP) };
}

/// Takes back what stands past the mark where lines were refused.
fn settled(draft: &mut Draft, mark: usize, done: Result<(), ImageFault>) -> Result<(), ImageFault>
    ensures result { result ≡ done }
    ensures ok { OnOk done (draft.new ≡ draft.old) }
    ensures err { OnErr done (draft.new ≡ take mark draft.old) }
{
    if done.is_err() {
        draft.truncate(mark);
    }
    done
}

/// Appends the lines of a root, or none.
fn add_whole_root(
    draft: &mut Draft,
    name: &OwnName<'_>,
    elems: &Strided<'_>,
) -> Result<(), ImageFault>
    ensures { let lines = root_lines name.now elems.now.ty elems.now.dims elems.now.elems in
        Writes draft.old draft.new lines result }
{
    let mark = draft.len();
    let numbers = Content::shown(elems);
    let done = add_root(
        draft,
        name,
        strided_type(elems),
        strided_dims(elems),
        &numbers,
    );
    settled(draft, mark, done)
}

/// Appends the lines of a view, or none.
fn add_whole_view(
    draft: &mut Draft,
    name: &OwnName<'_>,
    parent: &OwnName<'_>,
    index: &OwnName<'_>,
    trans: &Trans,
) -> Result<(), ImageFault>
    requires { IsTrue (is_well_formed trans.now) }
    ensures { let lines = view_lines name.now parent.now index.now trans.now in
        Writes draft.old draft.new lines result }
{
    let mark = draft.len();
    let done = add_view(draft, name, parent, index, trans);
    settled(draft, mark, done)
}

impl ImageWriter {
    /// No line was written. The stem is one that no bound name begins with.
    pub fn new(alloc: Global, stem: Name) -> ImageWriter
        ensures { result ≡ record { stem = stem; arrays = 0; text = [] } }
    {
        ImageWriter {
            stem,
            arrays: 0,
            draft: Draft::new(alloc),
        }
    }

    /// Writes the definition of a kernel, by its name and its two texts.
    pub fn kernel(&mut self, name: &Name, signature: &Text, code: &Text) -> Result<(), ImageFault>
        ensures ok { let lines = kernel_line name.now signature.now code.now ∷ [] in
            OnOk result (self.new ≡ with_lines self.old lines) }
        ensures fits { let lines = kernel_line name.now signature.now code.now ∷ [] in
            OnOk result (is_too_long self.old.text lines ≡ false) }
        ensures err { OnErr result (self.new ≡ self.old) }
        ensures refused { let lines = kernel_line name.now signature.now code.now ∷ [] in
            IfErr result (λ f. f ≡ ImageFault.TooLong → is_too_long self.old.text lines ≡ true) }
    {
        self.draft
            .add_kernel(name.bytes(), signature.bytes(), code.bytes())
    }

    /// Writes the root with a number: its type, its dimensions and its elements.
    pub fn root(&mut self, id: u64, elems: &Strided<'_>) -> Result<(), ImageFault>
        ensures ok { let lines = root_lines (name_at self.old.stem id) elems.now.ty elems.now.dims
            elems.now.elems in OnOk result (self.new ≡ with_array self.old lines) }
        ensures fits { let lines = root_lines (name_at self.old.stem id) elems.now.ty elems.now.dims
            elems.now.elems in OnOk result (is_too_long self.old.text lines ≡ false) }
        ensures err { OnErr result (self.new ≡ self.old) }
        ensures refused { let lines = root_lines (name_at self.old.stem id) elems.now.ty elems.now.dims
            elems.now.elems in
            IfErr result (λ f. f ≡ ImageFault.TooLong → is_too_long self.old.text lines ≡ true) }
    {
        let name = OwnName::array(self.stem.bytes(), id);
        add_whole_root(&mut self.draft, &name, elems)?;
        self.arrays += 1;
        Ok(())
    }

    /// Writes the view with a number, of the array with another number.
    pub fn view(&mut self, id: u64, parent: u64, trans: &Trans) -> Result<(), ImageFault>
        requires { IsTrue (is_well_formed trans.now) }
        ensures ok { let lines = view_lines (name_at self.old.stem id)
            (name_at self.old.stem parent) (index_name self.old.stem) trans.now in
            OnOk result (self.new ≡ with_array self.old lines) }
        ensures fits { let lines = view_lines (name_at self.old.stem id)
            (name_at self.old.stem parent) (index_name self.old.stem) trans.now in
            OnOk result (is_too_long self.old.text lines ≡ false) }
        ensures err { OnErr result (self.new ≡ self.old) }
        ensures refused { let lines = view_lines (name_at self.old.stem id)
            (name_at self.old.stem parent) (index_name self.old.stem) trans.now in
            IfErr result (λ f. f ≡ ImageFault.TooLong → is_too_long self.old.text lines ≡ true) }
    {
        let stem = self.stem.bytes();
        let name = OwnName::array(stem, id);
        let other = OwnName::array(stem, parent);
        add_whole_view(&mut self.draft, &name, &other, &OwnName::index(stem), trans)?;
        self.arrays += 1;
        Ok(())
    }

    /// Writes a bound name, with the number of its array.
    pub fn name(&mut self, name: &Name, id: u64) -> Result<(), ImageFault>
        ensures ok { let lines = same_line name.now (name_at self.old.stem id) ∷ [] in
            OnOk result (self.new ≡ with_lines self.old lines) }
        ensures fits { let lines = same_line name.now (name_at self.old.stem id) ∷ [] in
            OnOk result (is_too_long self.old.text lines ≡ false) }
        ensures err { OnErr result (self.new ≡ self.old) }
        ensures refused { let lines = same_line name.now (name_at self.old.stem id) ∷ [] in
            IfErr result (λ f. f ≡ ImageFault.TooLong → is_too_long self.old.text lines ≡ true) }
    {
        let other = OwnName::array(self.stem.bytes(), id);
        self.draft.add_same(name.bytes(), &other)
    }

    /// Writes the ends of the arrays' own names, and gives the whole text. A refusal gives up the
    /// writer.
    pub fn end(self) -> Result<Vec<u8>, ImageFault>
        ensures ok { IfOk result (λ bytes. bytes.items
            ≡ self.text ++ script_of (undef_lines self.stem self.arrays)) }
        ensures fits { OnOk result
            (is_too_long self.text (undef_lines self.stem self.arrays) ≡ false) }
        ensures refused { IfErr result (λ f. f ≡ ImageFault.TooLong →
            is_too_long self.text (undef_lines self.stem self.arrays) ≡ true) }
    {
        let ImageWriter {
            stem,
            arrays,
            mut draft,
        } = self;
        add_undefs(&mut draft, stem.bytes(), arrays)?;
        Ok(draft.into_text())
    }
}
