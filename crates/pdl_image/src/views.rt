//! The lines of views.
ghost use Rattle.std.specs.Prelude.{◌<◌, ◌^◌, ◌∷◌, [], length, IsTrue};
ghost use Rattle.pdl_choice.specs.Where.{rises};
ghost use Rattle.pdl_shape.specs.Shape.{size_of};
ghost use Rattle.pdl_world.specs.declared.Trans.TheVariants as trans;
ghost use Rattle.pdl_world.specs.Formula.{is_well_formed};
ghost use Rattle.pdl_image.specs.Adding.{Adds};
ghost use Rattle.pdl_image.specs.Dump.{edge_number, undef_lines, view_lines};
ghost use Rattle.pdl_image.specs.Lines.{chosen, ranged, undef_line, view_line};

use crate::ImageFault;
use crate::content::Content;
use crate::draft::Draft;
use crate::own::OwnName;
use crate::pieces::add_root;
use pdl_choice::Edge;
use pdl_elem::Ty;
use pdl_shape::{Dims, elements_of};
use pdl_world::Trans;

/// Appends the line of a view by an array that chooses, and the line that ends the name of this.
fn add_choice(
    draft: &mut Draft,
    name: &OwnName<'_>,
    parent: &OwnName<'_>,
    word: &[u8],
    by: &OwnName<'_>,
) -> Result<(), ImageFault>
    ensures { let view = view_line name.now parent.now (chosen word.now by.now) in
        Adds draft.old draft.new (view ∷ undef_line by.now ∷ []) result }
{
    draft.add_chosen(name, parent, word, by)?;
    draft.add_undef(by)
}

/// Appends the lines of a view by an index.
fn add_index(
    draft: &mut Draft,
    name: &OwnName<'_>,
    parent: &OwnName<'_>,
    index: &OwnName<'_>,
    dims: &Dims,
    ind: &[i64],
) -> Result<(), ImageFault>
    requires { length ind.now < 2 ^ 31 }
    ensures { Adds draft.old draft.new
        (view_lines name.now parent.now index.now (trans.Index dims.now ind.now)) result }
{
    add_root(draft, index, Ty::Longlong, dims, &Content::listed(ind))?;
    add_choice(draft, name, parent, b"index", index)
}

/// Appends the lines of a view by a mask.
fn add_where(
    draft: &mut Draft,
    name: &OwnName<'_>,
    parent: &OwnName<'_>,
    index: &OwnName<'_>,
    dims: &Dims,
    places: &[u32],
) -> Result<(), ImageFault>
    requires { IsTrue (rises 0 (size_of dims.now) places.now) }
    ensures { Adds draft.old draft.new
        (view_lines name.now parent.now index.now (trans.Where dims.now places.now)) result }
{
    let mask = Content::marked(elements_of(dims) as usize, places);
    add_root(draft, index, Ty::Byte, dims, &mask)?;
    add_choice(draft, name, parent, b"where", index)
}

/// The corners of windows, their sizes, and what stands beyond the edges.
#[derive(Drop)]
struct Windows<'a> {
    dims: &'a Dims,
    ind: &'a [i64],
    sizes: &'a [i64],
    edge: Edge,
}

/// Appends the line of a view of windows, and the line that ends the name of their corners.
fn add_windows(
    draft: &mut Draft,
    name: &OwnName<'_>,
    parent: &OwnName<'_>,
    index: &OwnName<'_>,
    windows: &Windows<'_>,
) -> Result<(), ImageFault>
    ensures { let call = ranged index.now windows.now.sizes.now (edge_number windows.now.edge) in
        let view = view_line name.now parent.now call in
        Adds draft.old draft.new (view ∷ undef_line index.now ∷ []) result }
{
    draft.add_ranged(name, parent, index, windows.sizes, windows.edge)?;
    draft.add_undef(index)
}

/// Appends the lines of a view of windows.
fn add_range(
    draft: &mut Draft,
    name: &OwnName<'_>,
    parent: &OwnName<'_>,
    index: &OwnName<'_>,
    windows: &Windows<'_>,
) -> Result<(), ImageFault>
    requires { length windows.now.ind.now < 2 ^ 31 }
    ensures { Adds draft.old draft.new
        (view_lines name.now parent.now index.now (trans.Range windows.now.dims.now
        windows.now.ind.now windows.now.sizes.now windows.now.edge)) result }
{
    let corners = Content::listed(windows.ind);
    add_root(draft, index, Ty::Longlong, windows.dims, &corners)?;
    add_windows(draft, name, parent, index, windows)
}

/// Appends the lines of a view.
pub fn add_view(
    draft: &mut Draft,
    name: &OwnName<'_>,
    parent: &OwnName<'_>,
    index: &OwnName<'_>,
    trans: &Trans,
) -> Result<(), ImageFault>
    requires { IsTrue (is_well_formed trans.now) }
    ensures { Adds draft.old draft.new
        (view_lines name.now parent.now index.now trans.now) result }
{
    match trans {
        Trans::Affine(affine) => draft.add_affine(name, parent, affine),
        Trans::Index { dims, ind } => {
            let _count = elements_of(dims);
            add_index(draft, name, parent, index, dims, ind.as_slice())
        }
        Trans::Where { dims, places } => {
            add_where(draft, name, parent, index, dims, places.as_slice())
        }
        Trans::Range {
            dims,
            ind,
            sizes,
            edge,
        } => {
            let _count = elements_of(dims);
            let windows = Windows {
                dims,
                ind: ind.as_slice(),
                sizes: sizes.as_slice(),
                edge: *edge,
            };
            add_range(draft, name, parent, index, &windows)
        }
    }
}

/// Appends the lines that end the names of so many arrays.
pub fn add_undefs(draft: &mut Draft, stem: &[u8], count: u64) -> Result<(), ImageFault>
    ensures { Adds draft.old draft.new (undef_lines stem.now count) result }
{
    // brings in that the text so far isn't too long
    let _len = draft.len();
    for k in 0..count {
        draft.add_undef(&OwnName::array(stem, k))?;
    }
    Ok(())
}
