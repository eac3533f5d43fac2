//! The elements that an array would have after an assignment, found before anything is changed
//! (PDL::Dataflow).
ghost use Rattle.std.specs.Prelude.{◌≡◌, ◌<◌, ◌≤◌, ◌+◌, ◌++◌, ℕ, ℤ, List, All, IfOk, IsTrue, None, OnOk, Some, drop, get_or, length, take, true};
ghost use Rattle.pdl_elem.specs.Types.{InRange};
ghost use Rattle.pdl_shape.specs.Shape.{extent_limit, size_of};
ghost use Rattle.pdl_world.specs.Sound.{IsSound};
ghost use Rattle.pdl_world.specs.World.{elements, root_elements};
ghost use Rattle.pdl_nodes.specs.Alike.{is_fresh_in};
ghost use Rattle.pdl_nodes.specs.Families.{InOrder};
ghost use Rattle.pdl_nodes.specs.Known.{AreKnown};
ghost use Rattle.pdl_nodes.specs.Placed.{in_order, placed_by};
ghost use Rattle.pdl_nodes.specs.Rows.{has, row_at};
ghost use Rattle.pdl_nodes.specs.Worlds.{world_of};
ghost use Rattle.pdl_engine.specs.Foresights.{CanForetell, Foretells, IsForeseen, IsUnwritten, Tells, elements_after};

use crate::by_place::{Written, is_little};
use pdl_buf::{Strided, strided, strided_dims, strided_read};
use pdl_choice::Places;
use pdl_nodes::{Table, placed, row_laws};
use pdl_numbers::Placement;
use pdl_shape::{Triple, elements_of, shape_laws};
use pdl_world::{assignment_laws, growth_laws};
use std::alloc::{AllocError, Global};

/// What an assignment will write: the root of the array that is assigned to, and the values by the
/// root's places. It is made once, and tells of any array what it shows afterwards.
#[derive(Drop)]
pub struct Foresight {
    root: u64,
    written: Written,
}

impl Foresight {
    /// The root of the array that is assigned to.
    pub(crate) fn root(&self) -> u64
        ensures { result ≡ self.now.root }
    {
        self.root
    }
}

/// What an array shows before an assignment and after it.
#[derive(Drop)]
pub struct Foreseen {
    /// The elements that it has, in the order of its positions.
    pub before: Vec<i64>,
    /// The elements that it will have.
    pub after: Vec<i64>,
}

/// The root's place of a position that a placement shows over a base, of which these are the root's
/// places.
fn root_place(known: &Option<Places>, placement: &Placement, position: u32) -> Option<u32>
    requires { position < size_of placement.now.dims }
    ensures { result ≡ get_or (placed_by known.now placement.now) position None }
{
    placed(known, placement.place(position))
}

/// The elements at the positions that a triple shows over a base, after what is written, where they
/// were these before.
fn shown_after(
    alloc: Global,
    written: &Written,
    known: &Option<Places>,
    triple: &Triple,
    before: &[i64],
) -> Result<Vec<i64>, AllocError>
    requires { length before.now ≡ size_of triple.now.dims }
    ensures { IfOk result (λ ns. ns.items
        ≡ elements_after written.now (placed_by known.now triple.now) before.now) }
{
    let count = elements_of(&triple.dims);
    let placement = Placement::of(triple);
    let mut numbers = Vec::with_capacity(alloc, count as usize)?;
    'reading: for position in 0..count {
        let place = root_place(known, &placement, position);
        numbers.push(written.element_after(place, before[position as usize]))?;
    }
    Ok(numbers)
}

/// What an array shows after what is written, where it showed these elements before. An image is
/// what its root shows.
fn elements_left(
    alloc: Global,
    written: &Written,
    known: &Option<Places>,
    triple: &Triple,
    before: &[i64],
    is_root: bool,
) -> Result<Vec<i64>, AllocError>
    requires count { length before.now ≡ size_of triple.now.dims }
    requires whole { IsTrue is_root →
        placed_by known.now triple.now ≡ in_order (length before.now) }
    ensures { IfOk result (λ ns. ns.items
        ≡ elements_after written.now (placed_by known.now triple.now) before.now) }
{
    match written {
        Written::Image(image) if is_root && image.len() == before.len() => {
            Vec::from_slice(alloc, image)
        }
        _ => shown_after(alloc, written, known, triple, before),
    }
}

/// How many elements are read at a time. Room for so many is still in the processor's cache when they
/// are read into it.
const READ: usize = 1024;

/// Puts so many of the window's elements after those that are read already.
fn read_more(window: &Strided<'_>, numbers: &mut Vec<i64>, count: usize) -> Result<(), AllocError>
    requires within { length numbers.old.items + count ≤ length window.now.elems }
    requires few { length window.now.elems ≤ extent_limit }
    ensures items { let next = take count (drop (length numbers.old.items) window.now.elems) in
        OnOk result (numbers.new.items ≡ numbers.old.items ++ next) }
    ensures in_range { let next = take count (drop (length numbers.old.items) window.now.elems) in
        OnOk result (All (InRange window.now.ty) next) }
{
    let start = numbers.len();
    numbers.resize(start + count, 0)?;
    strided_read(window, start as u32, &mut numbers[start..]);
    Ok(())
}

/// The elements that a window shows, which are so many, read block by block.
#[inline(never)]
fn many_shown(alloc: Global, window: &Strided<'_>, count: usize) -> Result<Vec<i64>, AllocError>
    requires counted { count ≡ length window.now.elems }
    requires few { count ≤ extent_limit }
    ensures items { IfOk result (λ ns. ns.items ≡ window.now.elems) }
    ensures in_range { IfOk result (λ ns. All (InRange window.now.ty) ns.items) }
{
    let mut numbers = Vec::with_capacity(alloc, count)?;
    while numbers.len() < count {
        let more = READ.min(count - numbers.len());
        read_more(window, &mut numbers, more)?;
    }
    Ok(numbers)
}

/// The elements that a window shows. Those of one block are read at once.
pub fn all_shown(alloc: Global, window: &Strided<'_>) -> Result<Vec<i64>, AllocError>
    ensures items { IfOk result (λ ns. ns.items ≡ window.now.elems) }
    ensures in_range { IfOk result (λ ns. All (InRange window.now.ty) ns.items) }
    ensures count { IfOk result (λ ns. length ns.items ≡ size_of window.now.dims) }
{
    let count = elements_of(strided_dims(window)) as usize;
    if READ < count {
        return many_shown(alloc, window, count);
    }
    let mut numbers = vec![in alloc; 0; count]?;
    strided_read(window, 0, &mut numbers);
    Ok(numbers)
}

/// The elements of an array that can be lent.
fn elements_now(table: &Table, alloc: Global, id: u64) -> Result<Vec<i64>, AllocError>
    requires order { InOrder table.now }
    requires live { has table.now id ≡ true }
    requires fresh { is_fresh_in table.now id ≡ true }
    ensures items { IfOk result (λ ns. ns.items ≡ elements (world_of table.now) id) }
    ensures count { let dims = (row_at table.now id).triple.dims in
        IfOk result (λ ns. length ns.items ≡ size_of dims) }
{
    row_laws();
    shape_laws();
    let node = table.node(id);
    let base = table.base_of(id, node);
    all_shown(alloc, &strided(base.kept(), node.triple()))
}

/// What is known of the elements of an array's root before values are assigned to the array: an
/// image of them, if the array is shown over them and much is written or looked up, and else
/// nothing. So many elements are to be looked up beside the array's own.
fn unwritten(table: &Table, alloc: Global, id: u64, lookups: u64) -> Result<Written, AllocError>
    requires order { InOrder table.now }
    requires live { has table.now id ≡ true }
    requires fresh { is_fresh_in table.now id ≡ true }
    ensures { let root = (row_at table.now id).root in
        IfOk result (IsUnwritten (root_elements (world_of table.now) root)) }
{
    row_laws();
    let node = table.node(id);
    let root = node.root();
    let size = elements_of(&table.node(root).triple().dims);
    let uses = lookups.saturating_add(u64::from(elements_of(&node.triple().dims)));
    if node.base() != root || is_little(size, uses) {
        let nothing = Written::nothing(alloc, size, uses)?;
        return Ok(nothing);
    }
    let image = elements_now(table, alloc, root)?;
    Ok(Written::Image(image))
}

/// What values leave of the elements of an array's root, one for each position that a triple shows
/// over a base, in rising order, where so many elements are to be looked up.
fn written_by(
    table: &Table,
    alloc: Global,
    id: u64,
    known: &Option<Places>,
    triple: &Triple,
    values: &[i64],
    lookups: u64,
) -> Result<Written, AllocError>
    requires order { InOrder table.now }
    requires live { has table.now id ≡ true }
    requires fresh { is_fresh_in table.now id ≡ true }
    requires count { length values.now ≡ size_of triple.now.dims }
    ensures { let es = root_elements (world_of table.now) (row_at table.now id).root in
        IfOk result (λ w. Tells es w (placed_by known.now triple.now) values.now) }
{
    let count = elements_of(&triple.dims);
    let placement = Placement::of(triple);
    let mut written = unwritten(table, alloc, id, lookups)?;
    'writing: for position in 0..count {
        let place = root_place(known, &placement, position);
        written.put(place, values[position as usize])?;
    }
    Ok(written)
}

/// What an assignment of these values to an array that can be lent will write, where so many
/// elements are to be foreseen by it.
pub(crate) fn foretell(
    table: &Table,
    alloc: Global,
    target: u64,
    values: &[i64],
    lookups: u64,
) -> Result<Foresight, AllocError>
    requires { CanForetell table.now target values.now }
    ensures { IfOk result (Foretells (world_of table.now) target values.now) }
{
    row_laws();
    let node = table.node(target);
    let base = table.base_of(target, node);
    let root = node.root();
    if root == target {
        let written = Written::Image(Vec::from_slice(alloc, values)?);
        return Ok(Foresight { root, written });
    }
    let written = written_by(
        table,
        alloc,
        target,
        base.places(),
        node.triple(),
        values,
        lookups,
    )?;
    Ok(Foresight { root, written })
}

/// What an array that can be lent shows before an assignment to an array of its root and after it.
pub(crate) fn foresee(
    table: &Table,
    alloc: Global,
    foresight: &Foresight,
    seen: u64,
) -> Result<Foreseen, AllocError>
    requires order { InOrder table.now }
    requires known { AreKnown table.now }
    requires sound { IsSound (world_of table.now) }
    requires live { has table.now seen ≡ true }
    requires fresh { is_fresh_in table.now seen ≡ true }
    requires family { foresight.now.root ≡ (row_at table.now seen).root }
    ensures value { (v : ℕ) → (vs : List ℤ) → Foretells (world_of table.now) v vs foresight.now
        → IfOk result (λ f. IsForeseen (world_of table.now) v vs seen (Some f)) }
    ensures alike { IfOk result (λ f. length f.after.items ≡ length f.before.items) }
{
    row_laws();
    assignment_laws();
    growth_laws();
    let before = elements_now(table, alloc, seen)?;
    let node = table.node(seen);
    let base = table.base_of(seen, node);
    let after = elements_left(
        alloc,
        &foresight.written,
        base.places(),
        node.triple(),
        &before,
        node.root() == seen,
    )?;
    Ok(Foreseen { before, after })
}
