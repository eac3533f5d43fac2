//! Copying the elements of an array to where another one shows a root.
ghost use Rattle.std.specs.Prelude.{◌≡◌, ◌+◌, [], true, length, All};
ghost use Rattle.pdl_elem.specs.Types.{InRange};
ghost use Rattle.pdl_shape.specs.Places.{write};
ghost use Rattle.pdl_shape.specs.Shape.{size_of};
ghost use Rattle.pdl_shape.specs.Triple.{Reaches};
ghost use Rattle.pdl_numbers.specs.Writes.{placed_from};
ghost use Rattle.pdl_nodes.specs.Copies.{shown_at};
ghost use Rattle.pdl_nodes.specs.Row.{is_buffered};
ghost use Rattle.pdl_nodes.specs.Rows.{has, row_at};
ghost use Rattle.pdl_nodes.specs.Table.{IsTable, rows_of};

use crate::node::Node;
use pdl_buf::{Buf, Steps, buf_take, copy_shown, strided, strided_is_in_range};
use pdl_numbers::Placement;
use pdl_registry::Numbered;
use pdl_shape::Triple;
use slab::Slab;
use std::sync::ledger::Ledger;

impl Node {
    /// Takes the elements out that are kept, and keeps none.
    pub(crate) fn take_kept(&mut self) -> Buf
        requires buffered { is_buffered self.old ≡ true }
        ensures kept { result ≡ record { ty = self.old.ty; elems = self.old.kept } }
        ensures left { self.new ≡ record self.old { kept = [] } }
    {
        match &mut self.kept {
            Some(kept) => buf_take(kept),
            None => unreachable!(),
        }
    }
}

/// Sets the elements that a triple shows of a buffer to those of an array of the same type and
/// dimensions. It takes a step for each.
pub(crate) fn copy_into<L: Ledger>(
    keys: &Numbered<usize>,
    nodes: &Slab<Node>,
    source: u64,
    to: &Triple,
    into: &mut Buf,
    steps: &mut Steps<L>,
)
    requires table { IsTable keys.now nodes.now }
    requires live { has (rows_of nodes.now keys.now) source ≡ true }
    requires base_live { let rows = rows_of nodes.now keys.now in
        has rows (row_at rows source).base ≡ true }
    requires buffered { let rows = rows_of nodes.now keys.now in
        is_buffered (row_at rows (row_at rows source).base) ≡ true }
    requires source_reaches { let rows = rows_of nodes.now keys.now in
        Reaches (row_at rows source).triple (length (row_at rows (row_at rows source).base).kept) }
    requires same_type { let rows = rows_of nodes.now keys.now in
        (row_at rows (row_at rows source).base).ty ≡ into.old.ty }
    requires same_dims { (row_at (rows_of nodes.now keys.now) source).triple.dims ≡ to.now.dims }
    requires reaches { Reaches to.now (length into.old.elems) }
    ensures value { let places = placed_from to.now 0 (size_of to.now.dims) in
        let values = shown_at (rows_of nodes.now keys.now) source in
        into.new ≡ record into.old { elems = write places values into.old.elems } }
    ensures in_range { All (InRange into.old.ty) (shown_at (rows_of nodes.now keys.now) source) }
    ensures counted { steps.new ≡ steps.old + size_of to.now.dims }
{
    let node = &nodes[keys[source]];
    let base = &nodes[keys[node.base()]];
    let placement = Placement::of(to);
    let from = strided(base.kept(), node.triple());
    strided_is_in_range(&from);
    copy_shown(into, &placement, &from, steps);
}
