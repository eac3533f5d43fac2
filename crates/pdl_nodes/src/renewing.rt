//! What becomes of one node where an array of its family becomes a root.
ghost use Rattle.std.specs.Prelude.{◌≡◌, is_some, true};
ghost use Rattle.pdl_nodes.specs.Joined.{LaidOver, shown_row};
ghost use Rattle.pdl_nodes.specs.Renewed.{with_layout};
ghost use Rattle.pdl_nodes.specs.Row.{parent_of, root_row};

use crate::apart::Apart;
use crate::node::{Node, Shown};
use crate::origin::Layout;
use crate::views::root_node;
use pdl_buf::Buf;
use pdl_elem::Ty;
use pdl_shape::Dims;
use std::alloc::Global;
use std::mem::replace;

impl Node {
    /// Becomes a root of these dimensions and elements of its type, which is marked.
    pub fn become_root(&mut self, alloc: Global, id: u64, dims: &Dims, kept: Buf)
        requires same_type { kept.ty ≡ self.old.ty }
        ensures { self.new ≡ root_row id self.old.ty dims.now kept.elems }
    {
        let root = root_node(alloc, id, self.ty, dims, kept);
        // By a call: in line the old node's fields would be dropped one by one, and checked here.
        drop(replace(self, root));
    }

    /// Is derived anew of its parent, which is of this type and stands so, with this layout, if one
    /// is given: it keeps nothing yet.
    pub(crate) fn renew(
        &mut self,
        alloc: Global,
        id: u64,
        ty: Ty,
        above: &Shown,
        layout: Option<Apart<Layout>>,
    )
        requires view { is_some (parent_of self.old) ≡ true }
        requires laid { LaidOver (with_layout self.old.origin layout) above.now.triple.dims }
        ensures { self.new ≡ shown_row id (with_layout self.old.origin layout) ty above.now }
    {
        self.origin.lay(layout);
        let (base, triple) = self.origin.shown(alloc, id, above.base, &above.triple);
        self.ty = ty;
        self.root = above.root;
        self.base = base;
        self.triple = triple;
        self.kept = None;
        self.mark = false;
        self.repeats = false;
        self.places = None;
        self.waiting = None;
    }
}
