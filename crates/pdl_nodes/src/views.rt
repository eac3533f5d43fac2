//! The nodes of new roots and of new views.
ghost use Rattle.std.specs.Prelude.{◌≡◌, IfOk};
ghost use Rattle.pdl_shape.specs.Triple.{IsTriple};
ghost use Rattle.pdl_nodes.specs.Joined.{IsNewView, view_row};
ghost use Rattle.pdl_nodes.specs.Row.{root_row};
ghost use Rattle.pdl_nodes.specs.Sized.{IsLayout};

use crate::apart::Apart;
use crate::node::Node;
use crate::origin::{Layout, Origin};
use pdl_affine::{view_laws, window_laws};
use pdl_buf::Buf;
use pdl_elem::Ty;
use pdl_shape::{Dims, dims_list, shape_laws, triple_laws, whole_triple};
use pdl_world::Trans;
use std::alloc::{AllocError, Global};

/// A root of this number, which is marked.
pub fn root_node(alloc: Global, id: u64, ty: Ty, dims: &Dims, kept: Buf) -> Node
    requires { kept.ty ≡ ty }
    ensures { result ≡ root_row id ty dims.now kept.elems }
{
    Node {
        origin: Origin::Root,
        root: id,
        ty,
        base: id,
        triple: whole_triple(alloc, dims),
        kept: Some(kept),
        mark: true,
        repeats: false,
        places: None,
        waiting: None,
    }
}

/// A view of the array `parent`, of which `above` is kept: over the parent's base where it can be
/// shown so, and else its own base, without elements yet.
pub fn view_node(
    alloc: Global,
    id: u64,
    parent: u64,
    trans: Trans,
    layout: Layout,
    above: &Node,
) -> Result<Node, AllocError>
    requires laid { IsLayout trans above.now.triple.dims layout }
    requires triple { IsTriple above.now.triple }
    ensures row { IfOk result (λ n. n ≡ view_row id parent trans layout above.now) }
    ensures new { IfOk result (IsNewView id parent trans above.now) }
{
    shape_laws();
    triple_laws();
    view_laws();
    window_laws();
    // the limits of dimensions are known where they are listed
    let _limits = dims_list(layout.dims());
    let trans = Apart::new(alloc, trans)?;
    let layout = Apart::new(alloc, layout)?;
    let origin = Origin::View {
        parent,
        trans,
        layout,
    };
    let (base, triple) = origin.shown(alloc, id, above.base, &above.triple);
    Ok(Node {
        origin,
        root: above.root,
        ty: above.ty,
        base,
        triple,
        kept: None,
        mark: false,
        repeats: false,
        places: None,
        waiting: None,
    })
}
