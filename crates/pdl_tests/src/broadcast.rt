//! A walk whose places come from outside: NumPy's `broadcast_to` over arrays in Fortran order.
//! The scripts of `pdl_cases` walk through many more.
ghost use Rattle.std.specs.Prelude.{◌≡◌, ◌<◌, ◌+◌, [], ◌∷◌, length};
ghost use Rattle.pdl_shape.specs.Broadcast.{BroadcastsTo};
ghost use Rattle.pdl_shape.specs.Shape.{size_of};
ghost use Rattle.pdl_shape.specs.Triple.{IsTriple};

use crate::arrays::{shape, triple};
use crate::comparing::same;
use pdl_broadcast::*;
use std::alloc::Global;
use std::process::Abort;

/// The three arguments of a walk stand at these places.
fn stands_at(rt: &impl Abort, walk: &BroadcastWalk, places: [u32; 3])
    requires three { 2 < length walk.now.triples }
    requires inside { walk.now.index < size_of walk.now.dims }
{
    same(rt, [walk.offset(0), walk.offset(1), walk.offset(2)], places);
}

/// Goes through all coordinates, which have these places.
fn follows(rt: &impl Abort, walk: &mut BroadcastWalk, want: &[[u32; 3]; 6])
    requires { 2 < length walk.old.triples }
{
    for places in want {
        assert!(rt; !walk.at_end());
        stands_at(rt, walk, *places);
        walk.next();
    }
    assert!(rt; walk.at_end());
}

/// Adds an argument to a walk that begins.
fn add(
    rt: &impl Abort,
    alloc: Global,
    walk: &mut BroadcastWalk,
    offset: u32,
    incs: &[i32],
    sizes: &[u32],
)
    requires start { walk.old.index ≡ 0 }
    requires triple { IsTriple (record { offset = offset; incs = incs.now; dims = sizes.now }) }
    requires stretched { BroadcastsTo sizes.now walk.old.dims }
    ensures dims { walk.new.dims ≡ walk.old.dims }
    ensures start { walk.new.index ≡ 0 }
    ensures count { length walk.new.triples ≡ length walk.old.triples + 1 }
{
    walk.add(&triple(rt, alloc, offset, incs, sizes))
        .expect(rt, "memory");
}

/// A walk through six coordinates.
fn begun(rt: &impl Abort, alloc: Global) -> BroadcastWalk
    ensures dims { result.dims ≡ 3 ∷ 2 ∷ [] }
    ensures start { result.index ≡ 0 }
    ensures none { length result.triples ≡ 0 }
{
    let plane = shape(rt, alloc, &[3, 2]);
    BroadcastWalk::new(alloc, &plane).expect(rt, "memory")
}

// A plane with its columns as rows; three elements from the last to the first; and two elements three
// places apart, along dimension 1.
#[test]
fn windows(rt: HostRuntime) {
    let rt = &rt;
    let want = [
        [0, 2, 1],
        [2, 1, 1],
        [4, 0, 1],
        [1, 2, 4],
        [3, 1, 4],
        [5, 0, 4],
    ];
    let mut walk = begun(rt, rt.alloc());
    add(rt, rt.alloc(), &mut walk, 0, &[2, 1], &[3, 2]);
    add(rt, rt.alloc(), &mut walk, 2, &[-1], &[3]);
    add(rt, rt.alloc(), &mut walk, 1, &[0, 3], &[1, 2]);
    follows(rt, &mut walk, &want);
}
