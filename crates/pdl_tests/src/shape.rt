//! Cases whose answers come from outside: NumPy's `ravel_multi_index` and `unravel_index` in
//! Fortran order, its `broadcast_shapes` on reversed shapes, and products by hand.
use crate::arrays::{shape, triple};
use crate::comparing::{same, same_list};
use pdl_shape::*;
use std::alloc::Global;
use std::process::Abort;

#[test]
fn sizes(rt: HostRuntime) {
    let rt = &rt;
    same(rt, size(&[]), Some(1));
    same(rt, size(&[3, 2]), Some(6));
    same(rt, size(&[5, 0, 7]), Some(0));
    same(rt, size(&[1_048_576]), Some(1_048_576));
    same(rt, size(&[1_048_577]), None);
    same(rt, size(&[1024, 1025, 0]), None);
    same(rt, size(&[65_536, 65_536]), None);
}

#[test]
fn limits(rt: HostRuntime) {
    let rt = &rt;
    let alloc = rt.alloc();
    same(rt, dims_of(alloc, &[1; 16]).err(), None);
    same(
        &rt,
        &dims_of(alloc, &[2000; 17]).err(),
        &Some(ShapeFault::TooManyDims),
    );
    same(
        &rt,
        &dims_of(alloc, &[1024, 1025, 0]).err(),
        &Some(ShapeFault::TooLarge),
    );
}

#[test]
fn copies(rt: HostRuntime) {
    let rt = &rt;
    let three = shape(rt, rt.alloc(), &[4, 3, 2]);
    same(rt, elements_of(&three), 24);
    same_list(rt, dims_list(&copy_dims(&three)), &[4, 3, 2]);
    same_list(
        &rt,
        dims_list(&three.clone().expect(rt, "memory")),
        &[4, 3, 2],
    );
}

#[test]
fn numbers_from_the_end(rt: HostRuntime) {
    let rt = &rt;
    same(rt, from_end(-1, 5), Some(4));
    same(rt, clump_count(-1, 3), Some(3));
    shape_laws();
}

#[test]
fn positions(rt: HostRuntime) {
    let rt = &rt;
    let alloc = rt.alloc();
    let three = shape(rt, alloc, &[4, 3, 2]);
    same(rt, position(&three, &[1, 2, 1]), 21);
    same(rt, place(&whole_triple(alloc, &three), &[1, 2, 1]), 21);
    same(rt, position(&shape(rt, alloc, &[2, 3]), &[1, 0]), 1);
    same(rt, position(&shape(rt, alloc, &[]), &[]), 0);
}

#[test]
fn coordinates_of_positions(rt: HostRuntime) {
    let rt = &rt;
    let alloc = rt.alloc();
    let three = shape(rt, alloc, &[4, 3, 2]);
    same_list(
        &rt,
        coords_list(&coordinates(alloc, &three, 21)),
        &[1, 2, 1],
    );
    same_list(
        &rt,
        coords_list(&coordinates(alloc, &three, 10)),
        &[2, 2, 0],
    );
}

// Two arrays of these sizes join to this.
fn joins_to(rt: &impl Abort, alloc: Global, one: &[u32], other: &[u32], want: &[u32]) {
    let joined = join_dims(alloc, &shape(rt, alloc, one), &shape(rt, alloc, other));
    same_list(rt, dims_list(&joined.expect(rt, "dimensions")), want);
}

#[test]
fn joins(rt: HostRuntime) {
    let rt = &rt;
    let alloc = rt.alloc();
    joins_to(rt, alloc, &[2, 3], &[1, 3], &[2, 3]);
    joins_to(rt, alloc, &[], &[5], &[5]);
    joins_to(rt, alloc, &[2, 3], &[2, 1, 2], &[2, 3, 2]);
    joins_to(rt, alloc, &[0], &[1], &[0]);
}

// Two arrays of these sizes don't join.
fn parts(rt: &impl Abort, alloc: Global, one: &[u32], other: &[u32], fault: ShapeFault) {
    let joined = join_dims(alloc, &shape(rt, alloc, one), &shape(rt, alloc, other));
    same(rt, joined.err(), Some(fault));
}

#[test]
fn refuses_to_join(rt: HostRuntime) {
    let rt = &rt;
    let alloc = rt.alloc();
    parts(rt, alloc, &[0], &[2], ShapeFault::Mismatch);
    parts(rt, alloc, &[3], &[2], ShapeFault::Mismatch);
    parts(
        &rt,
        alloc,
        &[1024, 1, 3],
        &[1, 1025, 2],
        ShapeFault::Mismatch,
    );
    parts(rt, alloc, &[1024], &[1, 1025], ShapeFault::TooLarge);
}

// The triple has this offset, these increments and these sizes.
fn is_triple(rt: &impl Abort, triple: &Triple, offset: u32, incs: &[i32], sizes: &[u32]) {
    same(rt, triple.offset, offset);
    same_list(rt, incs_list(&copy_incs(&triple.incs)), incs);
    same_list(rt, dims_list(&triple.dims), sizes);
}

#[test]
fn windows(rt: HostRuntime) {
    let rt = &rt;
    let whole = whole_triple(rt.alloc(), &shape(rt, rt.alloc(), &[2, 3]));
    is_triple(rt, &copy_triple(&whole), 0, &[1, 2], &[2, 3]);
}

// Three elements as a row of one column, at every second place before the fifth.
#[test]
fn stretched_windows(rt: HostRuntime) {
    let rt = &rt;
    let window = triple(rt, rt.alloc(), 4, &[0, -2], &[1, 3]);
    let wide = shape(rt, rt.alloc(), &[5, 3, 2]);
    is_triple(
        rt,
        &stretched_triple(&window, &wide),
        4,
        &[0, -2, 0],
        &[5, 3, 2],
    );
}
