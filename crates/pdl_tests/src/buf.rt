//! Each call once, with values worked out by hand.
ghost use Rattle.std.specs.Prelude.{◌≡◌, ◌<◌, ◌≤◌, ◌+◌, [], ◌∷◌, length};
ghost use Rattle.pdl_elem.specs.declared.Ty.TheVariants.{Byte, Short};

use crate::arrays::{numbers, shape, triple, window};
use crate::comparing::{same, same_list};
use pdl_buf::*;
use pdl_elem::{BinaryOp, Ty};
use pdl_numbers::Placement;
use pdl_shape::{Dims, dims_list};
use std::alloc::Global;
use std::marker::Brand;
use std::process::Abort;
use std::sync::ledger::{Blank, Ledger};

// The buffer has these three elements.
fn keeps(rt: &impl Abort, buf: &Buf, want: [i64; 3])
    requires { length buf.now.elems ≡ 3 }
{
    same(
        rt,
        [buf_get(buf, 0), buf_get(buf, 1), buf_get(buf, 2)],
        want,
    );
}

// Of 0, 0, 8 place 1 becomes 7, and then 6, since the places 1, 1 and none get 5, 6 and 7.
fn put<L: Ledger>(rt: &impl Abort, buf: &mut Buf, steps: &mut Steps<L>)
    requires three { length buf.old.elems ≡ 3 }
    requires kind { buf.old.ty ≡ Short }
{
    buf_set(buf, 1, 7, steps);
    scatter(buf, &[Some(1), Some(1), None], &[5, 6, 7], steps);
    keeps(rt, buf, [0, 6, 8]);
}

fn moved<L: Ledger>(rt: &impl Abort, alloc: Global, blank: Blank)
    requires name { blank.name ≡ L.name }
    requires parts { blank.parts ≡ L.parts }
    requires some { 0 < blank.parts }
{
    let mut steps = new_steps::<L>(blank);
    let mut buf = buf_of(alloc, Ty::Short, &[0, 0, 8], &mut steps).expect(rt, "memory");
    put(rt, &mut buf, &mut steps);
}

#[test]
fn moves(rt: HostRuntime) {
    let rt = &rt;
    moved::<Brand>(rt, rt.alloc(), Blank::new(1));
}

// The place of the fifth element of a plane of two columns and three rows, with its columns as rows.
#[test]
fn places_positions(rt: HostRuntime) {
    let rt = &rt;
    let turned = triple(rt, rt.alloc(), 0, &[2, 1], &[3, 2]);
    same(rt, Placement::of(&turned).place(4), 3);
}

// Four elements from a position on.
fn four(window: &Strided<'_>, first: u32) -> [i64; 4]
    requires { first + 4 ≤ length window.now.elems }
{
    let mut block = [0; 4];
    strided_read(window, first, &mut block);
    block
}

#[test]
fn reads_turned_blocks(rt: HostRuntime) {
    let rt = &rt;
    let buf = numbers(rt, rt.alloc(), Ty::Byte, &[1, 2, 3, 4, 5, 6]);
    let turned = window(rt, rt.alloc(), &buf, 0, &[2, 1], &[3, 2]);
    same(rt, four(&turned, 1), [3, 5, 2, 4]);
}

// Every second of six elements, from the second on.
fn stepped<'a>(rt: &impl Abort, alloc: Global, buf: &'a Buf) -> Strided<'a>
    requires { length buf.now.elems ≡ 6 }
    ensures count { length result.elems ≡ 3 }
    ensures dims { result.dims ≡ 3 ∷ [] }
    ensures kind { result.ty ≡ buf.now.ty }
{
    window(rt, alloc, buf, 1, &[2], &[3])
}

// The places 2, none and 0 of every second of the numbers from 1 to 6 are gathered.
fn gather_stepped<L: Ledger>(
    rt: &impl Abort,
    alloc: Global,
    stepped: &Strided<'_>,
    steps: &mut Steps<L>,
)
    requires count { length stepped.now.elems ≡ 3 }
    requires kind { stepped.now.ty ≡ Byte }
{
    let mut into = buf_of(alloc, Ty::Byte, &[9, 9, 9], steps).expect(rt, "memory");
    gather(stepped, &[Some(2), None, Some(0)], &mut into, steps);
    tick(steps);
    keeps(rt, &into, [6, 0, 2]);
}

fn gathered_by_steps<L: Ledger>(rt: &impl Abort, alloc: Global, blank: Blank)
    requires name { blank.name ≡ L.name }
    requires parts { blank.parts ≡ L.parts }
    requires some { 0 < blank.parts }
{
    let mut steps = new_steps::<L>(blank);
    let buf = buf_of(alloc, Ty::Byte, &[1, 2, 3, 4, 5, 6], &mut steps).expect(rt, "memory");
    gather_stepped(rt, alloc, &stepped(rt, alloc, &buf), &mut steps);
}

#[test]
fn gathers_by_steps(rt: HostRuntime) {
    let rt = &rt;
    gathered_by_steps::<Brand>(rt, rt.alloc(), Blank::new(1));
}

// Every second of the numbers from 1 to 6, from the second on, is copied to three places, and these
// are taken out.
fn copy_stepped<L: Ledger>(
    rt: &impl Abort,
    alloc: Global,
    stepped: &Strided<'_>,
    steps: &mut Steps<L>,
)
    requires dims { stepped.now.dims ≡ 3 ∷ [] }
    requires kind { stepped.now.ty ≡ Byte }
{
    let mut into = buf_of(alloc, Ty::Byte, &[9, 9, 9], steps).expect(rt, "memory");
    let placement = Placement::of(&triple(rt, alloc, 0, &[1], &[3]));
    copy_shown(&mut into, &placement, stepped, steps);
    keeps(rt, &buf_take(&mut into), [2, 4, 6]);
}

fn copied_by_steps<L: Ledger>(rt: &impl Abort, alloc: Global, blank: Blank)
    requires name { blank.name ≡ L.name }
    requires parts { blank.parts ≡ L.parts }
    requires some { 0 < blank.parts }
{
    let mut steps = new_steps::<L>(blank);
    let buf = buf_of(alloc, Ty::Byte, &[1, 2, 3, 4, 5, 6], &mut steps).expect(rt, "memory");
    copy_stepped(rt, alloc, &stepped(rt, alloc, &buf), &mut steps);
}

#[test]
fn copies_by_steps(rt: HostRuntime) {
    let rt = &rt;
    copied_by_steps::<Brand>(rt, rt.alloc(), Blank::new(1));
}

// The window is of three bytes, of which the second is 4.
fn is_described(rt: &impl Abort, window: &Strided<'_>)
    requires { 1 < length window.now.elems }
{
    same(rt, strided_get(window, 1), 4);
    same(rt, strided_type(window), Ty::Byte);
    same_list(rt, dims_list(strided_dims(window)), &[3]);
}

#[test]
fn describes_windows(rt: HostRuntime) {
    let rt = &rt;
    let buf = numbers(rt, rt.alloc(), Ty::Byte, &[1, 2, 3, 4, 5, 6]);
    is_described(rt, &stepped(rt, rt.alloc(), &buf));
}

// Four elements of three in a column over a plane, from the second on.
fn stretched_block(rt: &impl Abort, alloc: Global, buf: &Buf, plane: &Dims) -> [i64; 4]
    requires count { length buf.now.elems ≡ 3 }
    requires plane { plane.now ≡ 2 ∷ 3 ∷ [] }
{
    let column = window(rt, alloc, buf, 0, &[0, 1], &[1, 3]);
    four(&stretched(&column, plane), 1)
}

#[test]
fn stretches(rt: HostRuntime) {
    let rt = &rt;
    let buf = numbers(rt, rt.alloc(), Ty::Byte, &[7, 8, 9]);
    let plane = shape(rt, rt.alloc(), &[2, 3]);
    same(
        rt,
        stretched_block(rt, rt.alloc(), &buf, &plane),
        [7, 8, 8, 9],
    );
}

#[test]
fn lends_bytes(rt: HostRuntime) {
    let rt = &rt;
    let buf = numbers(rt, rt.alloc(), Ty::Short, &[1, -2]);
    same_list(rt, buf_bytes(&buf), &[0x01, 0x00, 0xFE, 0xFF]);
}

// A run's numbers doubled, and then its first two, put behind one another.
fn doubled(rt: &impl Abort, alloc: Global, run: &Run<'_>, mut made: Packing) -> Vec<i64>
    requires { made.ty ≡ run.now.ty }
{
    let again = run.first(run.len());
    made.extend_values_of(BinaryOp::Add, run, &again)
        .expect(rt, "memory");
    made.extend_run(&run.first(run.len().min(2)))
        .expect(rt, "memory");
    made.into_list(alloc).expect(rt, "memory")
}

// What `doubled` gives of 3, 200 and 5, as bytes, is packed as it is listed.
fn runs_are_doubled(rt: &impl Abort, alloc: Global, run: &Run<'_>) {
    let packed = Packing::new(alloc, run.ty(), 5).expect(rt, "memory");
    let list = Packing::list(alloc, run.ty(), 5).expect(rt, "memory");
    let want = [6, 144, 10, 3, 200];
    same_list(rt, &doubled(rt, alloc, run, packed), &want);
    same_list(rt, &doubled(rt, alloc, run, list), &want);
}

#[test]
fn works_on_runs(rt: HostRuntime) {
    let rt = &rt;
    let buf = numbers(rt, rt.alloc(), Ty::Byte, &[1, 2, 3, 200, 5, 6]);
    let row = window(rt, rt.alloc(), &buf, 1, &[1], &[4]);
    let run = strided_run(&row, 1);
    let list = run.to_list(rt.alloc()).expect(rt, "memory");
    same(rt, run.ty(), Ty::Byte);
    same_list(rt, &list, &[3, 200, 5]);
    runs_are_doubled(rt, rt.alloc(), &run);
}
