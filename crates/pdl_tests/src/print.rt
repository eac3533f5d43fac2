//! Each call once. The scripts of `pdl_cases` print many more.
use crate::arrays::{numbers, shape, window};
use crate::comparing::same_list;
use pdl_buf::Strided;
use pdl_elem::Ty;
use pdl_print::*;
use std::alloc::Global;
use std::process::Abort;

// The plane is printed behind what the text has.
fn is_printed(rt: &impl Abort, alloc: Global, plane: &Strided<'_>) {
    let mut text = Vec::from_slice(alloc, b">").expect(rt, "memory");
    write_array(plane, &mut text).expect(rt, "memory");
    same_list(rt, &text, b">\n[\n [1 3 5]\n [2 4 6]\n]\n");
}

#[test]
fn a_turned_plane(rt: HostRuntime) {
    let rt = &rt;
    let alloc = rt.alloc();
    let buf = numbers(rt, alloc, Ty::Byte, &[1, 2, 3, 4, 5, 6]);
    is_printed(rt, alloc, &window(rt, alloc, &buf, 0, &[2, 1], &[3, 2]));
}

#[test]
fn infos(rt: HostRuntime) {
    let rt = &rt;
    let alloc = rt.alloc();
    let mut text = Vec::from_slice(alloc, b"$x ").expect(rt, "memory");
    let plane = shape(rt, alloc, &[3, 2]);
    info_text(Ty::Longlong, &plane, &mut text).expect(rt, "memory");
    same_list(rt, &text, b"$x PDL: LongLong D [3,2]");
    let number = shape(rt, alloc, &[]);
    info_text(Ty::Byte, &number, &mut text).expect(rt, "memory");
    same_list(rt, &text, b"$x PDL: LongLong D [3,2]PDL: Byte D []");
}
