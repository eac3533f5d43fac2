//! Each call once: a session of one kernel, two arrays and a name, whose text was written by hand.
use crate::arrays::{numbers, whole};
use crate::comparing::same_list;
use pdl_affine::Affine;
use pdl_elem::{Name, Text, Ty};
use pdl_image::*;
use pdl_world::Trans;
use std::alloc::Global;
use std::process::Abort;

fn name(rt: &impl Abort, alloc: Global, bytes: &[u8]) -> Name {
    Name::new(Vec::from_slice(alloc, bytes).expect(rt, "memory"))
}

fn text(rt: &impl Abort, alloc: Global, bytes: &[u8]) -> Text {
    Text::new(Vec::from_slice(alloc, bytes).expect(rt, "memory"))
}

fn see(rt: &impl Abort, alloc: Global, stems: &mut Stems, bytes: &[u8]) {
    stems.see(&name(rt, alloc, bytes)).expect(rt, "memory");
}

#[test]
fn fewest_underscores(rt: HostRuntime) {
    let rt = &rt;
    let alloc = rt.alloc();
    let mut stems = Stems::new(alloc);
    see(rt, alloc, &mut stems, b"$data");
    see(rt, alloc, &mut stems, b"$__d1");
    see(rt, alloc, &mut stems, b"$x");
    let stem = stems.free(alloc).expect(rt, "memory");
    same_list(rt, stem.bytes(), b"$_d");
}

fn put_kernel(rt: &impl Abort, alloc: Global, writer: &mut ImageWriter) {
    let (signature, code) = (text(rt, alloc, b"[o]b()"), text(rt, alloc, b"$b() = 1;"));
    writer
        .kernel(&name(rt, alloc, b"f"), &signature, &code)
        .expect(rt, "kernel");
}

fn put_root(rt: &impl Abort, alloc: Global, writer: &mut ImageWriter) {
    let buf = numbers(rt, alloc, Ty::Long, &[3, -4]);
    writer
        .root(0, &whole(rt, alloc, &buf, &[2]))
        .expect(rt, "root");
}

fn put_view(rt: &impl Abort, writer: &mut ImageWriter) {
    let all = Trans::Affine(Affine::Clump(-1));
    writer.view(1, 0, &all).expect(rt, "view");
}

fn put_name(rt: &impl Abort, alloc: Global, writer: &mut ImageWriter) {
    writer.name(&name(rt, alloc, b"$x"), 1).expect(rt, "name");
}

fn ends_as(rt: &impl Abort, writer: ImageWriter, want: &[u8]) {
    let text = writer.end().expect(rt, "end");
    same_list(rt, &text, want);
}

#[test]
fn a_session(rt: HostRuntime) {
    let rt = &rt;
    let alloc = rt.alloc();
    let mut writer = ImageWriter::new(alloc, name(rt, alloc, b"$d"));
    put_kernel(rt, alloc, &mut writer);
    put_root(rt, alloc, &mut writer);
    put_view(rt, &mut writer);
    put_name(rt, alloc, &mut writer);
    ends_as(
        rt,
        writer,
        b"pp_def(\"f\",\"[o]b()\",\"$b() = 1;\");\n\
          $d0 = zeroes(long,2);\n\
          $d0->flat->slice(\"0:1\") .= pdl [3,-4];\n\
          $d1 = $d0->clump(-1);\n\
          $x = $d1;\n\
          undef $d0;\n\
          undef $d1;\n",
    );
}
