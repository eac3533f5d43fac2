//! Each call once, with values worked by hand from the rules.
use crate::arrays::shape;
use crate::comparing::{same, same_list};
use pdl_elem::{Name, Ty};
use pdl_shape::{Dims, dims_list};
use pdl_sig::*;
use std::process::Abort;

// The second of three arguments: a temporary `b` of type long at least, over dimensions 0 and 1.
fn is_temporary(rt: &impl Abort, args: &[SigArg]) {
    assert!(rt; args.len() == 3);
    same_list(rt, args[1].name.bytes(), b"b");
    same(rt, args[1].role, Role::Temp);
    same(rt, args[1].ty, ArgType::AtLeast(Ty::Long));
    same_list(rt, args[1].dims.as_slice(), &[0, 1]);
}

// Two names, of which the second is `m`.
fn is_m(rt: &impl Abort, names: &[Name]) {
    assert!(rt; names.len() == 2);
    same_list(rt, names[1].bytes(), b"m");
}

#[test]
fn a_signature(rt: HostRuntime) {
    let rt = &rt;
    let text = b"a(n); int+ [t]b(n, m=3); [o]c(m)";
    let signature = read_signature(rt.alloc(), text).expect(rt, "a signature");
    is_temporary(rt, signature.args.as_slice());
    is_m(rt, signature.names.as_slice());
    same_list(rt, signature.fixed.as_slice(), &[None, Some(3)]);
}

// The third of three arguments has these sizes.
fn is_third(rt: &impl Abort, shapes: &[Dims], sizes: &[u32]) {
    assert!(rt; shapes.len() == 3);
    same_list(rt, dims_list(&shapes[2]), sizes);
}

#[test]
fn a_call(rt: HostRuntime) {
    let rt = &rt;
    let alloc = rt.alloc();
    let text = b"a(t,h); b(w,t); [o]c(w,h)";
    let matmult = read_signature(alloc, text).expect(rt, "a signature");
    let given = [
        ArgShape {
            ty: Ty::Byte,
            dims: shape(rt, alloc, &[2, 3]),
        },
        ArgShape {
            ty: Ty::Short,
            dims: shape(rt, alloc, &[4, 2, 5]),
        },
    ];
    let resolved = resolve(alloc, &matmult, &given).expect(rt, "sizes");
    same(rt, resolved.generic, Ty::Short);
    same_list(rt, resolved.sizes.as_slice(), &[2, 3, 4]);
    same_list(rt, dims_list(&resolved.broadcast), &[5]);
    is_third(rt, resolved.shapes.as_slice(), &[4, 3, 5]);
}
