//! Calls once each, with values from outside at the edges. The program `pdl_cases` calls `wrap`,
//! `unary` and `binary` with many more.
use crate::comparing::{same, same_list};
use pdl_elem::*;

// Numbers beyond 64 bits, and one within.
#[test]
fn wraps_by_low_bits(rt: HostRuntime) {
    let rt = &rt;
    same(rt, wrap(Ty::Short, 65_535), -1);
    same(rt, wrap(Ty::Byte, 18_446_744_073_709_551_617), 1);
    same(
        &rt,
        &wrap(Ty::Longlong, 9_223_372_036_854_775_808),
        &i64::MIN,
    );
    same(
        &rt,
        &wrap(Ty::Longlong, -9_223_372_036_854_775_809),
        &i64::MAX,
    );
}

#[test]
fn types(rt: HostRuntime) {
    let rt = &rt;
    same(rt, promote(Ty::Short, Ty::Ushort), Ty::Ushort);
    same(rt, promote(Ty::Longlong, Ty::Byte), Ty::Longlong);
    same(rt, unary_type(UnaryOp::Not, Ty::Long), Ty::Byte);
    same(
        &rt,
        &binary_type(BinaryOp::Le, Ty::Long, Ty::Short),
        &Ty::Byte,
    );
    same(
        &rt,
        &binary_type(BinaryOp::Shl, Ty::Byte, Ty::Long),
        &Ty::Long,
    );
    same(rt, type_name(Ty::Longlong), "LongLong");
    same(rt, type_name(Ty::Ushort), "Ushort");
}

#[test]
fn works_over_blocks(rt: HostRuntime) {
    let rt = &rt;
    let mut into = [9, 9, 9];
    let done = binary_all(
        BinaryOp::Mul,
        Ty::Short,
        &[300, -2, 7],
        &[300, 3, -1],
        &mut into,
    );
    same(rt, done, Ok(()));
    same(rt, into, [24464, -6, -7]);
    let refused = binary_all(BinaryOp::Rem, Ty::Long, &[1, 2, 3], &[1, 0, 0], &mut into);
    same(rt, refused, Err(1));
    same(rt, into, [24464, -6, -7]);
}

#[test]
fn changes_blocks(rt: HostRuntime) {
    let rt = &rt;
    let mut bytes = [5, 0, 255];
    unary_all(UnaryOp::Complement, Ty::Byte, &mut bytes);
    same(rt, bytes, [250, 255, 0]);
    let mut numbers = [70000, -32769, 5];
    wrap_all(Ty::Short, &mut numbers);
    same(rt, numbers, [4464, 32767, 5]);
}

#[test]
fn names_and_texts(rt: HostRuntime) {
    let rt = &rt;
    let name = Name::new(Vec::from_slice(rt.alloc(), b"im").expect(rt, "memory"));
    let text = Text::new(Vec::from_slice(rt.alloc(), b"1:3").expect(rt, "memory"));
    same_list(rt, name.bytes(), b"im");
    same_list(rt, text.bytes(), b"1:3");
    same(rt, name.clone().expect(rt, "memory"), name);
    same(rt, text.clone().expect(rt, "memory"), text);
}
