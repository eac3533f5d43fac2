//! The types of packed numbers, each known where the code is compiled: its width, and the bytes of a
//! number of it.
ghost use Rattle.std.specs.Prelude.{◌≡◌, ◌≤◌};
ghost use Rattle.std.proofs.Common.{rules};
ghost use Rattle.pdl_elem.specs.declared.Ty.{Ty};
ghost use Rattle.pdl_elem.specs.declared.Ty.TheVariants.{Sbyte, Byte, Short, Ushort, Long, Ulong, Longlong};
ghost use Rattle.pdl_elem.specs.Types.{InRange};
ghost use Rattle.pdl_numbers.specs.Bytes.{bytes_of, number_of};

use pdl_elem::{Ty, wrap};

/// A type whose numbers are kept in `N` bytes each.
pub trait PackedType<const N: usize> {
    ghost ty: { Ty };

    /// The bytes of a number of the type: two's complement, lowest byte first.
    fn pack(number: i64) -> [u8; N]
        requires { InRange ty number }
        ensures { result ≡ bytes_of ty number };

    /// The number of the type that has these bytes.
    fn unpack(bytes: &[u8; N]) -> i64
        ensures { result ≡ number_of ty bytes.now };

    /// The type.
    fn known() -> Ty
        ensures { result ≡ ty };

    ghost narrow: { N ≤ 8 };
}

#[derive(Debug)]
pub struct AtSbyte;

impl PackedType<1> for AtSbyte {
    ghost ty = { Sbyte };

    ghost narrow = { Prim.search rules };

    fn known() -> Ty {
        Ty::Sbyte
    }

    fn pack(number: i64) -> [u8; 1] {
        (number as i8).to_le_bytes()
    }

    fn unpack(bytes: &[u8; 1]) -> i64 {
        wrap(Ty::Sbyte, i128::from(u8::from_le_bytes(*bytes)))
    }
}

#[derive(Debug)]
pub struct AtByte;

impl PackedType<1> for AtByte {
    ghost ty = { Byte };

    ghost narrow = { Prim.search rules };

    fn known() -> Ty {
        Ty::Byte
    }

    fn pack(number: i64) -> [u8; 1] {
        (number as u8).to_le_bytes()
    }

    fn unpack(bytes: &[u8; 1]) -> i64 {
        wrap(Ty::Byte, i128::from(u8::from_le_bytes(*bytes)))
    }
}

#[derive(Debug)]
pub struct AtShort;

impl PackedType<2> for AtShort {
    ghost ty = { Short };

    ghost narrow = { Prim.search rules };

    fn known() -> Ty {
        Ty::Short
    }

    fn pack(number: i64) -> [u8; 2] {
        (number as i16).to_le_bytes()
    }

    fn unpack(bytes: &[u8; 2]) -> i64 {
        wrap(Ty::Short, i128::from(u16::from_le_bytes(*bytes)))
    }
}

#[derive(Debug)]
pub struct AtUshort;

impl PackedType<2> for AtUshort {
    ghost ty = { Ushort };

    ghost narrow = { Prim.search rules };

    fn known() -> Ty {
        Ty::Ushort
    }

    fn pack(number: i64) -> [u8; 2] {
        (number as u16).to_le_bytes()
    }

    fn unpack(bytes: &[u8; 2]) -> i64 {
        wrap(Ty::Ushort, i128::from(u16::from_le_bytes(*bytes)))
    }
}

#[derive(Debug)]
pub struct AtLong;

impl PackedType<4> for AtLong {
    ghost ty = { Long };

    ghost narrow = { Prim.search rules };

    fn known() -> Ty {
        Ty::Long
    }

    fn pack(number: i64) -> [u8; 4] {
        (number as i32).to_le_bytes()
    }

    fn unpack(bytes: &[u8; 4]) -> i64 {
        wrap(Ty::Long, i128::from(u32::from_le_bytes(*bytes)))
    }
}

#[derive(Debug)]
pub struct AtUlong;

impl PackedType<4> for AtUlong {
    ghost ty = { Ulong };

    ghost narrow = { Prim.search rules };

    fn known() -> Ty {
        Ty::Ulong
    }

    fn pack(number: i64) -> [u8; 4] {
        (number as u32).to_le_bytes()
    }

    fn unpack(bytes: &[u8; 4]) -> i64 {
        wrap(Ty::Ulong, i128::from(u32::from_le_bytes(*bytes)))
    }
}

#[derive(Debug)]
pub struct AtLonglong;

impl PackedType<8> for AtLonglong {
    ghost ty = { Longlong };

    ghost narrow = { Prim.search rules };

    fn known() -> Ty {
        Ty::Longlong
    }

    fn pack(number: i64) -> [u8; 8] {
        number.to_le_bytes()
    }

    fn unpack(bytes: &[u8; 8]) -> i64 {
        wrap(Ty::Longlong, i128::from(u64::from_le_bytes(*bytes)))
    }
}
