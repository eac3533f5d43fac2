//! Arguments: windows on flat buffers.
ghost use Rattle.std.specs.Prelude.{◌≡◌, ◌≤◌, get_or, pos, All, Ok};
ghost use Rattle.pdl_kernel.specs.Answers.{Becomes};
ghost use Rattle.pdl_kernel.specs.Meaning.{and_then, changed};
ghost use Rattle.pdl_kernel.specs.Places.{IsSmall, IsSound, begun_at, cleared, put_in};

use crate::axes::{Axis, element_in, offset, set_in};
use crate::faults::Fault;
use crate::operations::{change, wrap_to};
use pdl_elem::{BinaryOp, Ty};
use pdl_sig::Role;
use std::marker::Model;

/// An argument as code sees it at one broadcast place: a window on the elements of the whole
/// argument. That of an input may have any strides; each other one lies in order.
#[derive(Drop)]
pub struct Argument {
    pub(crate) role: Role,
    pub(crate) ty: Ty,
    pub(crate) axes: Vec<Axis>,
    /// How far one step along each broadcast dimension goes.
    pub(crate) outer: Vec<u32>,
    pub(crate) elems: Vec<i64>,
    /// The place of the first element.
    pub(crate) start: usize,
}

impl Model for Argument {
    ghost use Rattle.pdl_kernel.specs.Places.{IsSound, Window};

    ghost Value = { Window };

    ghost view = { λ a. record {
      role = a.role;
      ty = a.ty;
      axes = a.axes.items;
      outer = a.outer.items;
      elems = a.elems.items;
      start = a.start;
    } };

    ghost invariant = { λ a. IsSound (record {
      role = a.role;
      ty = a.ty;
      axes = a.axes.items;
      outer = a.outer.items;
      elems = a.elems.items;
      start = a.start;
    }) };
}

impl Argument {
    /// Its core dimensions, with their strides.
    #[inline(always)]
    pub fn axes(&self) -> &[Axis]
        ensures axes { result.now ≡ self.now.axes }
        ensures small { All IsSmall result.now }
    {
        &self.axes
    }

    /// The place of the first element.
    #[inline(always)]
    pub fn start(&self) -> usize
        ensures value { result ≡ self.now.start }
        ensures bound { result ≤ 1152921504606846976 }
        ensures sound { IsSound self.now }
    {
        self.start
    }

    /// The element at a place of the argument's own, and 0 past the last.
    #[inline(always)]
    pub fn element(&self, place: usize) -> i64
        ensures { result ≡ get_or self.now.elems place (pos 0) }
    {
        element_in(&self.elems, place)
    }

    /// Looks at other broadcast coordinates. A temporary starts with zeros at each.
    pub fn begin_at(&mut self, coordinates: &[u32])
        ensures { self.new ≡ begun_at coordinates.now self.old }
    {
        self.start = offset(&self.outer, coordinates);
        clear_temporary(self.role, &mut self.elems);
    }

    /// Puts a number, wrapped to the type, at a place.
    #[inline(always)]
    fn put(&mut self, place: usize, x: i64)
        ensures { self.new ≡ put_in self.old place x }
    {
        set_in(&mut self.elems, place, wrap_to(self.ty, x));
    }

    /// An assignment of a number to the element at a place.
    #[inline(always)]
    pub fn assign_at(&mut self, op: Option<BinaryOp>, x: i64, place: usize) -> Result<(), Fault>
        ensures { Becomes result self.new (and_then
            (changed op (get_or self.old.elems place (pos 0)) x)
            (λ y. Ok (put_in self.old place y))) }
    {
        let y = change(op, self.element(place), x)?;
        self.put(place, y);
        Ok(())
    }
}

/// Zeros, if these are a temporary's elements.
fn clear_temporary(role: Role, elems: &mut Vec<i64>)
    ensures { elems.new.items ≡ cleared role elems.old.items }
{
    match role {
        Role::Temp => elems.fill(0),
        Role::Input | Role::Output | Role::Both => {}
    }
}
