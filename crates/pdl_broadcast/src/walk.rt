//! The walk through a broadcast.
ghost use Rattle.std.specs.Prelude.{◌≡◌, ◌+◌, ◌<◌, ◌≤◌, ◌==◌, [], ◌∷◌, ◌++◌, IfOk, IfSome, IsOk, OnErr, OnOk, length, pos, slice_get};
ghost use Rattle.pdl_broadcast.specs.Walk.{Walk, argument_coordinates, argument_place, arguments_room, standing_at};
ghost use Rattle.pdl_shape.specs.Broadcast.{BroadcastsTo};
ghost use Rattle.pdl_shape.specs.Shape.{IsDims, IsWithin, extent_limit, size_of};
ghost use Rattle.pdl_shape.specs.Triple.{whole_triple};

use crate::cursors::{Cursor, jump, jumps_of, step};
use pdl_shape::{
    Dims, Triple, copy_dims, copy_triple, dims_list, elements_of, incs_list, shape_laws,
    whole_triple,
};
use std::alloc::{AllocError, Global};
use std::marker::Model;

/// How many arguments a new walk has the memory for.
const ARGUMENTS: usize = 16;

/// A walk through the coordinates of a broadcast, with one place per argument. Contracts see its
/// dimensions, its arguments' triples and how many coordinates are behind it.
#[derive(Drop)]
pub struct BroadcastWalk {
    dims: Dims,
    triples: Vec<Triple>,
    cursors: Vec<Cursor>,
    coordinates: Vec<u32>,
    is_at_end: bool,
}

impl Model for BroadcastWalk {
    ghost use Rattle.pdl_broadcast.specs.Walk.{Walk};

    ghost Value = { Walk };

    ghost use Rattle.pdl_broadcast.specs.Inside.{IsSound, walk_of};

    ghost view = { walk_of };

    ghost invariant = { IsSound };
}

impl BroadcastWalk {
    /// A walk through these dimensions, at the first coordinates and without arguments. It takes
    /// the memory for sixteen arguments.
    pub fn new(alloc: Global, dims: &Dims) -> Result<BroadcastWalk, AllocError>
        ensures { IfOk result (λ walk. walk ≡ record { dims = dims.now; triples = []; index = 0 }) }
    {
        Ok(BroadcastWalk {
            dims: copy_dims(dims),
            triples: Vec::with_capacity(alloc, ARGUMENTS)?,
            cursors: Vec::with_capacity(alloc, ARGUMENTS)?,
            coordinates: vec![in alloc; 0; dims_list(dims).len()]?,
            is_at_end: elements_of(dims) == 0,
        })
    }

    /// Adds an argument to a walk that hasn't moved, and answers its number, from 0. The triple's
    /// dimensions must stretch to the walk's. The first sixteen take no memory.
    pub fn add(&mut self, triple: &Triple) -> Result<usize, AllocError>
        requires start { self.old.index ≡ 0 }
        requires stretched { BroadcastsTo triple.now.dims self.old.dims }
        ensures number { IfOk result (λ argument. argument ≡ length self.old.triples) }
        ensures added { OnOk result (self.new
            ≡ record self.old { triples = self.old.triples ++ triple.now ∷ [] }) }
        ensures refused { OnErr result (self.new ≡ self.old) }
        ensures room { length self.old.triples < arguments_room → IsOk result }
    {
        let number = self.triples.len();
        let jumps = jumps_of(
            incs_list(&triple.incs),
            dims_list(&triple.dims),
            dims_list(&self.dims),
        );
        self.cursors.reserve(1)?;
        self.triples.push(copy_triple(triple))?;
        self.cursors.push(Cursor {
            place: triple.offset,
            jumps,
        })?;
        Ok(number)
    }

    /// Adds an array of these dimensions, whose elements lie in order, to a walk that hasn't moved.
    pub fn add_whole(&mut self, alloc: Global, dims: &Dims) -> Result<(), AllocError>
        requires start { self.old.index ≡ 0 }
        requires stretched { BroadcastsTo dims.now self.old.dims }
        ensures added { OnOk result (self.new
            ≡ record self.old { triples = self.old.triples ++ whole_triple dims.now ∷ [] }) }
        ensures refused { OnErr result (self.new ≡ self.old) }
        ensures room { length self.old.triples < arguments_room → IsOk result }
    {
        self.add(&whole_triple(alloc, dims))?;
        Ok(())
    }

    /// The coordinates where the walk stands, that along dimension 0 first. The walk must not be at
    /// its end.
    pub fn coordinates(&self) -> &[u32]
        requires { self.now.index < size_of self.now.dims }
        ensures { result.now ≡ standing_at self.now }
    {
        shape_laws();
        self.coordinates.as_slice()
    }

    /// The place of an argument's element at these coordinates. The number must be one that `add`
    /// answered, and the walk not at its end.
    pub fn offset(&self, argument: usize) -> u32
        requires known { argument < length self.now.triples }
        requires inside { self.now.index < size_of self.now.dims }
        ensures place { IfSome (slice_get self.now.triples argument) (λ triple.
            pos result ≡ argument_place self.now triple) }
        ensures reachable { IfSome (slice_get self.now.triples argument) (λ triple.
            IsWithin triple.dims (argument_coordinates self.now triple)) }
        ensures bound { result < extent_limit }
    {
        shape_laws();
        self.cursors[argument].place
    }

    /// Whether the last coordinates are behind.
    pub fn at_end(&self) -> bool
        ensures answer { result ≡ (self.now.index == size_of self.now.dims) }
        ensures bound { self.now.index ≤ size_of self.now.dims }
        ensures limits { IsDims self.now.dims }
    {
        shape_laws();
        self.is_at_end
    }

    /// Moves on to the next coordinates, dimension 0 fastest. The walk must not be at its end.
    pub fn next(&mut self)
        requires { self.old.index < size_of self.old.dims }
        ensures { self.new ≡ record self.old { index = self.old.index + 1 } }
    {
        shape_laws();
        let dimension = step(dims_list(&self.dims), &mut self.coordinates);
        if dimension < self.coordinates.len() {
            jump(&mut self.cursors, dimension);
        } else {
            self.is_at_end = true;
        }
    }
}
