//! An assignment, block by block.
ghost use Rattle.std.specs.Prelude.{◌≡◌, ℕ, ◌+◌, ◌≤◌, ◌<◌, ◌^◌, length, map, false, true, is_ok, Ok, All, OnOk, OnErr, IfErr, IfSome, IsSome, IsTrue, ◌↔◌};
ghost use Rattle.std.specs.Option.{SomeIff};
ghost use Rattle.pdl_elem.specs.Types.{InRange, promoted};
ghost use Rattle.pdl_numbers.specs.Updates.{Suits, updated};
ghost use Rattle.pdl_shape.specs.Broadcast.{BroadcastsTo};
ghost use Rattle.pdl_shape.specs.Shape.{size_of};
ghost use Rattle.pdl_ops.specs.Answers.{IsRefused, refusal_named};
ghost use Rattle.pdl_ops.specs.Values.{fits};
ghost use Rattle.pdl_world.specs.Sound.{IsLive, IsSound};
ghost use Rattle.pdl_world.specs.Paths.{root_of};
ghost use Rattle.pdl_world.specs.Windows.{base};
ghost use Rattle.pdl_world.specs.World.{dims_in, elements, has_repeats, places_in, ty_in};
ghost use Rattle.pdl_engine.specs.State.{is_fresh};
ghost use Rattle.pdl_assign.specs.Blocks.{AreWritten, CanBlock, IsAssigned, IsOneNumber, IsUpdate, IsWritten, block_in, number_at, values_in, written_in};

use crate::copies::is_copied;
use pdl_buf::{
    Steps, Strided, stretched, strided_dims, strided_get, strided_is_in_range, strided_read,
    strided_type,
};
use pdl_elem::{Ty, promote, wrap, wrapping_laws};
use pdl_engine::{ArrayId, Engine};
use pdl_lexemes::AssignOp;
use pdl_numbers::Update;
use pdl_ops::{OpFault, first_divisor, stretches, value_laws, values_part};
use pdl_shape::{Dims, copy_dims, elements_of, shape_laws};
use pdl_world::{assignment_laws, part_laws};
use std::sync::ledger::Ledger;

/// So many values are found and written at once.
pub const BLOCK: usize = 1024;

/// So many of arrays that have more: what is done once a block then takes less, and of turned planes
/// some rows are read side by side.
const LONG: usize = 4096;

/// So many values that are there are written at once.
const SHOWN: usize = 512;

/// For so many of them a small room will do.
const FEW: usize = 16;

/// Why an assignment writes nothing, if it is refused: its right side doesn't fit, or a divisor is
/// 0. All of the right side is looked at, and nothing is changed.
fn refusal(
    engine: &Engine,
    sign: AssignOp,
    target: ArrayId,
    source: ArrayId,
    dims: &Dims,
) -> Result<(), OpFault>
    requires target { IsLive engine.now.world target }
    requires source { IsLive engine.now.world source }
    requires source_fresh { is_fresh engine.now source ≡ true }
    requires dims { dims.now ≡ dims_in engine.now.world target }
    requires can { CanBlock sign engine.now.world target source }
    ensures fits { OnOk result (fits (dims_in engine.now.world source) dims.now ≡ true) }
    ensures stretches { OnOk result (BroadcastsTo (dims_in engine.now.world source) dims.now) }
    ensures never { OnOk result (is_ok (written_in sign engine.now.world target source) ≡ true) }
    ensures refused { let wanted = values_in sign engine.now target source in
        IfErr result (λ fault. IsRefused wanted (refusal_named fault)) }
{
    let from = engine.lend(source);
    if !stretches(strided_dims(&from), dims) {
        return Err(OpFault::Mismatch);
    }
    match first_divisor(sign, engine.ty(target), &stretched(&from, dims)) {
        Some(place) => Err(OpFault::DivideByZero { place }),
        None => Ok(()),
    }
}

/// Finds the values of a block of an assignment, of which the room is as long.
fn find_block(
    engine: &Engine,
    sign: AssignOp,
    target: ArrayId,
    source: ArrayId,
    dims: &Dims,
    first: u32,
    values: &mut [i64],
    left: &mut [i64],
    right: &mut [i64],
)
    requires target { IsLive engine.now.world target }
    requires source { IsLive engine.now.world source }
    requires target_fresh { is_fresh engine.now target ≡ true }
    requires source_fresh { is_fresh engine.now source ≡ true }
    requires dims { dims.now ≡ dims_in engine.now.world target }
    requires stretches { BroadcastsTo (dims_in engine.now.world source) dims.now }
    requires left { length left.old ≡ length values.old }
    requires right { length right.old ≡ length values.old }
    requires within { first + length values.old ≤ size_of dims.now }
    requires never { is_ok (block_in sign engine.now.world target source first (length values.old))
        ≡ true }
    ensures value { block_in sign engine.now.world target source first (length values.old)
        ≡ Ok values.new }
    ensures in_range { All (InRange (ty_in engine.now.world target)) values.new }
    ensures count { length values.new ≡ length values.old }
    ensures left_stays { length left.new ≡ length left.old }
    ensures right_stays { length right.new ≡ length right.old }
{
    let into = engine.lend(target);
    let from = engine.lend(source);
    let new = stretched(&from, dims);
    let _old_count = strided_dims(&into);
    let _new_count = strided_dims(&new);
    values_part(sign, &into, &new, first, values, left, right);
}

/// How many elements an array has that can be lent.
fn count_of(engine: &Engine, id: ArrayId) -> usize
    requires live { IsLive engine.now.world id }
    requires fresh { is_fresh engine.now id ≡ true }
    ensures elements { result ≡ length (elements engine.now.world id) }
    ensures dims { result ≡ size_of (dims_in engine.now.world id) }
    ensures small { result < 2 ^ 32 }
{
    let window = engine.lend(id);
    elements_of(strided_dims(&window)) as usize
}

/// Finds and writes the values of an assignment that nothing refuses, in blocks of so many. It takes
/// a step for each, and no memory.
fn write_blocks<L: Ledger, const ROOM: usize>(
    engine: &mut Engine,
    sign: AssignOp,
    target: ArrayId,
    source: ArrayId,
    dims: &Dims,
    steps: &mut Steps<L>,
)
    requires room { 0 < ROOM }
    requires small { ROOM < 2 ^ 32 }
    requires sound { IsSound engine.old.world }
    requires target { IsLive engine.old.world target }
    requires source { IsLive engine.old.world source }
    requires target_fresh { is_fresh engine.old target ≡ true }
    requires source_fresh { is_fresh engine.old source ≡ true }
    requires dims { dims.now ≡ dims_in engine.old.world target }
    requires stretches { BroadcastsTo (dims_in engine.old.world source) dims.now }
    requires can { CanBlock sign engine.old.world target source }
    requires never { is_ok (written_in sign engine.old.world target source) ≡ true }
    ensures written { AreWritten sign engine.old target source engine.new }
    ensures fresh { is_fresh engine.new target ≡ true }
    ensures counted { steps.new ≡ steps.old + size_of (dims_in engine.old.world target) }
{
    part_laws();
    assignment_laws();
    value_laws();
    let count = count_of(engine, target);
    let mut values = [0; ROOM];
    let mut left = [0; ROOM];
    let mut right = [0; ROOM];
    let mut done = 0;
    while done < count {
        let size = (count - done).min(ROOM);
        let first = done as u32;
        find_block(
            engine,
            sign,
            target,
            source,
            dims,
            first,
            &mut values[..size],
            &mut left[..size],
            &mut right[..size],
        );
        engine.assign_part(target, first, &values[..size], steps);
        done += size;
    }
}

/// Whether an operator on a number of each of the two types works at the first.
fn works_at(ty: Ty, other: Ty) -> bool
    ensures { IsTrue result ↔ (promoted ty other ≡ ty) }
{
    promote(ty, other) == ty
}

/// The one number that a window shows, at a type at which an operator on it and on numbers of the
/// type works. 0 is none: where the operator divides, there is nothing to write.
fn one_number(ty: Ty, from: &Strided<'_>) -> Option<i64>
    ensures { SomeIff result (IsOneNumber ty from.now) (number_at ty from.now) }
{
    let is_one = elements_of(strided_dims(from)) == 1;
    if !is_one {
        return None;
    }
    if !works_at(ty, strided_type(from)) {
        return None;
    }
    let number = wrap(ty, i128::from(strided_get(from, 0)));
    let is_zero = number == 0;
    if is_zero { None } else { Some(number) }
}

/// The update that an assignment is that nothing refuses, exactly where its sign is an operator, the
/// target's elements stand in its root, and the right side is one number.
fn update_of(engine: &Engine, sign: AssignOp, target: ArrayId, source: ArrayId) -> Option<Update>
    requires target { IsLive engine.now.world target }
    requires source { IsLive engine.now.world source }
    requires target_fresh { is_fresh engine.now target ≡ true }
    requires source_fresh { is_fresh engine.now source ≡ true }
    requires stretches { let w = engine.now.world in
        BroadcastsTo (dims_in w source) (dims_in w target) }
    requires can { CanBlock sign engine.now.world target source }
    requires never { is_ok (written_in sign engine.now.world target source) ≡ true }
    ensures found { IsSome result ↔ IsUpdate sign engine.now target source }
    ensures over_root { let w = engine.now.world in
        IfSome result (λ change. base w target ≡ root_of w target) }
    ensures once { let w = engine.now.world in
        IfSome result (λ change. has_repeats (places_in w target) ≡ false) }
    ensures suits { IfSome result (Suits (ty_in engine.now.world target)) }
    ensures value { let w = engine.now.world in
        IfSome result (λ change. written_in sign w target source
        ≡ Ok (map (updated (ty_in w target) change) (elements w target))) }
{
    let AssignOp::With(op) = sign else {
        return None;
    };
    if !engine.stands_in_root(target) {
        return None;
    }
    shape_laws();
    wrapping_laws();
    let into = engine.lend(target);
    strided_is_in_range(&into);
    let _count = strided_dims(&into);
    let from = engine.lend(source);
    let ty = engine.ty(target);
    let number = one_number(ty, &from)?;
    Some(Update { op, number })
}

/// Finds and writes the values of an assignment that nothing refuses: where the elements stand, if
/// one number changes them or they are copied, and block by block otherwise. It takes a step for
/// each, and no memory.
fn write_values<L: Ledger>(
    engine: &mut Engine,
    sign: AssignOp,
    target: ArrayId,
    source: ArrayId,
    dims: &Dims,
    steps: &mut Steps<L>,
)
    requires sound { IsSound engine.old.world }
    requires target { IsLive engine.old.world target }
    requires source { IsLive engine.old.world source }
    requires target_fresh { is_fresh engine.old target ≡ true }
    requires source_fresh { is_fresh engine.old source ≡ true }
    requires dims { dims.now ≡ dims_in engine.old.world target }
    requires stretches { BroadcastsTo (dims_in engine.old.world source) dims.now }
    requires can { CanBlock sign engine.old.world target source }
    requires never { is_ok (written_in sign engine.old.world target source) ≡ true }
    ensures written { AreWritten sign engine.old target source engine.new }
    ensures fresh { is_fresh engine.new target ≡ true }
    ensures counted { steps.new ≡ steps.old + size_of (dims_in engine.old.world target) }
{
    if let Some(change) = update_of(engine, sign, target, source) {
        engine.update(target, change, steps)
    } else if is_copied(engine, sign, target, source) {
        engine.copy(target, source, steps)
    } else if count_of(engine, target) <= LONG {
        write_blocks::<L, BLOCK>(engine, sign, target, source, dims, steps)
    } else {
        write_blocks::<L, LONG>(engine, sign, target, source, dims, steps)
    }
}

/// Assigns an array to another one by a sign, block by block, where this is the same as all at
/// once. Both can be lent. All of the right side is looked at before the first write, so a refusal
/// leaves all as it was; and it takes no memory. The target can be lent afterwards.
pub fn assign_blocks<L: Ledger>(
    engine: &mut Engine,
    sign: AssignOp,
    target: ArrayId,
    source: ArrayId,
    steps: &mut Steps<L>,
) -> Result<(), OpFault>
    requires sound { IsSound engine.old.world }
    requires target { IsLive engine.old.world target }
    requires source { IsLive engine.old.world source }
    requires target_fresh { is_fresh engine.old target ≡ true }
    requires source_fresh { is_fresh engine.old source ≡ true }
    requires can { CanBlock sign engine.old.world target source }
    ensures assigned { OnOk result (IsAssigned sign engine.old target source engine.new) }
    ensures fresh { OnOk result (is_fresh engine.new target ≡ true) }
    ensures counted { OnOk result
        (steps.new ≡ steps.old + size_of (dims_in engine.old.world target)) }
    ensures refused { let wanted = values_in sign engine.old target source in
        IfErr result (λ fault. IsRefused wanted (refusal_named fault)) }
    ensures same { OnErr result (engine.new ≡ engine.old) }
    ensures uncounted { OnErr result (steps.new ≡ steps.old) }
{
    let dims = copy_dims(engine.dims(target));
    match refusal(engine, sign, target, source, &dims) {
        Ok(()) => {
            write_values(engine, sign, target, source, &dims, steps);
            Ok(())
        }
        Err(fault) => Err(fault),
    }
}

/// Puts what a window shows at the positions of an array, in blocks of so many.
fn write_shown<L: Ledger, const ROOM: usize>(
    engine: &mut Engine,
    target: ArrayId,
    values: &Strided<'_>,
    steps: &mut Steps<L>,
)
    requires room { 0 < ROOM }
    requires small { ROOM < 2 ^ 32 }
    requires sound { IsSound engine.old.world }
    requires live { IsLive engine.old.world target }
    requires fresh { is_fresh engine.old target ≡ true }
    requires steady { let w = engine.old.world in
        has_repeats (places_in w (base w target)) ≡ false }
    requires type_is { values.now.ty ≡ ty_in engine.old.world target }
    requires count { length values.now.elems ≡ size_of (dims_in engine.old.world target) }
    ensures written { IsWritten engine.old target values.now.elems engine.new }
    ensures fresh { is_fresh engine.new target ≡ true }
    ensures others { (u : ℕ) → (root_of engine.old.world u ≡ root_of engine.old.world target → ⊥)
        → is_fresh engine.old u ≡ true → is_fresh engine.new u ≡ true }
    ensures counted { steps.new ≡ steps.old + length values.now.elems }
{
    part_laws();
    assignment_laws();
    value_laws();
    let count = elements_of(strided_dims(values)) as usize;
    let mut block = [0; ROOM];
    let mut shown = 0;
    while shown < count {
        let size = (count - shown).min(ROOM);
        let first = shown as u32;
        strided_read(values, first, &mut block[..size]);
        engine.assign_part(target, first, &block[..size], steps);
        shown += size;
    }
}

/// Puts what a window shows at the positions of an array, block by block, which is the same as all
/// at once: the array can be lent, and its base has no repeats. It takes no memory, and a step for
/// each value. The array can be lent afterwards, and so can what could be of other families.
pub fn assign_shown<L: Ledger>(
    engine: &mut Engine,
    target: ArrayId,
    values: &Strided<'_>,
    steps: &mut Steps<L>,
)
    requires sound { IsSound engine.old.world }
    requires live { IsLive engine.old.world target }
    requires fresh { is_fresh engine.old target ≡ true }
    requires steady { let w = engine.old.world in
        has_repeats (places_in w (base w target)) ≡ false }
    requires type_is { values.now.ty ≡ ty_in engine.old.world target }
    requires count { length values.now.elems ≡ size_of (dims_in engine.old.world target) }
    ensures written { IsWritten engine.old target values.now.elems engine.new }
    ensures fresh { is_fresh engine.new target ≡ true }
    ensures others { (u : ℕ) → (root_of engine.old.world u ≡ root_of engine.old.world target → ⊥)
        → is_fresh engine.old u ≡ true → is_fresh engine.new u ≡ true }
    ensures counted { steps.new ≡ steps.old + length values.now.elems }
{
    if elements_of(strided_dims(values)) as usize <= FEW {
        write_shown::<L, FEW>(engine, target, values, steps)
    } else {
        write_shown::<L, SHOWN>(engine, target, values, steps)
    }
}
