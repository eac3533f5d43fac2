//! The dump of a scope: a script that makes its kernels, its arrays and its names again.
ghost use Rattle.std.specs.Prelude.{◌≡◌, ◌+◌, ◌<◌, ◌≤◌, nat_lt, is_some, length, map, sum_by, true, IfOk, IsSome, Some};
ghost use Rattle.std.specs.List.{list_any};
ghost use Rattle.std.specs.List.Sorted.{IsStrictlyIncreasing};
ghost use Rattle.pdl_world.specs.Sound.{IsLive, IsSound};
ghost use Rattle.pdl_world.specs.World.{dims_in, elements, ty_in};
ghost use Rattle.pdl_world.specs.declared.Trans.{Trans};
ghost use Rattle.pdl_image.specs.Dump.{root_lines, view_lines, world_lines};
ghost use Rattle.pdl_image.specs.Stems.{index_name, name_at, stem_of};
ghost use Rattle.pdl_engine.specs.Looks.{array_numbers, trans_in};
ghost use Rattle.pdl_engine.specs.Reading.{read_steps};
ghost use Rattle.pdl_engine.specs.State.{SameArrays, StayFresh};
ghost use Rattle.pdl_machine.specs.Dumps.{dumped, lines_of, text_within};
ghost use Rattle.pdl_machine.specs.Names.{names_limit};
ghost use Rattle.pdl_machine.specs.Tidy.{renumber};
ghost use Rattle.pdl_scope.specs.Answers.{AnswersAs};
ghost use Rattle.pdl_scope.specs.Costs.{ReadsNoDearer};
ghost use Rattle.pdl_scope.specs.Dumping.{HasRoom, WritesLines, array_at, dump_steps, is_refused_unread, lines_at, name_lines, place_from};
ghost use Rattle.pdl_scope.specs.Scope.{engine_of, machine, OnlyReads};

use crate::fault::ScopeFault;
use crate::flows::KeptFlow;
use crate::kernels::Kernels;
use crate::laws::{lines_law, write_arrays_laws};
use crate::names::Names;
use crate::reading::ready;
use crate::scope::Scope;
use pdl_buf::Steps;
use pdl_elem::Name;
use pdl_engine::{ArrayId, Engine};
use pdl_image::{ImageWriter, Stems};
use pdl_machine::{Fault, MOST_NAMES};
use std::alloc::{AllocError, Global};
use std::sync::ledger::Ledger;

impl Scope {
    /// The text of the dump, for which the elements of roots are read. It is refused while a slot
    /// is attached, then while there is a flow, then where its statements would bind too many names,
    /// and then where it is too long; only the last of these is found out by reading. It takes at
    /// most the steps that it takes to read each root.
    pub fn dump<L: Ledger>(&mut self, steps: &mut Steps<L>) -> Result<Vec<u8>, ScopeFault>
        ensures text { AnswersAs (λ text. text.items) (dumped (machine self.old)) result }
        ensures same { OnlyReads self.old self.new }
        ensures counted { let e = engine_of self.old in
            steps.new ≤ steps.old + sum_by (dump_steps e) e.world }
        ensures unmoved { is_refused_unread (machine self.old) ≡ true
            → (self.new ≡ self.old) × (steps.new ≡ steps.old) }
    {
        if is_any_attached(&self.watches) {
            return Err(ScopeFault::Script(Fault::StillWatched));
        }
        if is_any_flow(&self.flows) {
            return Err(ScopeFault::Script(Fault::DumpFlow));
        }
        if are_too_many(self.engine.live(), self.names.len()) {
            return Err(ScopeFault::Script(Fault::TooManyNames));
        }
        dump_text(
            self.alloc,
            &self.kernels,
            &self.names,
            &mut self.engine,
            steps,
        )
    }
}

/// Whether a slot is attached, which no line of a dump could say.
fn is_any_attached(watches: &[Option<ArrayId>]) -> bool
    ensures { result ≡ list_any is_some watches.now }
{
    watches.iter().any(|slot| slot.is_some())
}

/// Whether there is a flow, whose formula no line of a dump could say.
fn is_any_flow(flows: &[KeptFlow]) -> bool
    ensures { result ≡ nat_lt 0 (length flows.now) }
{
    flows.len() > 0
}

/// Whether the dump of so many arrays and names binds too many names.
fn are_too_many(arrays: u64, names: usize) -> bool
    requires { names ≤ names_limit }
    ensures { result ≡ nat_lt names_limit (arrays + names + 1) }
{
    arrays >= (MOST_NAMES - names) as u64
}

/// The text of a dump, part by part.
fn dump_text<L: Ledger>(
    alloc: Global,
    kernels: &Kernels,
    names: &Names,
    engine: &mut Engine,
    steps: &mut Steps<L>,
) -> Result<Vec<u8>, ScopeFault>
    requires { IsSound engine.old.world }
    ensures text { let lines = lines_of kernels.now engine.old.world names.now.entries in
        AnswersAs (λ text. text.items) (text_within lines) result }
    ensures same { SameArrays engine.old engine.new }
    ensures stay { StayFresh engine.old engine.new }
    ensures counted { let e = engine.old in
        steps.new ≤ steps.old + sum_by (dump_steps e) e.world }
{
    lines_law();
    let stem = free_stem(alloc, names)?;
    let ids = all_numbers(alloc, engine)?;
    let mut image = ImageWriter::new(alloc, stem);
    kernels.write(&mut image)?;
    write_arrays(engine, &ids, &mut image, steps)?;
    write_names(names, &ids, &mut image)?;
    Ok(image.end()?)
}

/// The stem of the fewest underscores that no name begins with.
fn free_stem(alloc: Global, names: &Names) -> Result<Name, AllocError>
    ensures { IfOk result (λ stem. stem ≡ stem_of (map (λ n. n.0) names.now.entries)) }
{
    let mut stems = Stems::new(alloc);
    for index in 0..names.len() {
        let (name, _) = names.entry(index);
        stems.see(name)?;
    }
    stems.free(alloc)
}

/// The numbers of all arrays, the oldest first.
fn all_numbers(alloc: Global, engine: &Engine) -> Result<Vec<ArrayId>, AllocError>
    requires { IsSound engine.now.world }
    ensures { IfOk result (λ ids. ids.items ≡ array_numbers engine.now.world) }
{
    write_arrays_laws();
    let mut ids = Vec::with_capacity(alloc, engine.live() as usize)?;
    let mut next = engine.next_live(None);
    while let Some(id) = next {
        ids.push(id)?;
        next = engine.next_live(Some(id));
    }
    Ok(ids)
}

/// The place of an array's number among numbers that rise, and 0 where it isn't there. It is found
/// by halves.
fn place_of(ids: &[ArrayId], id: ArrayId) -> u64
    requires { IsStrictlyIncreasing ids.now }
    ensures { result ≡ place_from ids.now id 0 }
{
    match ids.binary_search(&id) {
        Ok(at) => at as u64,
        Err(_) => 0,
    }
}

/// Writes all arrays, whose numbers these are.
fn write_arrays<L: Ledger>(
    engine: &mut Engine,
    ids: &[ArrayId],
    image: &mut ImageWriter,
    steps: &mut Steps<L>,
) -> Result<(), ScopeFault>
    requires sound { IsSound engine.old.world }
    requires ids { ids.now ≡ array_numbers engine.old.world }
    requires room { HasRoom image.old }
    ensures lines { let w = engine.old.world in
        WritesLines image.old image.new (length w) (world_lines image.old.stem (renumber w)) result }
    ensures same { SameArrays engine.old engine.new }
    ensures stay { StayFresh engine.old engine.new }
    ensures counted { let e = engine.old in
        steps.new ≤ steps.old + sum_by (dump_steps e) e.world }
{
    lines_law();
    write_arrays_laws();
    for at in 0..ids.len() {
        write_array(engine, ids, at, image, steps)?;
    }
    Ok(())
}

/// Writes the array that has so many older ones.
fn write_array<L: Ledger>(
    engine: &mut Engine,
    ids: &[ArrayId],
    at: usize,
    image: &mut ImageWriter,
    steps: &mut Steps<L>,
) -> Result<(), ScopeFault>
    requires sound { IsSound engine.old.world }
    requires ids { ids.now ≡ array_numbers engine.old.world }
    requires here { at < length ids.now }
    ensures lines { let lines = lines_at image.old.stem engine.old.world at in
        WritesLines image.old image.new 1 lines result }
    ensures same { SameArrays engine.old engine.new }
    ensures stay { StayFresh engine.old engine.new }
    ensures costs { ReadsNoDearer engine.old engine.new }
    ensures counted { let e = engine.old in
        steps.new ≤ steps.old + dump_steps e (array_at e.world at) }
{
    write_arrays_laws();
    let id = ids[at];
    match engine.parent(id) {
        Some(parent) => write_view(engine, id, at, place_of(ids, parent), image),
        None => write_root(engine, id, at, image, steps),
    }
}

/// Writes a view, as the array at a place, of the one at another place.
fn write_view(
    engine: &Engine,
    id: ArrayId,
    at: usize,
    parent: u64,
    image: &mut ImageWriter,
) -> Result<(), ScopeFault>
    requires live { IsLive engine.now.world id }
    requires view { IsSome (trans_in engine.now.world id) }
    ensures { (t : Trans) → trans_in engine.now.world id ≡ Some t →
        (let stem = image.old.stem in
        let lines = view_lines (name_at stem at) (name_at stem parent) (index_name stem) t in
        WritesLines image.old image.new 1 lines result) }
{
    let Some(trans) = engine.trans(id) else {
        unreachable!();
    };
    image.view(at as u64, parent, trans)?;
    Ok(())
}

/// Writes a root, as the array at a place.
fn write_root<L: Ledger>(
    engine: &mut Engine,
    id: ArrayId,
    at: usize,
    image: &mut ImageWriter,
    steps: &mut Steps<L>,
) -> Result<(), ScopeFault>
    requires { IsLive engine.old.world id }
    ensures lines { let w = engine.old.world in
        let name = name_at image.old.stem at in
        let lines = root_lines name (ty_in w id) (dims_in w id) (elements w id) in
        WritesLines image.old image.new 1 lines result }
    ensures same { SameArrays engine.old engine.new }
    ensures stay { StayFresh engine.old engine.new }
    ensures costs { ReadsNoDearer engine.old engine.new }
    ensures counted { steps.new ≤ steps.old + read_steps engine.old id }
{
    ready(engine, id, steps)?;
    image.root(at as u64, &engine.lend(id))?;
    Ok(())
}

/// Writes all names, with the places of their arrays' numbers.
fn write_names(names: &Names, ids: &[ArrayId], image: &mut ImageWriter) -> Result<(), ScopeFault>
    requires room { HasRoom image.old }
    requires ids { IsStrictlyIncreasing ids.now }
    ensures { let lines = name_lines image.old.stem ids.now names.now.entries in
        WritesLines image.old image.new 0 lines result }
{
    lines_law();
    for index in 0..names.len() {
        let (name, id) = names.entry(index);
        image.name(name, place_of(ids, id))?;
    }
    Ok(())
}
