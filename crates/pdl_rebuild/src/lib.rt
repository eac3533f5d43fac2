//! What a dump comes to when it is run: the state that it is a dump of.
#![tactic(auto)]

ghost use Rattle.pdl_rebuild.specs.Made.{LeastAreGiven, PiecesAreGiven, RootsAreMade};
ghost use Rattle.pdl_rebuild.specs.Named.{KernelsAreDefined, LastButOneGoes, NamesAreBound, NamesEnd};
ghost use Rattle.pdl_rebuild.specs.Rebuilding.{DumpsRebuild};
ghost use Rattle.pdl_rebuild.specs.Running.{DumpsGoOn, RunsBeginSo};
ghost use Rattle.pdl_rebuild.specs.Shown.{AffineViewsAreMade, ChosenViewsAreMade};

use pdl_elem::wrapping_laws;
use pdl_image::dump_laws;
use pdl_machine::run_laws;
use pdl_ops::value_laws;
use pdl_reread::dumps_are_reread;
use pdl_shape::shape_laws;
use pdl_slices::{slice_meaning, written_slices};
use pdl_world::{growth_laws, keeping_laws, newest_laws};

/// The line of a root: it makes a root of zeros, which gets the next number, for a new name, and
/// the arrays of its sizes are gone again. The call does nothing when it runs.
pub fn roots_are_made()
    ensures { RootsAreMade }
{
    growth_laws();
    newest_laws();
    wrapping_laws();
    keeping_laws();
}

/// The lines that fill a root: one gives its numbers to the elements from a first position to a
/// last (`pieces`), and one the least longlong to one element (`least`). The call does nothing when
/// it runs.
pub fn elements_are_given()
    ensures pieces { PiecesAreGiven }
    ensures least { LeastAreGiven }
{
    growth_laws();
    newest_laws();
    wrapping_laws();
    keeping_laws();
    shape_laws();
    value_laws();
    slice_meaning();
}

/// The lines of views: an affine one (`affine`), and one that the newest array chooses (`chosen`),
/// each with its transformation as written. The call does nothing when it runs.
pub fn views_are_made()
    ensures affine { AffineViewsAreMade }
    ensures chosen { ChosenViewsAreMade }
{
    growth_laws();
    newest_laws();
    wrapping_laws();
    keeping_laws();
    written_slices();
    dump_laws();
}

/// The lines of names and kernels: a name is bound to an array that has one (`bound`), and a kernel
/// is defined by its two texts (`defined`). A name goes, and all arrays stay where the other names
/// keep them (`gone`); or the last array but one goes with it, and the last gets its number
/// (`under`). The call does nothing when it runs.
pub fn names_are_made()
    ensures bound { NamesAreBound }
    ensures defined { KernelsAreDefined }
    ensures gone { NamesEnd }
    ensures under { LastButOneGoes }
{
    keeping_laws();
}

/// The dump of a state leads to that state, from the one that has only its slots. The call does
/// nothing when it runs.
pub fn dumps_rebuild()
    ensures { DumpsRebuild }
{
    roots_are_made();
    elements_are_given();
    views_are_made();
    names_are_made();
    growth_laws();
    wrapping_laws();
    keeping_laws();
    dump_laws();
    dumps_are_reread();
}

/// The run of a dump with a rest behind it, which begins with the slots of the dumped state alone:
/// it goes on with the statements of the rest from that state, where both together are no script
/// that is too long and memory suffices (`on`). So it prints and tells just what the rest does
/// there, with lines and statements counted on from those of the dump. Where no slot has an entry,
/// it is the run of a script (`start`). The call does nothing when it runs.
pub fn dumps_go_on()
    ensures on { DumpsGoOn }
    ensures start { RunsBeginSo }
{
    dumps_rebuild();
    dumps_are_reread();
    run_laws();
}
