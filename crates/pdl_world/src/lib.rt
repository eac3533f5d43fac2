//! Worlds of arrays: roots with their elements, and views that show them.
//!
//! A world is what the engine above keeps, as a list of definitions (PDL::Indexing, PDL::Dataflow):
//! an array is a root, or a view of an older array by a transformation. The definitions in `specs/`
//! say what is seen through an array, which elements it has, and what an assignment through it
//! changes. The calls do nothing when they run: their contracts are laws of every world.
#![tactic(auto)]

ghost use Rattle.pdl_world.specs.BaseLaws.{AssignmentsLeaveBases, OlderBasesStay, ReachedKeepBases, SweepsLeaveLooks};
ghost use Rattle.pdl_world.specs.Laws.{LimitIs, LooksStay, PathsStay, NumbersStay, Reads, ReadsBack, AssignsSoundly};
ghost use Rattle.pdl_world.specs.Laws.{PlacesLieWithin, RootsAreInRange, LiveLieBelow, OlderStay, OlderElementsStay, OlderPathsStay, JoinsSoundly};
ghost use Rattle.pdl_world.specs.Laws.{NewIsLive, NewRootIsSeen, NewRootIsWhole, NewRootHasPath, NewViewIsSeen, NewViewHasPath};
ghost use Rattle.pdl_world.specs.CutLaws.{CutsLeaveElements, CutsAreRoots, RootsAreUncut, CutsLeaveOthers, CutsLeaveFamilies, CutsTakeTheirViews, CutsSoundly, CutsLeaveNumbers};
ghost use Rattle.pdl_world.specs.CutLaws.{ViewsAreFound, FittedIsFitted, ReshapedIsSeen};
ghost use Rattle.pdl_world.specs.BreakLaws.{SoundnessDecides, FormulasBreak, RefusedBreak, LooksFollow, BelowLaws, ReshapesLeaveOthers, ReshapesLeaveNumbers, ViewsAreSeen};
ghost use Rattle.pdl_world.specs.KeepingLaws.{NewestKeepsAll, NewestIsKept, MoreKeepAll, AssignsKeepAll, CutsKeepAll, ReshapesKeepAll, ParentsAreLive};
ghost use Rattle.pdl_world.specs.WorkedReshapes.{WorkedReshapes};
ghost use Rattle.pdl_world.specs.PartLaws.{NothingStays, PartsAssignSoundly, PartsJoin, PartsLeaveLater, PartsLeaveLooks, PartsLeaveOthers, PartsLeaveRest, PartsRead, WholesAreParts};
ghost use Rattle.pdl_world.specs.WindowLaws.{WindowsShowArrays, LiveHaveWindows, RepeatsHavePositions, PositionsRepeat};
ghost use Rattle.pdl_world.specs.SweepLaws.{KeptWereReached, ReachedAreKept, HeldAreKept, ReachedAreSeenAsBefore, SweepsSoundly, NoNumberComes, NewGoesUnheld};

use pdl_affine::{Affine, Numbers, view_laws, window_laws};
use pdl_choice::{Edge, Positions};
use pdl_elem::wrapping_laws;
use pdl_shape::{Dims, shape_laws, triple_laws};

/// The most views on a path from an array to its root, itself counted.
pub const MOST_VIEWS: u32 = 64;

/// How a view shows its parent.
#[derive(Debug, Drop)]
pub enum Trans {
    /// By an affine view.
    Affine(Affine),
    /// The parent's first dimension looked up by index values of these dimensions.
    Index {
        dims: Dims,
        ind: Numbers,
    },
    /// The listed positions of a parent of these dimensions, rising.
    Where {
        dims: Dims,
        places: Positions,
    },
    /// A window of these sizes at each corner that the index values of these dimensions list.
    Range {
        dims: Dims,
        ind: Numbers,
        sizes: Numbers,
        edge: Edge,
    },
}

/// At most 64 views are on a path from an array to its root, itself counted. The call does nothing
/// when it runs.
pub fn limits_law()
    ensures { LimitIs }
{}

/// The laws of assignment (PDL::Dataflow). It changes no look, no path, no number and no base. The elements
/// of any array afterwards are read from its root, with the values put at the places of the array
/// that was assigned where the two have one root; so an array without repeats reads back what was
/// assigned. The world stays sound where the values are numbers of the array's type.
pub fn assignment_laws()
    ensures looks { LooksStay }
    ensures paths { PathsStay }
    ensures numbers { NumbersStay }
    ensures reads { Reads }
    ensures back { ReadsBack }
    ensures sound { AssignsSoundly }
    ensures bases { AssignmentsLeaveBases }
{
    shape_laws()
}

/// The laws of assignments in parts: of values for the positions of an array from one on. A whole
/// assignment is a part from the first position on, two parts one after another are one, and no
/// values change nothing. A part changes no look, and the elements of any array afterwards are read
/// as after a whole assignment. Arrays of other roots keep their elements; an array keeps those at
/// later positions where it reads there no place that was written, and so does the array itself if
/// it is without repeats. The world stays sound where the values are numbers of the array's type.
pub fn part_laws()
    ensures wholes { WholesAreParts }
    ensures join { PartsJoin }
    ensures nothing { NothingStays }
    ensures looks { PartsLeaveLooks }
    ensures reads { PartsRead }
    ensures others { PartsLeaveOthers }
    ensures later { PartsLeaveLater }
    ensures rest { PartsLeaveRest }
    ensures sound { PartsAssignSoundly }
{
    shape_laws()
}

/// The laws of a world that grows. In a sound world each place is one of an element of the root,
/// and these are numbers of its type. A new array that is allowed is live and leaves the world
/// sound; older ones have the look, the elements, the path and the base that they had, and lower
/// numbers.
pub fn growth_laws()
    ensures within { PlacesLieWithin }
    ensures in_range { RootsAreInRange }
    ensures below { LiveLieBelow }
    ensures live { NewIsLive }
    ensures older { OlderStay }
    ensures older_elements { OlderElementsStay }
    ensures older_paths { OlderPathsStay }
    ensures sound { JoinsSoundly }
    ensures bases { OlderBasesStay }
{}

/// What new arrays show. A root shows its own elements, and each of its positions is its own place;
/// a view has at each position its parent's element at the source of the position, or 0 where the
/// source is nothing. The path of a new array is the array itself, and then its parent's path.
pub fn newest_laws()
    ensures root_seen { NewRootIsSeen }
    ensures root_whole { NewRootIsWhole }
    ensures root_path { NewRootHasPath }
    ensures view_seen { NewViewIsSeen }
    ensures view_path { NewViewHasPath }
{}

/// The laws of a sweep. What it keeps was there and is reached from the held arrays; in a sound
/// world it keeps all that is reached, and this has the look, the elements, the path and the base
/// that it had. What is held is kept, no number comes, a sound world stays sound, and a new array
/// goes where only older ones are held. What is assigned before a sweep changes nothing of what is
/// seen after it.
pub fn sweep_laws()
    ensures kept { KeptWereReached }
    ensures reached { ReachedAreKept }
    ensures held { HeldAreKept }
    ensures seen { ReachedAreSeenAsBefore }
    ensures sound { SweepsSoundly }
    ensures numbers { NoNumberComes }
    ensures new { NewGoesUnheld }
    ensures bases { ReachedKeepBases }
    ensures assigned { SweepsLeaveLooks }
{}

/// The laws of held arrays that keep all of a world. They keep it with a newest array exactly where
/// that one is held, and its parent beside them keeps the others; so do more of them, and after an
/// assignment. In a sound world they keep all after a cut and with other dimensions if the parent of
/// the array is among them; this parent is live.
pub fn keeping_laws()
    ensures newest { NewestKeepsAll }
    ensures kept { NewestIsKept }
    ensures more { MoreKeepAll }
    ensures assigned { AssignsKeepAll }
    ensures cut { CutsKeepAll }
    ensures reshaped { ReshapesKeepAll }
    ensures parents { ParentsAreLive }
{}

/// The laws of a cut (PDL::Core, sever). Each array shows the type, the dimensions and the elements
/// that it showed. The array is a root afterwards, and what was shown through it stays with it; any
/// other array is seen as before, so each one of another family. To cut a root is nothing. The same
/// arrays are there, and a sound world stays sound.
pub fn cut_laws()
    ensures elements { CutsLeaveElements }
    ensures rooted { CutsAreRoots }
    ensures uncut { RootsAreUncut }
    ensures others { CutsLeaveOthers }
    ensures families { CutsLeaveFamilies }
    ensures views { CutsTakeTheirViews }
    ensures sound { CutsSoundly }
    ensures numbers { CutsLeaveNumbers }
{
    shape_laws();
    wrapping_laws()
}

/// The laws of other dimensions (PDL::Core, reshape). The array is a root of these dimensions
/// afterwards, with the first elements that it had, in order, and zeros where there were fewer. Each
/// view of it shows its parent by its transformation as written; what isn't shown through it is seen
/// as before. Where no view breaks, the same arrays are there; the new world is sound exactly there.
pub fn reshape_laws()
    ensures views { ViewsAreFound }
    ensures fitted { FittedIsFitted }
    ensures seen { ReshapedIsSeen }
    ensures derived { ViewsAreSeen }
    ensures others { ReshapesLeaveOthers }
    ensures numbers { ReshapesLeaveNumbers }
    ensures decides { SoundnessDecides }
{
    wrapping_laws()
}

/// When other dimensions break a view. Something breaks exactly where the formula refuses a view of
/// an array that reaches the reshaped one by parents and is seen in the new world; so the arrays
/// below it can be found, and their new dimensions made, the oldest first.
pub fn breaking_laws()
    ensures formulas { FormulasBreak }
    ensures refused { RefusedBreak }
    ensures follow { LooksFollow }
    ensures below { BelowLaws }
{}

/// Reshapes of arrays with views, worked by hand.
pub fn worked_reshapes()
    ensures { WorkedReshapes }
{}

/// How arrays of a sound world are shown over their bases (PDL::API, affine transformations). Each
/// live array has a window: its base, which is its own base and shows its elements in order, and
/// the triple that shows at each of the array's coordinates the base's position that has the
/// array's place there.
pub fn base_laws()
    ensures shown { WindowsShowArrays }
    ensures live { LiveHaveWindows }
{
    shape_laws();
    triple_laws();
    view_laws();
    window_laws()
}

/// Places have repeats exactly where two positions have the same place; nothing is no place.
pub fn repeat_laws()
    ensures found { RepeatsHavePositions }
    ensures repeated { PositionsRepeat }
{}
