//! Laws of what arrays cost, and laws of the crates below, joined: a call that knows no more than the
//! laws that it needs is proved sooner.
ghost use Rattle.pdl_image.specs.Laws.{LinesJoin};
ghost use Rattle.pdl_world.specs.BaseLaws.{AssignmentsLeaveBases};
ghost use Rattle.pdl_world.specs.BreakLaws.{BelowLaws};
ghost use Rattle.pdl_world.specs.CutLaws.{CutsLeaveElements, CutsLeaveNumbers, CutsLeaveOthers, RootsAreUncut};
ghost use Rattle.pdl_world.specs.Laws.{AssignsSoundly, LiveLieBelow, LooksStay, NewIsLive, NewRootIsSeen, NumbersStay, OlderStay, OlderElementsStay, OlderPathsStay, PathsStay, Reads};
ghost use Rattle.pdl_world.specs.KeepingLaws.{AssignsKeepAll, CutsKeepAll, MoreKeepAll, NewestKeepsAll, ParentsAreLive};
ghost use Rattle.pdl_world.specs.PartLaws.{PartsLeaveOthers, WholesAreParts};
ghost use Rattle.pdl_world.specs.SweepLaws.{KeptWereReached, NoNumberComes, ReachedAreSeenAsBefore};
ghost use Rattle.pdl_machine.specs.FlowLaws.{FlowsFollow, FlowsStay, LettingGoKeepsFlows, OnlyAffectedFollow};
ghost use Rattle.pdl_machine.specs.Laws.{PathsReach, SettlingUnseen, SweepsByFewer, TrimmingAttachesTheSame};
ghost use Rattle.pdl_engine.specs.HoldLaws.{CountedAreHeld, HeldAreCounted, NothingIsWritten, OneLessCounts, OneMoreCounts, OthersDontCount, StayingCount};
ghost use Rattle.pdl_scope.specs.FlowCosts.{GrowingMakesNoFlowDearer};
ghost use Rattle.pdl_scope.specs.Costs.{GrowingLosesNothing, GrowingMakesNoneDearer, NewArraysGoUnwritten, NewRootsAreReady, NewRootsMoveTheirSize, NewViewsAddTheirSize, NewViewsCostTheirSize};

use pdl_engine::hold_laws;
use pdl_image::dump_laws;
use pdl_machine::{flow_laws, numbering_laws, reaching_laws, watching_laws};
use pdl_world::{
    assignment_laws, breaking_laws, cut_laws, growth_laws, keeping_laws, newest_laws, part_laws,
    sweep_laws,
};

/// What arrays that come do to what it takes to make arrays ready: those that were there take no
/// more, nor do flows that follow an assignment; a new root takes nothing, and a new view what its
/// parent takes, with a step for each element that it keeps. And how many elements move for all
/// arrays together: a new root adds those that aren't 0, a new view those that it keeps. Where
/// nothing but new arrays came, and what was there stays, nothing is written back when they go. The
/// call does nothing when it runs.
pub fn cost_laws()
    ensures older { GrowingMakesNoneDearer }
    ensures flows { GrowingMakesNoFlowDearer }
    ensures roots { NewRootsAreReady }
    ensures views { NewViewsCostTheirSize }
    ensures made { NewRootsMoveTheirSize }
    ensures shown { NewViewsAddTheirSize }
    ensures grown { GrowingLosesNothing }
    ensures unwritten { NewArraysGoUnwritten }
{
    hold_laws();
}

/// What an array that comes leaves as it was, of the laws of the crates below, in one call. It does
/// nothing when it runs.
pub(crate) fn joining_laws()
    ensures older { OlderStay }
    ensures older_elements { OlderElementsStay }
    ensures older_paths { OlderPathsStay }
    ensures newest { NewestKeepsAll }
    ensures more { MoreKeepAll }
    ensures stay { FlowsStay }
    ensures others { OthersDontCount }
{
    growth_laws();
    keeping_laws();
    flow_laws();
    hold_laws();
}

/// What an assignment leaves as it was, and what follows it, of the laws of the crates below, in one
/// call. It does nothing when it runs.
pub(crate) fn assign_elements_laws()
    ensures looks { LooksStay }
    ensures paths { PathsStay }
    ensures numbers { NumbersStay }
    ensures reads { Reads }
    ensures sound { AssignsSoundly }
    ensures bases { AssignmentsLeaveBases }
    ensures wholes { WholesAreParts }
    ensures others { PartsLeaveOthers }
    ensures keeps { AssignsKeepAll }
    ensures follow { FlowsFollow }
    ensures affected { OnlyAffectedFollow }
{
    assignment_laws();
    part_laws();
    keeping_laws();
    flow_laws();
}

/// What one more hold of an array does, of the laws of the crates below, in one call. It does nothing
/// when it runs.
pub(crate) fn hold_once_laws()
    ensures more { MoreKeepAll }
    ensures parents { ParentsAreLive }
    ensures counts { OneMoreCounts }
{
    keeping_laws();
    hold_laws();
}

/// What letting go leaves as it was, of the laws of the crates below, in one call. It does nothing
/// when it runs.
pub(crate) fn leaving_laws()
    ensures kept { KeptWereReached }
    ensures seen { ReachedAreSeenAsBefore }
    ensures below { BelowLaws }
    ensures more { MoreKeepAll }
    ensures again { SweepsByFewer }
    ensures settled { SettlingUnseen }
    ensures paths { PathsReach }
    ensures flows { LettingGoKeepsFlows }
    ensures others { OthersDontCount }
{
    sweep_laws();
    breaking_laws();
    keeping_laws();
    numbering_laws();
    reaching_laws();
    flow_laws();
    hold_laws();
}

/// What is held beside held arrays keeps what they keep, of the laws of the crates below. The call
/// does nothing when it runs.
pub(crate) fn more_held_law()
    ensures { MoreKeepAll }
{
    keeping_laws();
}

/// What taking holds back leaves as it was, of the laws of the crates below, in one call. It does
/// nothing when it runs.
pub(crate) fn releasing_laws()
    ensures kept { KeptWereReached }
    ensures seen { ReachedAreSeenAsBefore }
    ensures numbers { NoNumberComes }
    ensures more { MoreKeepAll }
    ensures again { SweepsByFewer }
    ensures less { OneLessCounts }
    ensures staying { StayingCount }
    ensures held { CountedAreHeld }
    ensures counted { HeldAreCounted }
    ensures others { OthersDontCount }
    ensures unwritten { NothingIsWritten }
{
    sweep_laws();
    keeping_laws();
    numbering_laws();
    hold_laws();
}

/// What a slot that is given up leaves as it was, of the laws of the crates below, in one call. It
/// does nothing when it runs.
pub(crate) fn detaching_laws()
    ensures more { MoreKeepAll }
    ensures trimmed { TrimmingAttachesTheSame }
{
    keeping_laws();
    watching_laws();
}

/// What a cut leaves as it was, of the laws of the crates below, in one call. It does nothing when
/// it runs.
pub(crate) fn cut_apart_laws()
    ensures shown { CutsLeaveElements }
    ensures others { CutsLeaveOthers }
    ensures uncut { RootsAreUncut }
    ensures numbers { CutsLeaveNumbers }
    ensures keeps { CutsKeepAll }
    ensures stay { FlowsStay }
{
    cut_laws();
    keeping_laws();
    flow_laws();
}

/// What a world whose arrays are written one after another shows, of the laws of the crates below, in
/// one call. It does nothing when it runs.
pub(crate) fn write_arrays_laws()
    ensures below { LiveLieBelow }
    ensures live { NewIsLive }
    ensures older { OlderStay }
    ensures older_elements { OlderElementsStay }
    ensures root_seen { NewRootIsSeen }
{
    growth_laws();
    newest_laws();
}

/// Lines behind lines are too long exactly where one or the other are, of the laws of the crates below.
/// The call does nothing when it runs.
pub(crate) fn lines_law()
    ensures { LinesJoin }
{
    dump_laws();
}
