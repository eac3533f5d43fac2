//! Laws of the machine.
ghost use Rattle.pdl_machine.specs.Worked.{ASliceIsWrittenThrough, ASliceEndsWithin};
ghost use Rattle.pdl_machine.specs.WorkedCuts.{ACutTakesItsViews, ACutGivesPlaces, ACutPartsAClump, ABindingCutsTheArray, ANameIsGivenUp, OtherDimensions, OtherDimensionsAreRefused};
ghost use Rattle.pdl_machine.specs.WorkedWatches.{AViewTells, AWatchKeepsItsArray, ASlotIsGivenUp, WatchersAreRefused};
ghost use Rattle.pdl_machine.specs.WorkedFlows.{AFlowFollows, FlowsFollowFlows, AViewKeepsItsFlow, FlowsAreRefused};
ghost use Rattle.pdl_machine.specs.WorkedNice.{PatternsAreFilledIn, NiceSlicesAreSlices, ValuesLookUp, NiceFaultsInOrder};
ghost use Rattle.pdl_machine.specs.Laws.{StepsAlike, NewArraysUnseen, LettingGoUnseen, SweepsByFewer, StepsLeaveReached, TidyingShowsTheSame, KeptAreNeeded, NeededFlowsStay, PathsReach, SettlingUnseen};
ghost use Rattle.pdl_machine.specs.Laws.{LimitsAre, ViewsAreViewWords, OnlyAssignmentsTell, GrowingTellsTheSame, StepsGiveNone, StepsKeepThere, EitherTextOrNotices, TrimmingAttachesTheSame};
ghost use Rattle.pdl_machine.specs.FlowLaws.{FlowsStay, FlowsFollow, OnlyAffectedFollow, FlowsRest, OthersKeepFlows, LettingGoKeepsFlows, TidyingKeepsFlows, FormulasAreValues};

use pdl_flow::meaning_laws;
use pdl_watch::{change_laws, slot_laws};
use pdl_world::{assignment_laws, cut_laws, growth_laws, newest_laws, reshape_laws, sweep_laws};

/// The laws of numbers and of arrays that nothing reaches. Where nothing is left over, a step from
/// the renumbered state is the step (`alike`): so code may number its arrays as it likes. New
/// arrays that nothing reaches are unseen in the tidied state (`unseen`), and so is letting go of
/// arrays while all that the state needs is held (`gone`), also one after another: a sweep by fewer
/// after one by more is the sweep by fewer (`again`); so is letting go of all that the state doesn't
/// keep, flows and arrays (`settled`). An array that is left over can be seen by the next statement,
/// since a view of an array refuses it other dimensions: so code lets go what nothing reaches at the
/// end of each. The call does nothing when it runs.
pub fn numbering_laws()
    ensures alike { StepsAlike }
    ensures unseen { NewArraysUnseen }
    ensures gone { LettingGoUnseen }
    ensures again { SweepsByFewer }
    ensures settled { SettlingUnseen }
{}

/// The laws of the arrays and flows that a step keeps. The arrays are the least set that has those
/// of names and watches, the parents of its views, and all that the formula of a flow reads whose
/// root it has (`needed`); the flows that stay are those whose root it has (`stay`). So after a step
/// each array is reached from a name, a watch or the formula of a flow that is kept, directly or
/// through views (`reached`), and letting the others go changes nothing that a name shows
/// (`shown`). An array on the path of one that is held is reached (`paths`). The call does nothing
/// when it runs.
pub fn reaching_laws()
    ensures needed { KeptAreNeeded }
    ensures stay { NeededFlowsStay }
    ensures reached { StepsLeaveReached }
    ensures shown { TidyingShowsTheSame }
    ensures paths { PathsReach }
{
    sweep_laws()
}

/// Two scripts worked by hand. The call does nothing when it runs.
pub fn worked_scripts()
    ensures through { ASliceIsWrittenThrough }
    ensures within { ASliceEndsWithin }
{}

/// Scripts of cuts, other dimensions and names that are given up, worked by hand. The call does
/// nothing when it runs.
pub fn worked_cuts()
    ensures views { ACutTakesItsViews }
    ensures places { ACutGivesPlaces }
    ensures clump { ACutPartsAClump }
    ensures bound { ABindingCutsTheArray }
    ensures given_up { ANameIsGivenUp }
    ensures dimensions { OtherDimensions }
    ensures refused { OtherDimensionsAreRefused }
{}

/// Scripts of watchers, worked by hand: what each slot is told, which arrays stay for them, and
/// each refusal. The call does nothing when it runs.
pub fn worked_watches()
    ensures view { AViewTells }
    ensures kept { AWatchKeepsItsArray }
    ensures given_up { ASlotIsGivenUp }
    ensures refused { WatchersAreRefused }
{}

/// The laws of watchers. Only an assignment tells them anything (`assignments`), so a statement has
/// text or notices, never both (`either`); new arrays that come before its change are not seen in
/// what it tells (`growing`). A step gives no slot a watcher (`none_comes`), and where each
/// attached slot has one before a step, so it is after it (`there`). Entries behind the last
/// attached slot attach nothing (`trimmed`). The call does nothing when it runs.
pub fn watching_laws()
    ensures assignments { OnlyAssignmentsTell }
    ensures either { EitherTextOrNotices }
    ensures growing { GrowingTellsTheSame }
    ensures none_comes { StepsGiveNone }
    ensures there { StepsKeepThere }
    ensures trimmed { TrimmingAttachesTheSame }
{
    growth_laws();
    cut_laws();
    reshape_laws();
    change_laws();
    slot_laws()
}

/// Calls of `nice`, as nice slices are written for them, worked by hand. The call does nothing when
/// it runs.
pub fn worked_nice()
    ensures filled_in { PatternsAreFilledIn }
    ensures slices { NiceSlicesAreSlices }
    ensures values { ValuesLookUp }
    ensures faults { NiceFaultsInOrder }
{}

/// The names of views are the view words of the grammar, which may stand in a target: none more,
/// and none fewer. The call that nice slices are written for is one of them. The call does nothing
/// when it runs.
pub fn view_words()
    ensures { ViewsAreViewWords }
{}

/// At most 512 names of arrays are bound at once, and at most 256 kernels are there. The call does
/// nothing when it runs.
pub fn limits_law()
    ensures { LimitsAre }
{}

/// The laws of flows. They equal their formulas as long as what these read shows the same, and their
/// roots are seen as before (`stay`). After an assignment, flows that follow one after another equal
/// their formulas again (`follow`), of which only those have to that read what changed, directly or
/// through flows (`affected`); those that equal them already change nothing (`rest`); any other
/// statement leaves them so (`others`), and so does letting go of what isn't needed (`kept`), also
/// with the others numbered anew (`tidied`). An expression that is a formula has the formula's value
/// (`values`). So after each step the root of each flow shows what its formula is. The call does
/// nothing when it runs.
pub fn flow_laws()
    ensures stay { FlowsStay }
    ensures follow { FlowsFollow }
    ensures affected { OnlyAffectedFollow }
    ensures rest { FlowsRest }
    ensures others { OthersKeepFlows }
    ensures kept { LettingGoKeepsFlows }
    ensures tidied { TidyingKeepsFlows }
    ensures values { FormulasAreValues }
{
    meaning_laws();
    assignment_laws();
    growth_laws();
    newest_laws();
    cut_laws();
    reshape_laws();
    sweep_laws();
    change_laws()
}

/// Scripts of flows, worked by hand: how they follow, which arrays stay for them, and each refusal.
/// The call does nothing when it runs.
pub fn worked_flows()
    ensures follow { AFlowFollows }
    ensures flows { FlowsFollowFlows }
    ensures view { AViewKeepsItsFlow }
    ensures refused { FlowsAreRefused }
{}
