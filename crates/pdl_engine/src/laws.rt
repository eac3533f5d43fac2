//! Laws of the engine.
ghost use Rattle.pdl_engine.specs.HoldLaws.{CountedAreHeld, HeldAreCounted, OneLessCounts, NothingIsWritten, OneMoreCounts, OthersDontCount, StayingCount, WhatWaitsIsLeft};
ghost use Rattle.pdl_engine.specs.Runs.{ScriptsAreFollowed};
ghost use Rattle.pdl_engine.specs.Worked.{ScriptsAreWorked};

use pdl_world::{assignment_laws, growth_laws, sweep_laws};

/// Scripts of calls worked by hand: what can be lent and what waits after each call, and the steps
/// that it takes, or at most takes, are as the clauses of the calls say. The call does nothing when
/// it runs.
pub fn worked_scripts()
    ensures { ScriptsAreWorked }
{}

/// What is so after one call (`worked`) is so after whole scripts: an engine that makes a script's
/// calls, each from where the one before left it, is as the script has it after each of them, can
/// lend what the script lends, and took no more steps. The call does nothing when it runs.
pub fn followed_scripts()
    ensures { ScriptsAreFollowed }
{
    growth_laws();
    assignment_laws();
    sweep_laws()
}

/// What one hold more or less changes in a list of holds, what stays of one, which arrays are
/// counted as held, and that letting go writes nothing back where no view goes. It does nothing:
/// who calls it has them.
pub fn hold_laws()
    ensures more { OneMoreCounts }
    ensures less { OneLessCounts }
    ensures staying { StayingCount }
    ensures held { CountedAreHeld }
    ensures counted { HeldAreCounted }
    ensures others { OthersDontCount }
    ensures unwritten { NothingIsWritten }
    ensures waiting { WhatWaitsIsLeft }
{
    sweep_laws()
}
