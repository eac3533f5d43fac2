//! Laws of the states that a dump makes again.
ghost use Rattle.pdl_machine.specs.DumpableLaws.{EffectsKeepSpelled, EmptyIsDumpable, NumbersAreUnspelled, ShownAreMade, TidiedAreDumpable};

use pdl_elem::wrapping_laws;
use pdl_world::{cut_laws, sweep_laws};

/// What a session keeps, so that its dump makes it again: names are names and none stands twice,
/// kernels are as their texts define them, and a script can spell each view. A session that begins
/// has all of it (`empty`), and each statement that a script can hold keeps it (`keeps`). The state
/// after a statement is numbered anew and nothing in it is left over (`tidied`); under other
/// numbers it is spelled all the same (`numbers`). What a live array of a sound world shows can be
/// made as an array itself (`shown`). The call does nothing when it runs.
pub fn dumpable_laws()
    ensures empty { EmptyIsDumpable }
    ensures keeps { EffectsKeepSpelled }
    ensures tidied { TidiedAreDumpable }
    ensures numbers { NumbersAreUnspelled }
    ensures shown { ShownAreMade }
{
    wrapping_laws();
    cut_laws();
    sweep_laws()
}
