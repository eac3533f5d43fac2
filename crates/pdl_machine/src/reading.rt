//! Laws of what a text is read as, and of runs.
ghost use Rattle.pdl_machine.specs.Reads.{PlainTextsStay};
ghost use Rattle.pdl_machine.specs.StatementMeaning.{ReadsItsMeaning, MeansOneThing, PlainMeansOneThing};
ghost use Rattle.pdl_machine.specs.RunLaws.{EndedStays, PrintedStays, ToldStays, EachIsCounted, NoticesAreNumbered, NoneComes, NoneComesInARun, StayThere, AreThereInARun, FaultStays, GoesOn, FirstFaultEnds, EndedByAFault, RefusedStay, RefusedAreGiven, RefusedRise, RefusedAreFew, NoneIsRefused, RefusalsLeaveAll, LimitIs, TooLongEnds, LimitEnds, SoFarIsAFront, SoFarIsPrinted, SoFarIsTold, SoFarGrows, SoFarIsAll};

use pdl_lex::settled_laws;
use pdl_lexemes::brackets_are_counted;
use pdl_nice::{plain_meaning, texts_stay};
use pdl_syntax::parsing_is_the_grammar;
use pdl_watch::slot_laws;

/// What a run reads a text as is what it means (`means`), and it means nothing else (`one`): the
/// one statement that the grammar spells with the tokens of its plain text, or why it has no plain
/// text, or the first check that refuses these tokens. Of a plain text it is what the grammar says
/// (`plain`), and a text without nice slices reads as it stands (`stays`). The call does nothing
/// when it runs.
pub fn reads_law()
    ensures means { ReadsItsMeaning }
    ensures one { MeansOneThing }
    ensures plain { PlainMeansOneThing }
    ensures stays { PlainTextsStay }
{
    parsing_is_the_grammar();
    plain_meaning();
    texts_stay();
    brackets_are_counted();
}

/// The laws of runs: a fault or a refusal that ends a run ends it, and nothing else does; what was
/// printed stays, a fault that came is remembered, and only the bytes up to the one past the limit
/// of a script count. What watchers were told stays too (`told`). Each statement is counted
/// (`counted`), and its notices have that number (`numbered`). No slot gets a watcher
/// (`none_comes`, `none_in_a_run`), and each that is attached has one (`there`, `there_in_a_run`).
/// A statement that memory refuses prints its line alone (`alone`). Those that it refused stay
/// written down (`refused`): each is one that the run was given no memory for, and came to
/// (`refused_in_a_run`), at most 64 (`few`, `most`), in rising order (`rising`), and none where
/// there is memory (`none_refused`). The call does nothing when it runs.
pub fn run_laws()
    ensures ended { EndedStays }
    ensures printed { PrintedStays }
    ensures told { ToldStays }
    ensures counted { EachIsCounted }
    ensures numbered { NoticesAreNumbered }
    ensures none_comes { NoneComes }
    ensures none_in_a_run { NoneComesInARun }
    ensures there { StayThere }
    ensures there_in_a_run { AreThereInARun }
    ensures faulted { FaultStays }
    ensures goes_on { GoesOn }
    ensures first_fault { FirstFaultEnds }
    ensures by_fault { EndedByAFault }
    ensures refused { RefusedStay }
    ensures refused_in_a_run { RefusedAreGiven }
    ensures rising { RefusedRise }
    ensures few { RefusedAreFew }
    ensures none_refused { NoneIsRefused }
    ensures alone { RefusalsLeaveAll }
    ensures most { LimitIs }
    ensures too_long { TooLongEnds }
    ensures limit { LimitEnds }
{
    slot_laws()
}

/// How far a run has come by the first bytes of a script: whatever bytes follow, it goes on
/// from there (`goes_on`), and what it has printed by then is the front of all that it prints
/// (`printed`), and what watchers were told by then is the front of all of it (`told`); more bytes
/// carry it on from there (`grows`), and bytes that settle all of their statements run to their
/// end (`all`). The call does nothing when it runs.
pub fn so_far_laws()
    ensures goes_on { SoFarIsAFront }
    ensures printed { SoFarIsPrinted }
    ensures told { SoFarIsTold }
    ensures grows { SoFarGrows }
    ensures all { SoFarIsAll }
{
    settled_laws();
}
