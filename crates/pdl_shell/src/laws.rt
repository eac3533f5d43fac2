//! Laws of runs and of the answers to them.
ghost use Rattle.pdl_shell.specs.CourseLaws.{Laws};
ghost use Rattle.pdl_shell.specs.TwoStatements.{WorkedStatuses};
ghost use Rattle.pdl_shell.specs.Headline.{EndsAreQuiet, NoMemoryIsQuiet, SourceFaultsRise, SinkFaultsRise, WatcherFaultsRise, SourceFaultsLeave, RefusedAreRead, DoneReadsAll, ScriptFaultReads, EndsWriteAll, NoMemoryWritesAllOrAFront, AllWriteAFront, CutOffTellAFront, OthersTellAFront, NoPartIsReadBehind, FewAreTaken, QuietIsUndisturbed, UsageTakesNoMemory, UsageIsForNoSpelling, GeneratingFailsAlone};
ghost use Rattle.pdl_shell.specs.HeadlineSlots.{SlotsStay, WatchersStay, NoneAppears, CountsAreKept, OneFailsAlone, FinishingComesLast};

use pdl_machine::{run_laws, so_far_laws};
use pdl_watch::{slot_laws, telling_laws};

// The laws of slots and of runs that each step of a run is proved by. The call does nothing when
// it runs.
pub(crate) fn course_laws()
    ensures { Laws }
{
    run_laws();
    slot_laws();
    telling_laws();
}

/// What must follow from the words of `run_shell`'s contract: at the end every count of the source,
/// the sink and the watchers is as it was (`quiet`), and out of memory too (`memory`); a fault of
/// one of them comes only where its count rose (`source`, `sink`, `watcher`); after a fault of the
/// source just the text is written and just the notices are told of the statements that were whole
/// by then, none of which ended the run, and the refused ones are among these (`leaves`); whatever
/// the status, the refused statements are ones of the bytes taken, in rising order (`met`); with
/// Done nothing is left of the script (`reads`), and with ScriptFault nothing, or the bytes taken end
/// the run (`fault_reads`); at the end all is written and told (`writes`, and out of memory
/// `writes_some`), and else a front of it (`front`, `tells`, and where a watcher failed or out of
/// memory `tells_some`); fewer than 4,096 bytes are taken behind those that end the run (`soon`),
/// and no more of the source than the most that a call takes (`few`); where counts can rise and
/// don't, the call is undisturbed (`undisturbed`); words that are no spelling take no memory
/// (`usage`), those that are one aren't answered by Usage (`spelled`), and `--generate` only by
/// Done, SinkFault or NoMemory (`generates`).
///
/// Of watchers: there are as many slots as before (`slots`), a watcher is there still unless the
/// script gives it up (`stays`), and none appears (`appears`); the count of each that didn't fail
/// is as it was (`counts`, `alone`); and where one failed, or out of memory, none is finished but
/// behind all that is written, flushed and told, slot by slot (`last`). The call does nothing when
/// it runs.
pub fn headline_laws()
    ensures quiet { EndsAreQuiet }
    ensures memory { NoMemoryIsQuiet }
    ensures source { SourceFaultsRise }
    ensures sink { SinkFaultsRise }
    ensures watcher { WatcherFaultsRise }
    ensures leaves { SourceFaultsLeave }
    ensures met { RefusedAreRead }
    ensures reads { DoneReadsAll }
    ensures fault_reads { ScriptFaultReads }
    ensures writes { EndsWriteAll }
    ensures writes_some { NoMemoryWritesAllOrAFront }
    ensures front { AllWriteAFront }
    ensures tells { CutOffTellAFront }
    ensures tells_some { OthersTellAFront }
    ensures soon { NoPartIsReadBehind }
    ensures few { FewAreTaken }
    ensures undisturbed { QuietIsUndisturbed }
    ensures usage { UsageTakesNoMemory }
    ensures spelled { UsageIsForNoSpelling }
    ensures generates { GeneratingFailsAlone }
    ensures slots { SlotsStay }
    ensures stays { WatchersStay }
    ensures appears { NoneAppears }
    ensures counts { CountsAreKept }
    ensures alone { OneFailsAlone }
    ensures last { FinishingComesLast }
{
    run_laws();
    so_far_laws();
    slot_laws();
    telling_laws();
}

/// What each status says of scripts of two statements, worked by hand: with Done both texts are
/// written, with ScriptFault the first text and the fault's line, and neither status is the other
/// script's answer; with Usage its line; out of memory or where the sink failed a front of the
/// text; where memory refused the first statement, all is its line and the second text, it is the
/// one refused statement that the run met, and a front of that may be all that is written; where
/// the read behind the first statement failed, the first text; and where the watcher that is
/// attached at the end couldn't be finished, it was told nothing. The call does nothing when it
/// runs.
pub fn worked_statuses()
    ensures { WorkedStatuses }
{
    telling_laws();
}
