//! Laws of dumps.
ghost use Rattle.pdl_image.specs.Laws.{EmptyIsEmpty, FewerAreTaken, LimitsAre, LinesJoin, MasksChoose, StemsAreFree};
ghost use Rattle.pdl_image.specs.Worked.{ArrangedIsDumped, EdgedIsDumped, IndexedIsDumped, LeastIsDumped, ViewedIsDumped};

/// What holds of every dump. No bound name begins with its stem (`free`), and with fewer underscores
/// some does (`fewest`). Lines behind lines are too long exactly where the first are, or the
/// others behind them (`join`). A mask chooses the positions that it was made of (`masks`). A statement
/// holds at most 1,000 elements, and a dump has at most 8,388,608 bytes (`limits`). Without kernels,
/// arrays and names the text is empty (`empty`). The call does nothing when it runs.
pub fn dump_laws()
    ensures free { StemsAreFree }
    ensures fewest { FewerAreTaken }
    ensures join { LinesJoin }
    ensures masks { MasksChoose }
    ensures limits { LimitsAre }
    ensures empty { EmptyIsEmpty }
{}

/// Dumps that were worked out by hand, to the byte. The call does nothing when it runs.
pub fn worked_dumps()
    ensures indexed { IndexedIsDumped }
    ensures least { LeastIsDumped }
    ensures viewed { ViewedIsDumped }
    ensures arranged { ArrangedIsDumped }
    ensures edged { EdgedIsDumped }
{}
