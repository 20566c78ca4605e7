//! Laws of runs of publications, each the contract of a call that does nothing.

ghost use Rattle.publication_runs.specs.Readings.{ReadsPublication, IsPlainInDecimal, ReadsRun, LeavesRest, ExtendsRun, TakesFront, IsSample};

/// A text that begins with a publication is read as this publication, and then as what stands behind it. Whatever can be published can be
/// written so, with its size in decimal. (NATS documentation, "Client Protocol": `PUB`.)
pub fn publication_is_read()
    ensures reads { ReadsPublication }
    ensures decimal { IsPlainInDecimal }
{}

/// A text that begins with a run is read as its publications, in order, and then as what stands behind them. That is what is left of the
/// text once as many bytes are used up as it is shorter.
pub fn run_is_read()
    ensures reads { ReadsRun }
    ensures leaves { LeavesRest }
    ensures sample { IsSample }
{}

/// A run is found publication by publication: one more behind a run makes a run, and any first part of a run is one.
pub fn run_is_found()
    ensures extends { ExtendsRun }
    ensures front { TakesFront }
{}
