//! The law. The body is empty: what it states is proved of the definitions.

ghost use Rattle.std.specs.Prelude.{◌≤◌, ℕ, List};
ghost use Rattle.std.specs.List.{AllByRecursion};
ghost use Rattle.licence_laws.specs.delivery_laws.Works.{most_meter};
ghost use Rattle.run_laws.specs.GoodTurns.{IsGoodTurn};
ghost use Rattle.run_laws.specs.Runs.{run_of};
ghost use Rattle.licence_laws.specs.rules.Zoe.{ReadsModules, TextReader};

/// Each turn of a run is the step of a good host, where what is read of texts are modules that can be installed.
pub fn hosts_of_runs_are_good()
    ensures good { (read : TextReader) (meter most : ℕ) (input : List ℕ)
        → ReadsModules read → meter ≤ most_meter
        → AllByRecursion (IsGoodTurn read) (run_of read meter most input).turns }
{}
