//! Laws of what the turns of a run name, move, mint, withdraw and spend. The bodies are empty: what they state is proved
//! of the definitions.

ghost use Rattle.std.specs.Prelude.{◌≤◌, ℕ, List};
ghost use Rattle.std.specs.List.{AllByRecursion};
ghost use Rattle.licence_laws.specs.Minting.{IsCalledForTurn};
ghost use Rattle.licence_laws.specs.Spending.{IsSpentByNameTurn};
ghost use Rattle.licence_laws.specs.rules.Zoe.{ReadsModules, TextReader};
ghost use Rattle.run_laws.specs.Licences.{IsLicensedTurn};
ghost use Rattle.run_laws.specs.Runs.{most_meter, run_of, turns_of};

/// What each turn of a run moves from outside and from purses is called for by what its rows show, where what is read
/// of texts are modules that can be installed.
pub fn runs_mint_where_it_is_called_for()
    ensures each { (read : TextReader) (meter most : ℕ) (input : List ℕ)
        → ReadsModules read → meter ≤ most_meter
        → AllByRecursion IsCalledForTurn (turns_of read meter most input) }
{}

/// What each moves from a payment stands in rows that name it.
pub fn runs_spend_by_name()
    ensures each { (read : TextReader) (meter most : ℕ) (input : List ℕ)
        → ReadsModules read → meter ≤ most_meter
        → AllByRecursion IsSpentByNameTurn (turns_of read meter most input) }
{}

/// Each turn of a run is licensed.
pub fn runs_are_licensed()
    ensures each { (read : TextReader) (meter most : ℕ) (input : List ℕ)
        → ReadsModules read → meter ≤ most_meter
        → AllByRecursion IsLicensedTurn (run_of read meter most input).turns }
{}
