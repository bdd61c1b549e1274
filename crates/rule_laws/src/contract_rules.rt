//! The laws. The bodies are empty: what they state is proved of the definitions.

ghost use Rattle.rule_laws.specs.GoodContracts.{AreGoodContractCalls};
ghost use Rattle.rules.specs.Methods.{serve_own};

/// Each call that a function of a contract makes has a good rule, whatever its target, method and arguments.
pub fn calls_of_contracts_are_good_rules()
    ensures good { AreGoodContractCalls serve_own }
{}
