//! The laws. The bodies are empty: what they state is proved of the definitions.

ghost use Rattle.rule_laws.specs.GoodServices.{AreGoodServices};
ghost use Rattle.rules.specs.Zoe.{ReadsModules, TextReader};
ghost use Rattle.rules.specs.Methods.{serve};

/// Each call of the host's own objects has a good rule, whatever its target, method and arguments, and whatever
/// reader tells what the text of a contract is, so long as what it reads are modules that can be installed.
pub fn calls_of_services_are_good_rules()
    ensures good { (read : TextReader) → ReadsModules read → AreGoodServices (serve read) }
{}
