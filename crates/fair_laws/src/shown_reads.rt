//! Laws of what is answered. The bodies are empty: what they state is proved of the definitions.

ghost use Rattle.delivery_laws.specs.rules.Zoe.{TextReader};
ghost use Rattle.fair_laws.specs.Reads.{CallsRead, ServicesRead};

/// What a call of an instance's function answers of a seat's allocation, or of one of its slots, is what is held.
pub fn calls_read_what_is_held()
    ensures { CallsRead }
{}

/// What a turn answers of a purse, of a payment, or of a seat that was left is what is, or was, held.
pub fn turns_read_what_is_held()
    ensures { (read : TextReader) → ServicesRead read }
{}
