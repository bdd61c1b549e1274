//! What texts are read as.
ghost use Rattle.contract_texts.specs.Reader.{reader};
ghost use Rattle.rules.specs.Zoe.{ReadsModules};

/// What is read is a module as it is to be: what its state variables begin with names nothing, has
/// its fields in byte order, nests at most 32 deep and has numbers and texts in range; its functions,
/// and the fields of the records that it writes, have names of their form; and one function is
/// `start`.
pub fn reads_modules()
    ensures { ReadsModules reader }
{}
