//! The laws of names and scopes.
ghost use Rattle.jessie_grammar.specs.OpenBlocks.{OpenBlocksStand, FirstIsTold};

/// What stands somewhere in a text is what was put there before, but for what stands in blocks that were
/// closed.
pub fn open_blocks_stand()
    ensures { OpenBlocksStand }
{}

/// The first fault is that of the first name use with which something is wrong, by what stands before it;
/// where there is none, nothing is wrong with any.
pub fn first_is_told()
    ensures { FirstIsTold }
{}
