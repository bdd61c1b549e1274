//! That the tokens of a text, with the space between them, make it up.
ghost use Rattle.jessie_grammar.specs.Pieces.{TokensMakeUpTexts};

/// The tokens of a text, with the space between them, make up the text, each with its place; what is no
/// token is one, of kind Bad, up to the text's end.
pub fn tokens_make_up_texts()
    ensures { TokensMakeUpTexts }
{}
