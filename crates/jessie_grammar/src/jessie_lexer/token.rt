//! Tokens and their kinds.
ghost use Rattle.std.specs.Prelude.{◌≡◌};
ghost use Rattle.jessie_grammar.specs.Tokens.{number_of, kind};

use host_text::text::Text;

/// What a token is. Each word that the grammar quotes has a kind of its own, and may be a name
/// elsewhere. Words stand first, by where they may be names: those up to `Else` where a statement
/// begins, those up to `Try` where an expression begins, all of them where only a name may stand.
#[derive(Clone, Copy)]
pub enum Kind {
    /// The end of the text.
    End,
    /// Any other word.
    Word,
    Export,
    Of,
    Catch,
    Else,
    Const,
    Let,
    If,
    While,
    For,
    Return,
    Throw,
    Try,
    /// `E`
    Eventually,
    AmountMath,
    True,
    False,
    Null,
    Number,
    /// A text in quotes.
    Quoted,
    LeftParen,
    RightParen,
    LeftBracket,
    RightBracket,
    LeftBrace,
    RightBrace,
    Comma,
    Semicolon,
    Colon,
    Dot,
    Equals,
    Arrow,
    Question,
    Or,
    And,
    Same,
    Differs,
    Less,
    AtMost,
    Greater,
    AtLeast,
    Plus,
    Minus,
    Times,
    Over,
    Remainder,
    Not,
    /// What is no token.
    Bad,
}

/// A token, and the place of its first byte in the text.
#[derive(Drop)]
pub struct Token {
    pub kind: Kind,
    pub at: usize,
    /// A word's bytes, and the bytes that a quoted text stands for; else empty.
    pub text: Text,
    /// A number's value, up to 2^127 - 1; 2^127 stands for all that is more. Else 0.
    pub number: u128,
}

/// The kind's place among the kinds.
pub fn number_of(kind: Kind) -> u8
    ensures { result ≡ number_of kind }
{
    kind as u8
}

/// The kind of the first token, or `End`.
pub fn peek(tokens: &[Token]) -> Kind
    ensures { result ≡ kind tokens.now }
{
    match tokens {
        [] => Kind::End,
        [token, ..] => token.kind,
    }
}
