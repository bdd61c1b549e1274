//! Which kinds of tokens begin what.
ghost use Rattle.std.specs.Prelude.{[], ◌∷◌, ◌≡◌, ◌<◌};
ghost use Rattle.jessie_grammar.specs.Tokens.{kind as first_kind, has};
ghost use Rattle.jessie_grammar.specs.Words as words;
ghost use Rattle.jessie_grammar.specs.Levels.{level_at};
ghost use Rattle.jessie_grammar.specs.StatementList.{names_after};

use jessie_grammar::jessie_lexer::token::{Kind, Token, number_of, peek};

/// Whether the first token is of that kind.
pub fn is(tokens: &[Token], kind: Kind) -> bool
    ensures { result ≡ has (kind ∷ []) (first_kind tokens.now) }
{
    number_of(kind) == number_of(peek(tokens))
}

/// Whether it is a word, which may be a name where only a name may stand.
pub fn is_word(kind: Kind) -> bool
    ensures { result ≡ has words.words kind }
{
    let n = number_of(kind);
    1 <= n && n <= 18
}

/// Whether it may be a name where an expression begins.
pub fn is_free_word(kind: Kind) -> bool
    ensures { result ≡ has words.free_words kind }
{
    let n = number_of(kind);
    1 <= n && n <= 13
}

/// Whether it may be a name where a statement begins, which may stand after an `if` that may go on.
pub fn is_leading_word(kind: Kind, after_if: bool) -> bool
    ensures { result ≡ has (names_after after_if) kind }
{
    let n = number_of(kind);
    if after_if {
        1 <= n && n <= 4
    } else {
        1 <= n && n <= 5
    }
}

pub fn is_literal(kind: Kind) -> bool
    ensures { result ≡ has words.literals kind }
{
    let n = number_of(kind);
    16 <= n && n <= 20
}

/// Whether it stands before an operand: `!` or `-`.
pub fn is_sign(kind: Kind) -> bool
    ensures { result ≡ has words.signs kind }
{
    let n = number_of(kind);
    n == 43 || n == 47
}

/// Whether it is an operator of the level, where 0 is the loosest.
pub fn is_operator(kind: Kind, level: u8) -> bool
    ensures { result ≡ has (level_at level).0 kind }
{
    let n = number_of(kind);
    match level {
        0 => n == 34,
        1 => n == 35,
        2 => n == 36 || n == 37,
        3 => 38 <= n && n <= 41,
        4 => n == 42 || n == 43,
        _ => 44 <= n && n <= 46,
    }
}

/// Whether more operators of the level may follow each other.
pub fn repeats(level: u8) -> bool
    ensures { result ≡ (level_at level).1 }
{
    !(level == 2 || level == 3)
}

/// Whether an access behind an expression begins so.
pub fn begins_access(kind: Kind) -> bool
    ensures { result ≡ has words.access_begins kind }
{
    let n = number_of(kind);
    n == 23 || n == 30
}

/// Whether an expression begins so that begins with no name and is no record.
pub fn begins_bare(kind: Kind) -> bool
    ensures { result ≡ has words.bare_begins kind }
{
    let n = number_of(kind);
    (14 <= n && n <= 21) || n == 23
}

pub fn begins_statement(kind: Kind) -> bool
    ensures { result ≡ has words.statement_begins kind }
{
    let n = number_of(kind);
    (1 <= n && n <= 21) || n == 23 || n == 43 || n == 47
}

/// Whether a function or a state variable begins so.
pub fn begins_item(kind: Kind) -> bool
    ensures { result ≡ has words.item_begins kind }
{
    let n = number_of(kind);
    n == 2 || n == 6 || n == 7
}
