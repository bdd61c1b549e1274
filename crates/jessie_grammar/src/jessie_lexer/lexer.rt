//! Cutting a text into tokens.
ghost use Rattle.std.specs.Prelude.{if◌then◌else◌, codes, ◌≡◌, ◌≤◌, [], ◌∷◌, ◌==◌, length, take_while, IfOk, IfSome, drop, false, None, Some, Option};
ghost use Rattle.std.specs.Str.{is_utf8, IsUtf8, bytes_eq};
ghost use Rattle.jessie_grammar.specs.Lex as lex;

use crate::jessie_lexer::token::{Kind, Token};
use host_text::text::Text;
use std::alloc::{AllocError, Global};
use std::str;

fn is_blank(b: u8) -> bool
    ensures { result ≡ lex.is_blank b }
{
    b == b' ' || b == b'\t' || b == b'\n' || b == b'\r'
}

fn is_word_start(b: u8) -> bool
    ensures { result ≡ lex.is_word_start b }
{
    (b'A' <= b && b <= b'Z') || (b'a' <= b && b <= b'z') || b == b'_'
}

fn is_word_byte(b: u8) -> bool
    ensures { result ≡ lex.is_word_byte b }
{
    is_word_start(b) || (b'0' <= b && b <= b'9')
}

fn head(bytes: &[u8]) -> Option<u8>
    ensures { result ≡ lex.head bytes.now }
{
    match bytes {
        [] => None,
        [b, ..] => Some(*b),
    }
}

/// Whether it is that byte.
fn is_byte(found: Option<u8>, b: u8) -> bool
    ensures { result ≡ lex.is_byte b found }
{
    match found {
        None => false,
        Some(c) => c == b,
    }
}

/// What follows blanks and comments.
#[tactic(auto, unfolding(crate::specs::Lex::skip))]
fn skip(bytes: &[u8]) -> &[u8]
    ensures { result.now ≡ lex.skip false bytes.now }
{
    let mut rest = bytes;
    let mut comment = false;
    'blanks: while let [b, after @ ..] = rest {
        if comment {
            comment = *b != b'\n';
        } else if *b == b'/' && is_byte(head(after), b'/') {
            comment = true;
        } else if !is_blank(*b) {
            return rest;
        }
        rest = after;
    }
    rest
}

fn escape(c: u8) -> Option<u8>
    ensures { result ≡ lex.escape c }
{
    match c {
        b'n' => Some(b'\n'),
        b't' => Some(b'\t'),
        b'\\' | b'\'' | b'"' => Some(c),
        _ => None,
    }
}

/// The byte that a byte of a text stands for, where it may stand there: after a backslash, or not.
fn byte_meaning(escaped: bool, b: u8) -> Option<u8>
    ensures { result ≡ (if escaped then lex.escape b else if b == 10 then None else Some b) }
{
    if escaped {
        escape(b)
    } else if b == b'\n' {
        None
    } else {
        Some(b)
    }
}

/// The text up to its closing quote, and what follows.
#[tactic(auto, unfolding(crate::specs::Lex::quoted))]
fn quoted_bytes(
    alloc: Global,
    quote: u8,
    bytes: &[u8],
) -> Result<Option<(Vec<u8>, &[u8])>, AllocError>
    ensures { IfOk result (λ r. lex.seen r ≡ lex.quoted quote false [] bytes.now) }
{
    let mut found = Vec::new(alloc);
    let mut rest = bytes;
    let mut escaped = false;
    'bytes: while let [b, after @ ..] = rest {
        let b = *b;
        rest = after;
        if !escaped && b == quote {
            return Ok(Some((found, after)));
        }
        if !escaped && b == b'\\' {
            escaped = true;
        } else {
            let Some(d) = byte_meaning(escaped, b) else {
                return Ok(None);
            };
            found.push(d)?;
            escaped = false;
        }
    }
    Ok(None)
}

fn is(word: &[u8], name: &str) -> bool
    ensures { result ≡ bytes_eq word.now name.now }
{
    word == name.as_bytes()
}

/// The kind of a word.
fn keyword(word: &[u8]) -> Kind
    ensures { result ≡ lex.keyword word.now }
{
    if is(word, "export") {
        Kind::Export
    } else if is(word, "of") {
        Kind::Of
    } else if is(word, "catch") {
        Kind::Catch
    } else if is(word, "else") {
        Kind::Else
    } else if is(word, "const") {
        Kind::Const
    } else if is(word, "let") {
        Kind::Let
    } else if is(word, "if") {
        Kind::If
    } else if is(word, "while") {
        Kind::While
    } else {
        late_keyword(word)
    }
}

/// The kind of a word that is none of those before.
fn late_keyword(word: &[u8]) -> Kind
    ensures { result ≡ lex.kind_among (drop 8 lex.quoted_words) word.now }
{
    if is(word, "for") {
        Kind::For
    } else if is(word, "return") {
        Kind::Return
    } else if is(word, "throw") {
        Kind::Throw
    } else if is(word, "try") {
        Kind::Try
    } else if is(word, "E") {
        Kind::Eventually
    } else if is(word, "AmountMath") {
        Kind::AmountMath
    } else if is(word, "true") {
        Kind::True
    } else if is(word, "false") {
        Kind::False
    } else if is(word, "null") {
        Kind::Null
    } else {
        Kind::Word
    }
}

/// The mark of one byte.
fn short_mark(b: u8) -> Kind
    ensures { result ≡ lex.short_mark b }
{
    match b {
        b'(' => Kind::LeftParen,
        b')' => Kind::RightParen,
        b'[' => Kind::LeftBracket,
        b']' => Kind::RightBracket,
        b'{' => Kind::LeftBrace,
        b'}' => Kind::RightBrace,
        b',' => Kind::Comma,
        b';' => Kind::Semicolon,
        b':' => Kind::Colon,
        b'.' => Kind::Dot,
        b'?' => Kind::Question,
        b'+' => Kind::Plus,
        b'-' => Kind::Minus,
        b'*' => Kind::Times,
        b'/' => Kind::Over,
        b'%' => Kind::Remainder,
        b'=' => Kind::Equals,
        b'!' => Kind::Not,
        b'<' => Kind::Less,
        b'>' => Kind::Greater,
        _ => Kind::Bad,
    }
}

/// The longest mark that begins with `b` before those two bytes, and its length.
fn mark(b: u8, next: Option<u8>, after: Option<u8>) -> (Kind, usize)
    ensures { result ≡ lex.mark b next after }
{
    let equals = is_byte(next, b'=') && is_byte(after, b'=');
    if b == b'=' && equals {
        (Kind::Same, 3)
    } else if b == b'!' && equals {
        (Kind::Differs, 3)
    } else if b == b'=' && is_byte(next, b'>') {
        (Kind::Arrow, 2)
    } else if b == b'|' && is_byte(next, b'|') {
        (Kind::Or, 2)
    } else if b == b'&' && is_byte(next, b'&') {
        (Kind::And, 2)
    } else if b == b'<' && is_byte(next, b'=') {
        (Kind::AtMost, 2)
    } else if b == b'>' && is_byte(next, b'=') {
        (Kind::AtLeast, 2)
    } else {
        (short_mark(b), 1)
    }
}

/// How many bytes of a word there are.
fn word_len(bytes: &[u8]) -> usize
    ensures len { result ≤ length bytes.now }
    ensures value { result ≡ length (take_while lex.is_word_byte bytes.now) }
{
    bytes.iter().take_while(|b| is_word_byte(**b)).count()
}

fn is_digit(b: u8) -> bool
    ensures { result ≡ lex.is_digit b }
{
    b'0' <= b && b <= b'9'
}

fn digits_len(bytes: &[u8]) -> usize
    ensures len { result ≤ length bytes.now }
    ensures value { result ≡ length (take_while lex.is_digit bytes.now) }
{
    bytes.iter().take_while(|b| is_digit(**b)).count()
}

/// The largest number.
const LIMIT: u128 = 170141183460469231731687303715884105727;

/// The number that the digits are; one more than the limit stands for all that is more.
#[tactic(auto, using(crate::proofs::Numbers::too_large), unfolding(crate::specs::Lex::decimal_from))]
fn number(digits: &[u8]) -> u128
    ensures { result ≡ lex.capped (lex.decimal digits.now) }
{
    let mut n: u128 = 0;
    let mut rest = digits;
    'digits: while let [b, after @ ..] = rest {
        let d = u128::from(b.saturating_sub(b'0'));
        if n > (LIMIT - d) / 10 {
            return LIMIT + 1;
        }
        n = 10 * n + d;
        rest = after;
    }
    n
}

/// A token with a text of its own.
fn word_token(alloc: Global, kind: Kind, at: usize, text: &str) -> Result<Token, AllocError>
    ensures { IfOk result (λ t. t ≡ lex.simple kind at text.now) }
{
    Ok(Token {
        kind,
        at,
        text: Text::from_str(alloc, text)?,
        number: 0,
    })
}

/// A token that is known by its kind.
fn kind_token(alloc: Global, kind: Kind, at: usize) -> Result<Token, AllocError>
    ensures { IfOk result (λ t. t ≡ lex.simple kind at []) }
{
    word_token(alloc, kind, at, "")
}

/// No token, and nothing after it.
fn bad_token<'a>(alloc: Global, at: usize) -> Result<(Token, &'a [u8]), AllocError>
    ensures { IfOk result (λ x. lex.bad at ≡ (x.0, x.1.now)) }
{
    Ok((kind_token(alloc, Kind::Bad, at)?, &[]))
}

fn number_token(alloc: Global, at: usize, number: u128) -> Result<Token, AllocError>
    ensures { IfOk result (λ t. t ≡ lex.of_number at number) }
{
    Ok(Token {
        kind: Kind::Number,
        at,
        text: Text::from_str(alloc, "")?,
        number,
    })
}

/// The token at the front, and what follows it.
#[tactic(auto, unfolding(crate::specs::Lex::piece))]
fn piece(alloc: Global, at: usize, bytes: &[u8]) -> Result<(Token, &[u8]), AllocError>
    ensures { IfOk result (λ x. lex.piece at bytes.now ≡ (x.0, x.1.now)) }
{
    let [first, after @ ..] = bytes else {
        return bad_token(alloc, at);
    };
    let b = *first;
    if is_word_start(b) {
        return word_piece(alloc, at, bytes);
    }
    if is_digit(b) {
        let (digits, rest) = bytes.split_at(digits_len(bytes));
        return digits_at(alloc, at, digits, rest);
    }
    if b == b'\'' || b == b'"' {
        return quoted_at(alloc, at, b, after);
    }
    let found = mark(b, head(after), second_byte(after));
    mark_at(alloc, at, found, bytes)
}

fn second_byte(bytes: &[u8]) -> Option<u8>
    ensures { result ≡ lex.head (drop 1 bytes.now) }
{
    match bytes {
        [_, b, ..] => Some(*b),
        _ => None,
    }
}

/// A word, which is ASCII.
fn word_at(alloc: Global, at: usize, word: &[u8]) -> Result<Token, AllocError>
    requires { IsUtf8 word.now }
    ensures { IfOk result (λ t. t ≡ lex.simple (lex.keyword word.now) at word.now) }
{
    let Ok(text) = str::from_utf8(word) else {
        unreachable!()
    };
    word_token(alloc, keyword(word), at, text)
}

/// The word at the front, and what follows it.
fn word_piece(alloc: Global, at: usize, bytes: &[u8]) -> Result<(Token, &[u8]), AllocError>
    ensures word { IfOk result (λ x. let w = take_while lex.is_word_byte bytes.now in
        x.0 ≡ lex.simple (lex.keyword w) at w) }
    ensures rest { IfOk result (λ x. let w = take_while lex.is_word_byte bytes.now in
        x.1.now ≡ drop (length w) bytes.now) }
{
    let (word, rest) = bytes.split_at(word_len(bytes));
    Ok((word_at(alloc, at, word)?, rest))
}

fn mark_at(
    alloc: Global,
    at: usize,
    found: (Kind, usize),
    bytes: &[u8],
) -> Result<(Token, &[u8]), AllocError>
    ensures { IfOk result (λ x. lex.of_mark at found bytes.now ≡ (x.0, x.1.now)) }
{
    Ok((kind_token(alloc, found.0, at)?, drop_front(bytes, found.1)))
}

fn drop_front(bytes: &[u8], len: usize) -> &[u8]
    ensures { result.now ≡ drop len bytes.now }
{
    if len <= bytes.len() {
        &bytes[len..]
    } else {
        &[]
    }
}

fn digits_at<'a>(
    alloc: Global,
    at: usize,
    digits: &[u8],
    rest: &'a [u8],
) -> Result<(Token, &'a [u8]), AllocError>
    ensures { IfOk result (λ x. lex.of_digits at digits.now rest.now ≡ (x.0, x.1.now)) }
{
    match rest {
        [b'n', after @ ..] => Ok((number_token(alloc, at, number(digits))?, after)),
        _ => bad_token(alloc, at),
    }
}

fn quoted_at(
    alloc: Global,
    at: usize,
    quote: u8,
    bytes: &[u8],
) -> Result<(Token, &[u8]), AllocError>
    ensures { IfOk result (λ x. lex.of_quoted at (lex.quoted quote false [] bytes.now) ≡ (x.0, x.1.now)) }
{
    let Some((found, rest)) = quoted_bytes(alloc, quote, bytes)? else {
        return bad_token(alloc, at);
    };
    text_at(alloc, at, found.as_slice(), rest)
}

fn text_at<'a>(
    alloc: Global,
    at: usize,
    found: &[u8],
    rest: &'a [u8],
) -> Result<(Token, &'a [u8]), AllocError>
    ensures { IfOk result (λ x. lex.of_quoted at (Some (found.now, rest.now)) ≡ (x.0, x.1.now)) }
{
    match str::from_utf8(found) {
        Ok(text) => Ok((word_token(alloc, Kind::Quoted, at, text)?, rest)),
        Err(_) => bad_token(alloc, at),
    }
}

/// The tokens of a text, each with its place.
pub fn tokens(alloc: Global, bytes: &[u8]) -> Result<Vec<Token>, AllocError>
    ensures { IfOk result (λ v. v.items ≡ lex.cut bytes.now) }
{
    let mut found = Vec::new(alloc);
    let mut rest = bytes;
    'turns: for _turn in 0..bytes.len() {
        let here = skip(rest);
        if here.is_empty() {
            return Ok(found);
        }
        let at = bytes.len().saturating_sub(here.len());
        let (token, after) = piece(alloc, at, here)?;
        found.push(token)?;
        rest = after;
    }
    Ok(found)
}
