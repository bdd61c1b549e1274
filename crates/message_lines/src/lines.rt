//! The lines of an input: what stands between its line feeds. Its one contract is that the lines
//! given are those of the whole input, in order, the one after the last line feed too.

ghost use Rattle.std.specs.Prelude.{◌≡◌, ◌==◌, Some, position};
ghost use Rattle.std.specs.List.{list_any};
ghost use Rattle.message_lines.specs.InputLines.{is_blank, is_long, lines_of};

use std::marker::Model;

/// The most bytes of a line, its line feed left out.
pub const MAX_LINE: usize = 1 << 20;

/// The most bytes of an input.
pub const MAX_INPUT: usize = 1 << 30;

/// The lines of a slice, one after another. Contracts see those that are left.
#[derive(Drop)]
pub struct Lines<'a> {
    rest: Option<&'a [u8]>,
}

impl<'a> Model for Lines<'a> {
    ghost use Rattle.std.specs.Prelude.{List, ℕ};
    ghost use Rattle.message_lines.specs.InputLines.{lines_left};

    ghost Value = { List (List ℕ) };

    ghost view = { λ s. lines_left s.rest };
}

impl<'a> Lines<'a> {
    /// The lines of the bytes.
    pub fn new(bytes: &'a [u8]) -> Self
        ensures { result ≡ lines_of bytes.entry.now }
    {
        Lines { rest: Some(bytes) }
    }
}

impl<'a> Iterator for Lines<'a> {
    type Item = &'a [u8];

    ghost use Rattle.std.specs.Iterator.{YieldsFirstRef, item_count};

    ghost next_gives = { YieldsFirstRef (λ s. s) };

    ghost remaining = { item_count (λ s. s) };

    fn next(&mut self) -> Option<&'a [u8]> {
        let rest = self.rest?;
        match line_end(rest) {
            Some(end) => {
                self.rest = Some(&rest[end + 1..]);
                Some(&rest[..end])
            }
            None => {
                self.rest = None;
                Some(rest)
            }
        }
    }
}

/// Where the first line feed is.
fn line_end(bytes: &[u8]) -> Option<usize>
    ensures { result ≡ position (λ b. b == 10) bytes.now }
{
    bytes.iter().position(|b| *b == b'\n')
}

/// Whether a line has spaces, tabs and carriage returns alone.
pub fn is_blank(line: &[u8]) -> bool
    ensures { result ≡ is_blank line.now }
{
    line.iter()
        .all(|b| *b == b' ' || *b == b'\t' || *b == b'\r')
}

/// Whether a line of the input is longer than the limit.
pub fn has_long_line(input: &[u8]) -> bool
    ensures { result ≡ list_any is_long (lines_of input.now) }
{
    Lines::new(input).any(|line| line.len() > MAX_LINE)
}
