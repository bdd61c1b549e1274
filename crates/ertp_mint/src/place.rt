//! How many of a key are out, and how many were retired and may come out again without memory.

ghost use Rattle.std.specs.Prelude.{◌≡◌, ◌↔◌, IsTrue};
ghost use Rattle.ertp_mint.specs.Places.{Allows, changed, no_place};

/// What becomes of so many of a key.
#[derive(Clone, Copy)]
pub(crate) enum Change {
    /// They come out.
    Issue,
    /// An issue is worked backwards: they are out no more.
    UndoIssue,
    /// They are out no more, and may come out again without memory.
    Retire,
    /// A retirement is worked backwards: they are out again.
    UndoRetire,
    /// They may come out again without memory no more.
    Forget,
}

/// The counts of one key.
#[derive(Clone, Copy)]
pub(crate) struct Place {
    pub out: u128,
    pub kept: u128,
}

impl Place {
    /// The place of a key of which there is nothing.
    pub fn empty() -> Place
        ensures { result ≡ no_place }
    {
        Place { out: 0, kept: 0 }
    }

    /// Counts so many of the key in or out.
    pub fn change(&mut self, change: Change, count: u128)
        requires { Allows change count self.old }
        ensures { self.new ≡ changed change count self.old }
    {
        match change {
            Change::Issue => self.out += count,
            Change::UndoIssue => self.out -= count,
            Change::Retire => {
                self.out -= count;
                self.kept += count;
            }
            Change::UndoRetire => {
                self.kept -= count;
                self.out += count;
            }
            Change::Forget => self.kept -= count,
        }
    }

    /// Whether the key needs no place.
    pub fn is_empty(&self) -> bool
        ensures { IsTrue result ↔ (self.now ≡ no_place) }
    {
        self.out == 0 && self.kept == 0
    }
}
