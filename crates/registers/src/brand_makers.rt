//! Who made each brand: the host, the call that makes an issuer kit, or an instance. Its one contract:
//! contracts see the makers at the turn's start and now, by the number of their brand; a turn's new
//! ones are undone without memory.

ghost use Rattle.std.specs.Prelude.{◌≡◌, ◌<◌, ◌++◌, ◌∷◌, [], IfOk, OnErr, OnOk, length};
ghost use Rattle.world_state.specs.Worlds.{maker_at};
ghost use Rattle.registers.specs.Makers.{back_at, kept_at, maker_view, makers_of, started};

use std::alloc::{AllocError, Global};
use std::marker::Model;

/// Who made a brand.
#[derive(Clone, Copy)]
pub enum Maker {
    /// The host: the brand is that of invitations.
    Host,
    /// The call that makes an issuer kit, whose mint is given out (ERTP's makeIssuerKit).
    Kit,
    /// An instance, by its number, which keeps the mint (Zoe's makeZCFMint).
    Instance(u32),
}

/// The maker of each brand, by the brand's number. Contracts see those at the turn's start, and those of now
/// (specs/Makers.antt).
#[derive(Drop)]
pub struct BrandMakers {
    makers: Vec<Maker>,
    /// How many brands were made at the turn's start.
    kept: usize,
}

impl Model for BrandMakers {
    ghost use Rattle.std.specs.Prelude.{◌≤◌, length, take};
    ghost use Rattle.registers.specs.Makers.{MakersState};

    ghost Value = { MakersState };

    ghost view = { λ m. record { start = take m.kept m.makers.items; now = m.makers.items } };

    ghost invariant = { λ m. m.kept ≤ length m.makers.items };
}

impl BrandMakers {
    /// The makers of a new host's brands: brand 0, that of invitations, is the host's own.
    pub fn new(alloc: Global) -> Result<BrandMakers, AllocError>
        ensures { IfOk result (λ made. made ≡ started) }
    {
        let mut makers = Vec::new(alloc);
        makers.push(Maker::Host)?;
        Ok(BrandMakers { makers, kept: 1 })
    }

    /// Adds who made the next brand. For want of memory all is as before.
    pub fn add(&mut self, maker: Maker) -> Result<(), AllocError>
        ensures ok { OnOk result (self.new ≡ record self.old { now = self.old.now ++ maker ∷ [] }) }
        ensures err { OnErr result (self.new ≡ self.old) }
    {
        self.makers.push(maker)?;
        Ok(())
    }

    /// Who made a brand.
    pub fn maker(&self, brand: u16) -> Maker
        requires { brand < length self.now.now }
        ensures { maker_view result ≡ maker_at (makers_of self.now.now) brand }
    {
        self.makers[brand as usize]
    }

    /// Goes back to how it was at the turn's start. It takes no memory.
    pub fn back(&mut self)
        ensures { self.new ≡ back_at self.old }
    {
        self.makers.truncate(self.kept);
    }

    /// Forgets how it was: what is now is kept. It takes no memory.
    pub fn forget(&mut self)
        ensures { self.new ≡ kept_at self.old }
    {
        self.kept = self.makers.len();
    }
}
