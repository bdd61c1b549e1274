//! Brands by number, each with one name, one kind and one issuer for good, and the issuers that an
//! instance keeps under keywords (ERTP, Zoe); a turn's new brands are undone without memory.
#![tactic(auto)]

pub mod issuer_record;

/// What `host_text` gives to those above.
pub mod host_text_lib {
    pub mod keyword {
        pub use host_text::keyword::Keyword;
    }

    pub mod label {
        pub use host_text::label::Label;
    }

    pub mod number {
        pub use host_text::number::read_number;
    }

    pub mod text {
        pub use host_text::text::Text;
    }
}

ghost use Rattle.std.specs.Prelude.{◌≡◌, ◌<◌, ◌≤◌, ◌↔◌, ◌++◌, ◌∷◌, [], length, IfErr, IfOk, IsOk, OnErr, OnOk};
ghost use Rattle.brands.specs.Brands.{back_at, brand_at, brand_of, kept_at, most_brands, started};

use amount_math::Kind;
use host_text::text::Text;
use std::alloc::{AllocError, Global};
use std::marker::Model;

/// The most brands, of which brand 0 is one (own).
pub const MOST_BRANDS: usize = 65_535;

/// A brand, as it was made.
#[derive(Drop)]
pub struct Brand {
    /// It is alleged, and needn't be its alone.
    pub name: Text,
    pub kind: Kind,
}

/// Why no brand is added.
#[derive(Clone, Copy, PartialEq, Eq)]
pub enum BrandFault {
    /// 65,535 brands were made.
    Limit,
    NoMemory,
}

/// All brands. Contracts see those at the turn's start, and those of now (specs/Brands.antt).
#[derive(Drop)]
pub struct Brands {
    brands: Vec<Brand>,
    /// How many were made at the turn's start.
    kept: usize,
}

impl Model for Brands {
    ghost use Rattle.std.specs.Prelude.{take};
    ghost use Rattle.brands.specs.Brands.{BrandsState, IsWithin};

    ghost Value = { BrandsState };

    ghost view = { λ a. record { start = take a.kept a.brands.items; now = a.brands.items } };

    ghost invariant = { λ a. IsWithin a.kept a.brands.items };
}

impl Brands {
    /// The brands of a new host: brand 0, which is that of invitations, a brand of sets.
    pub fn new(alloc: Global) -> Result<Brands, AllocError>
        ensures { IfOk result (λ brands. brands ≡ started) }
    {
        let name = Text::from_str(alloc, "Zoe Invitation")?;
        let mut brands = Vec::new(alloc);
        brands.push(Brand {
            name,
            kind: Kind::Set,
        })?;
        Ok(Brands { brands, kept: 1 })
    }

    /// How many brands were made: the number that the next one gets.
    pub fn made(&self) -> u32
        ensures made { result ≡ length self.now.now }
        ensures bounded { result ≤ most_brands }
    {
        self.brands.len() as u32
    }

    /// Adds a brand and answers its number, or hands its name back, and all is as before.
    pub fn add(&mut self, name: Text, kind: Kind) -> Result<u16, (Text, BrandFault)>
        ensures ok { OnOk result (self.new ≡ record self.old { now = self.old.now ++ brand_of name kind ∷ [] }) }
        ensures number { IfOk result (λ number. number ≡ length self.old.now) }
        ensures room { IsOk result → length self.old.now < most_brands }
        ensures limit { IfErr result (λ (_, fault). (fault ≡ BrandFault.Limit) ↔ (length self.old.now ≡ most_brands)) }
        ensures back { IfErr result (λ (back, _). back ≡ name) }
        ensures err { OnErr result (self.new ≡ self.old) }
    {
        let number = self.brands.len();
        if number >= MOST_BRANDS {
            return Err((name, BrandFault::Limit));
        }
        match self.brands.push(Brand { name, kind }) {
            Ok(()) => Ok(number as u16),
            Err(failed) => Err((failed.value.name, BrandFault::NoMemory)),
        }
    }

    /// The alleged name of a brand.
    pub fn name(&self, brand: u16) -> &Text
        requires { brand < length self.now.now }
        ensures { result.now ≡ (brand_at self.now.now brand).name }
    {
        &self.brands[brand as usize].name
    }

    /// The kind of a brand's values.
    pub fn kind(&self, brand: u16) -> Kind
        requires { brand < length self.now.now }
        ensures { result ≡ (brand_at self.now.now brand).kind }
    {
        self.brands[brand as usize].kind
    }

    /// The brand of an issuer. Each brand has one issuer, which goes by its brand's number (own).
    /// The program doesn't use it.
    pub fn brand_of_issuer(&self, issuer: u16) -> u16
        requires { issuer < length self.now.now }
        ensures { result ≡ issuer }
    {
        issuer
    }

    /// Forgets how it was: what is now is kept.
    pub fn forget(&mut self)
        ensures { self.new ≡ kept_at self.old }
    {
        self.kept = self.brands.len();
    }

    /// Goes back to how it was at the turn's start.
    pub fn back(&mut self)
        ensures { self.new ≡ back_at self.old }
    {
        self.brands.truncate(self.kept);
    }
}
