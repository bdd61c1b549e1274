//! Issuer records: the brands that an instance knows, by keyword, in the order of adding (Zoe's
//! IssuerKeywordRecord).

ghost use Rattle.std.specs.Prelude.{◌≡◌, ◌<◌, ◌≤◌, ◌↔◌, ◌++◌, ◌∷◌, [], Any, None, length, string_bytes, IfErr, IfOk, IsNone, IsOk, IsSome, IsTrue, OnErr, OnOk};
ghost use Rattle.indexmap.specs.IndexMap.{values};
ghost use Rattle.brands.specs.IssuerRecords.{AreIssuers, AreKeyed, brand_under, issuer_of, most_issuers};

use host_text::keyword::Keyword;
use indexmap::IndexMap;
use std::alloc::{AllocError, Global};
use std::marker::Model;

/// The most keywords of an issuer record (own).
pub const MOST_ISSUERS: usize = 64;

/// A brand under a keyword. Its issuer goes by the brand's number.
#[derive(Drop)]
pub struct Issuer {
    pub keyword: Keyword,
    pub brand: u16,
}

/// Why no issuer is added.
#[derive(Clone, Copy, PartialEq, Eq)]
pub enum IssuerFault {
    /// The keyword is there.
    KeywordTaken,
    /// 64 keywords are there.
    Limit,
    NoMemory,
}

/// A record from keyword to issuer. It keeps the order of adding (own). Contracts see it as the list of
/// its issuers.
pub struct IssuerRecord {
    /// Each issuer by the text of its keyword.
    issuers: IndexMap<String, Issuer>,
}

impl Drop for IssuerRecord {
    fn drop(self) {
        let IssuerRecord { issuers: _ } = self;
    }
}

impl Model for IssuerRecord {
    ghost use Rattle.std.specs.Prelude.{List};
    ghost use Rattle.indexmap.specs.IndexMap.{values};
    ghost use Rattle.brands.specs.declared.issuer_record.Issuer.{Issuer};
    ghost use Rattle.brands.specs.IssuerRecords.{AreKeyed};

    ghost Value = { List Issuer };

    ghost view = { λ a. values a.issuers };

    ghost invariant = { λ a. AreKeyed a.issuers.entries };
}

impl IssuerRecord {
    /// A record without keywords.
    pub fn new(alloc: Global) -> IssuerRecord
        ensures { result ≡ [] }
    {
        IssuerRecord {
            issuers: IndexMap::new(alloc),
        }
    }

    /// How many keywords it has.
    pub fn len(&self) -> usize
        ensures len { result ≡ length self.now }
        ensures bounded { result ≤ most_issuers }
    {
        self.issuers.len()
    }

    /// Whether it has no keywords.
    pub fn is_empty(&self) -> bool
        ensures { IsTrue result ↔ (self.now ≡ []) }
    {
        self.issuers.is_empty()
    }

    /// Its issuers, in the order of adding.
    pub fn issuers(&self) -> &[Issuer]
        ensures value { result.now ≡ self.now }
        ensures issuers { AreIssuers self.now }
    {
        self.issuers.values().as_slice()
    }

    /// The brand under a keyword, or `None` exactly where the keyword isn't there.
    pub fn get(&self, keyword: &Keyword) -> Option<u16>
        ensures { result ≡ brand_under keyword.now self.now }
    {
        let issuer = self.issuers.get(keyword.as_str())?;
        Some(issuer.brand)
    }

    /// Whether a brand is there, under some keyword.
    pub fn has_brand(&self, brand: u16) -> bool
        ensures { IsTrue result ↔ Any (λ issuer. issuer.brand ≡ brand) self.now }
    {
        self.issuers().iter().any(|issuer| issuer.brand == brand)
    }

    /// Adds a brand under a keyword, last, or hands the keyword back, and all is as before.
    pub fn add(&mut self, keyword: Keyword, brand: u16) -> Result<(), (Keyword, IssuerFault)>
        ensures ok { OnOk result (self.new ≡ self.old ++ issuer_of keyword brand ∷ []) }
        ensures free { IsOk result → brand_under keyword self.old ≡ None }
        ensures room { IsOk result → length self.old < most_issuers }
        ensures taken { IfErr result (λ (_, fault). (fault ≡ IssuerFault.KeywordTaken) ↔ IsSome (brand_under keyword self.old)) }
        ensures limit { IfErr result (λ (_, fault). (fault ≡ IssuerFault.Limit) ↔ (IsNone (brand_under keyword self.old) × (length self.old ≡ most_issuers))) }
        ensures back { IfErr result (λ (back, _). back ≡ keyword) }
        ensures err { OnErr result (self.new ≡ self.old) }
    {
        if self.get(&keyword).is_some() {
            return Err((keyword, IssuerFault::KeywordTaken));
        }
        if self.len() >= MOST_ISSUERS {
            return Err((keyword, IssuerFault::Limit));
        }
        match self.enter(Issuer { keyword, brand }) {
            Ok(()) => Ok(()),
            Err(issuer) => Err((issuer.keyword, IssuerFault::NoMemory)),
        }
    }

    /// Enters an issuer under a keyword that isn't there, last, or hands it back, and all is as before.
    fn enter(&mut self, issuer: Issuer) -> Result<(), Issuer>
        requires free { brand_under issuer.keyword self.old ≡ None }
        requires room { length self.old < most_issuers }
        ensures ok { OnOk result (self.new ≡ self.old ++ issuer ∷ []) }
        ensures back { IfErr result (λ back. back ≡ issuer) }
        ensures err { OnErr result (self.new ≡ self.old) }
    {
        let alloc = *self.issuers.allocator();
        match String::from_str(alloc, issuer.keyword.as_str()) {
            Ok(name) => insert(&mut self.issuers, name, issuer),
            Err(_) => Err(issuer),
        }
    }

    /// Enters a copy of an issuer under a keyword that isn't there, last. On an error all is as before.
    fn enter_copy(&mut self, alloc: Global, issuer: &Issuer) -> Result<(), AllocError>
        requires free { brand_under issuer.now.keyword self.old ≡ None }
        requires room { length self.old < most_issuers }
        ensures ok { OnOk result (self.new ≡ self.old ++ issuer.now ∷ []) }
    {
        let keyword = issuer.keyword.copy(alloc)?;
        let brand = issuer.brand;
        match self.enter(Issuer { keyword, brand }) {
            Ok(()) => Ok(()),
            Err(_) => Err(AllocError),
        }
    }

    /// A copy, which equals the original.
    pub fn copy(&self) -> Result<IssuerRecord, AllocError>
        ensures { IfOk result (λ copy. copy ≡ self.now) }
    {
        let alloc = *self.issuers.allocator();
        let mut made = IssuerRecord::new(alloc);
        for issuer in self.issuers() {
            made.enter_copy(alloc, issuer)?;
        }
        Ok(made)
    }
}

/// Puts in an issuer under the text of its keyword, which isn't there, last, or hands it back, and the
/// entries are as before.
fn insert(
    issuers: &mut IndexMap<String, Issuer>,
    name: String,
    issuer: Issuer,
) -> Result<(), Issuer>
    requires named { string_bytes name ≡ issuer.keyword }
    requires keyed { AreKeyed issuers.old.entries }
    requires free { brand_under issuer.keyword (values issuers.old) ≡ None }
    requires room { length (values issuers.old) < most_issuers }
    ensures ok { OnOk result (values issuers.new ≡ values issuers.old ++ issuer ∷ []) }
    ensures back { IfErr result (λ back. back ≡ issuer) }
    ensures err { OnErr result (values issuers.new ≡ values issuers.old) }
    ensures keyed { AreKeyed issuers.new.entries }
{
    match issuers.insert(name, issuer) {
        Ok(_) => Ok(()),
        Err(failed) => {
            let (_, issuer) = failed.value;
            Err(issuer)
        }
    }
}
