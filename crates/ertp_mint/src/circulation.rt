//! What is out of one brand.

ghost use Rattle.std.specs.Prelude.{◌≡◌, ◌≤◌, IfErr, IsOk, OnOk, OnErr};
ghost use Rattle.amount_math.specs.Content.{Contains, count};
ghost use Rattle.amount_math.specs.Counted.{counted};
ghost use Rattle.amount_math.specs.ValueView.{minted_bound};
ghost use Rattle.ertp_mint.specs.BrandSupply.{IsMintRefusal, MayIssue};
ghost use Rattle.ertp_mint.specs.Circulating.{CanReturn, Circulates, IsOut, new_circulation, with_forgotten, with_issued, with_retired, with_unissued, with_unretired};

use crate::keys_out::KeysOut;
use crate::place::Change;
use amount_math::{Kind, MINTED_BOUND, PutFault, TooMuch, Value};
use std::alloc::Global;
use std::marker::Model;

/// What is out of a brand, key by key, and the totals of counts minted and burned.
#[derive(Drop)]
pub(crate) struct Circulation {
    kind: Kind,
    keys: KeysOut,
    minted: u128,
    burned: u128,
}

impl Model for Circulation {
    ghost use Rattle.ertp_mint.specs.Circulating.{Circulates, CirculationView, coded_circulation};

    ghost Value = { CirculationView };

    ghost coded = { coded_circulation };

    ghost view = { λ a. record { supply = record { outstanding = record { kind = a.kind; content = a.keys.out }; minted = a.minted; burned = a.burned }; kept = a.keys.kept } };

    ghost invariant = { λ a. Circulates (record { supply = record { outstanding = record { kind = a.kind; content = a.keys.out }; minted = a.minted; burned = a.burned }; kept = a.keys.kept }) };
}

impl Circulation {
    pub fn empty(alloc: Global, kind: Kind) -> Circulation
        ensures { result ≡ new_circulation kind }
    {
        Circulation {
            kind,
            keys: KeysOut::new(alloc),
            minted: 0,
            burned: 0,
        }
    }

    /// The kind of the brand's values, and that all adds up.
    pub fn kind(&self) -> Kind
        ensures kind { result ≡ self.now.supply.outstanding.kind }
        ensures circulates { Circulates self.now }
    {
        self.kind
    }

    /// The counts of all that is out, together.
    pub fn total(&self) -> u128
        ensures { result ≡ counted self.now.supply.outstanding.content }
    {
        self.minted - self.burned
    }

    pub fn minted(&self) -> u128
        ensures minted { result ≡ self.now.supply.minted }
        ensures bounded { result ≤ minted_bound }
    {
        self.minted
    }

    pub fn burned(&self) -> u128
        ensures { result ≡ self.now.supply.burned }
    {
        self.burned
    }

    /// How many of a key are out, or how many units, which are those of the empty key.
    pub fn count_out(&self, key: &str) -> u128
        ensures { result ≡ count self.now.supply.outstanding.content key.now }
    {
        self.keys.count_out(key)
    }

    /// That a value may come out too, or why it mayn't: counts are tested first, then the minted total.
    pub fn can_issue(&self, value: &Value) -> Result<(), PutFault>
        requires { self.now.supply.outstanding.kind ≡ value.now.kind }
        ensures ok { IsOk result → MayIssue self.now.supply value.now }
        ensures sure { MayIssue self.now.supply value.now → IsOk result }
        ensures refused { IfErr result (IsMintRefusal self.now.supply value.now) }
    {
        self.keys.can_issue(value)?;
        let sum = self.minted + value.total();
        if sum > MINTED_BOUND {
            let bound = MINTED_BOUND;
            return Err(PutFault::TooMuch(TooMuch { sum, bound }));
        }
        Ok(())
    }

    /// Counts a value as out. Keys of which nothing is out or kept yet take memory.
    pub fn issue(&mut self, value: &Value) -> Result<(), PutFault>
        requires { self.old.supply.outstanding.kind ≡ value.now.kind }
        ensures ok { OnOk result (self.new ≡ with_issued self.old value.now.content) }
        ensures may { OnOk result (MayIssue self.old.supply value.now) }
        ensures out { OnOk result (IsOut self.new value.now) }
        ensures undone { OnOk result (with_unissued self.new value.now.content ≡ self.old) }
        ensures err { OnErr result (self.new ≡ self.old) }
        ensures refused { IfErr result (IsMintRefusal self.old.supply value.now) }
    {
        self.can_issue(value)?;
        let Ok(()) = self.keys.issue(value) else {
            return Err(PutFault::NoMemory);
        };
        self.minted += value.total();
        Ok(())
    }

    /// Works an issue backwards.
    pub fn undo_issue(&mut self, value: &Value)
        requires { IsOut self.old value.now }
        ensures { self.new ≡ with_unissued self.old value.now.content }
    {
        self.keys.change(Change::UndoIssue, value);
        self.minted -= value.total();
    }

    /// Counts a value as no longer out, and keeps it.
    pub fn retire(&mut self, value: &Value)
        requires { IsOut self.old value.now }
        ensures retired { self.new ≡ with_retired self.old value.now.content }
        ensures back { CanReturn self.new value.now }
        ensures undone { with_unretired self.new value.now.content ≡ self.old }
    {
        self.keys.change(Change::Retire, value);
        self.burned += value.total();
    }

    /// Works a retirement backwards.
    pub fn undo_retire(&mut self, value: &Value)
        requires { CanReturn self.old value.now }
        ensures { self.new ≡ with_unretired self.old value.now.content }
    {
        self.keys.change(Change::UndoRetire, value);
        self.burned -= value.total();
    }

    /// Keeps a value no longer.
    pub fn forget(&mut self, value: &Value)
        requires { Contains self.old.kept value.now.content }
        ensures { self.new ≡ with_forgotten self.old value.now.content }
    {
        self.keys.change(Change::Forget, value);
    }
}
