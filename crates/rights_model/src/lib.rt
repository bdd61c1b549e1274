//! Who holds which right: holders, movements of rights between them, and the table that movements
//! make, with its supply and its balances.
#![tactic(auto)]

ghost use Rattle.std.specs.Prelude.{◌≡◌, ◌↔◌, IfOk, IsTrue};

pub mod laws;

/// What `amount_math` gives to those above.
pub mod amount_math_lib {
    pub use amount_math::{
        Amount, AmountKind, Entry, Holding, Key, Kind, PutFault, SetKind, TakeFault, Value,
    };

    pub mod shortfall {
        pub use amount_math::shortfall::LossFault;
    }
}

/// What `host_text` gives to those above.
pub mod host_text_lib {
    pub mod keyword {
        pub use host_text::keyword::Keyword;
    }

    pub mod label {
        pub use host_text::label::{Label, LabelFault};
    }

    pub mod number {
        pub use host_text::number::read_number;
    }

    pub mod text {
        pub use host_text::text::Text;
    }

    pub mod word {
        pub use host_text::word::is_field_name;
    }
}

use amount_math::Value;
use host_text::keyword::Keyword;
use std::alloc::{AllocError, Global};

/// Who holds a right. Purses, payments and seats go by their numbers.
pub enum Holder {
    Purse(u32),
    Payment(u32),
    /// A slot of a seat's allocation.
    Slot(u32, Keyword),
    /// What a turn has taken and not yet put.
    Hand,
    /// Where a mint's issues come from and what is burned goes to. It holds nothing.
    Outside,
}

impl Drop for Holder {
    fn drop(self) {
        match self {
            Holder::Purse(_) => {}
            Holder::Payment(_) => {}
            Holder::Slot(_, _) => {}
            Holder::Hand => {}
            Holder::Outside => {}
        }
    }
}

/// A value of a brand goes from one holder to another.
#[derive(Drop)]
pub struct Movement {
    pub brand: u16,
    pub from: Holder,
    pub to: Holder,
    pub value: Value,
}

/// The totals of a brand: what was minted and burned since the start, and what purses, payments and
/// slots have.
#[derive(Clone, Copy, PartialEq, Eq)]
pub struct Sum {
    pub brand: u16,
    pub minted: u128,
    pub burned: u128,
    pub purses: u128,
    pub payments: u128,
    pub slots: u128,
}

impl Holder {
    /// A copy. A slot's keyword takes memory.
    pub fn copy(&self, alloc: Global) -> Result<Holder, AllocError>
        ensures { IfOk result (λ copy. copy ≡ self.now) }
    {
        match self {
            Holder::Purse(number) => Ok(Holder::Purse(*number)),
            Holder::Payment(number) => Ok(Holder::Payment(*number)),
            Holder::Slot(seat, keyword) => Ok(Holder::Slot(*seat, keyword.copy(alloc)?)),
            Holder::Hand => Ok(Holder::Hand),
            Holder::Outside => Ok(Holder::Outside),
        }
    }

    /// Whether both are one holder.
    pub fn is(&self, other: &Holder) -> bool
        ensures { IsTrue result ↔ (self.now ≡ other.now) }
    {
        match (self, other) {
            (Holder::Purse(left), Holder::Purse(right)) => left == right,
            (Holder::Payment(left), Holder::Payment(right)) => left == right,
            (Holder::Slot(seat, keyword), Holder::Slot(other_seat, other_keyword)) => {
                seat == other_seat && keyword.is(other_keyword)
            }
            (Holder::Hand, Holder::Hand) => true,
            (Holder::Outside, Holder::Outside) => true,
            _ => false,
        }
    }
}

impl Movement {
    /// A copy. The keyword of a slot and the keys of a value take memory.
    pub fn copy(&self, alloc: Global) -> Result<Movement, AllocError>
        ensures { IfOk result (λ copy. copy ≡ self.now) }
    {
        let value = self.value.copy()?;
        let (from, to) = self.holders(alloc)?;
        Ok(Movement {
            brand: self.brand,
            from,
            to,
            value,
        })
    }

    /// Copies of both holders.
    fn holders(&self, alloc: Global) -> Result<(Holder, Holder), AllocError>
        ensures { IfOk result (λ copies. copies ≡ (self.now.from, self.now.to)) }
    {
        let from = self.from.copy(alloc)?;
        let to = self.to.copy(alloc)?;
        Ok((from, to))
    }
}
