//! Of which kind each brand's values so far are.

ghost use Rattle.std.specs.Prelude.{◌≡◌, ◌↔◌, ℕ, IfOk, IsTrue};
ghost use Rattle.row_records.specs.Views.{value_view};
ghost use Rattle.row_records.specs.amount_math.declared.Kind.{Kind as Kinds};
ghost use Rattle.row_records.specs.fair_rows.Values.{IsValueOf};
ghost use Rattle.row_records.specs.turn_rows.Form.{HasValueForm};
ghost use Rattle.row_records.specs.turn_rows.declared.editions.Edition.{Edition};
ghost use Rattle.told_rights.specs.BrandKinds.{Allows, AreTogether, Shows, Suits, kind_shown, seen_at, seen_with};

use row_records::amount_math_lib::Kind;
use row_records::rows::{Element, PrintedValue};
use std::alloc::{AllocError, Global};
use std::collections::BTreeMap;

/// What values of a brand were seen.
#[derive(Clone, Copy)]
pub enum Seen {
    /// No value.
    Any,
    /// Lists of no elements alone, which sets and bags both have.
    Keyed,
    Nat,
    Set,
    Bag,
}

/// What was seen of each brand.
#[derive(Drop)]
pub struct BrandKinds {
    pub seen: BTreeMap<u16, Seen>,
}

impl Seen {
    /// What a value alone shows.
    fn of(value: &PrintedValue) -> Seen
        ensures { (e : Edition) → HasValueForm e (value_view value.now) → Shows result (value_view value.now) }
    {
        match value {
            PrintedValue::Number(_) => Seen::Nat,
            PrintedValue::Elements(elements) => {
                if elements.len() == 0 {
                    return Seen::Keyed;
                }
                match &elements[0] {
                    Element::Key(_) => Seen::Set,
                    Element::Counted(_, _) => Seen::Bag,
                }
            }
        }
    }

    /// What both show together, if some kind is allowed by both.
    fn with(self, shown: Seen) -> Option<Seen>
        ensures { result ≡ seen_with self shown }
    {
        match self {
            Seen::Any => Some(shown),
            Seen::Keyed => match shown {
                Seen::Any => Some(Seen::Keyed),
                Seen::Nat => None,
                _ => Some(shown),
            },
            Seen::Nat => match shown {
                Seen::Any | Seen::Nat => Some(Seen::Nat),
                _ => None,
            },
            Seen::Set => match shown {
                Seen::Any | Seen::Keyed | Seen::Set => Some(Seen::Set),
                _ => None,
            },
            Seen::Bag => match shown {
                Seen::Any | Seen::Keyed | Seen::Bag => Some(Seen::Bag),
                _ => None,
            },
        }
    }
}

impl BrandKinds {
    /// Nothing was seen.
    pub fn new(alloc: Global) -> BrandKinds
        ensures { (b : ℕ) → seen_at result b ≡ Seen.Any }
    {
        BrandKinds {
            seen: BTreeMap::new(alloc),
        }
    }

    /// What was seen of a brand.
    fn at(&self, brand: u16) -> Seen
        ensures { result ≡ seen_at self.now brand }
    {
        match self.seen.get(&brand) {
            Some(seen) => *seen,
            None => Seen::Any,
        }
    }

    /// What was seen of a brand with what a value shows, if some kind is allowed by both.
    fn seen_with(&self, brand: u16, value: &PrintedValue) -> Option<Seen>
        ensures { (e : Edition) → HasValueForm e (value_view value.now) → AreTogether (seen_at self.now brand) (value_view value.now) result }
    {
        self.at(brand).with(Seen::of(value))
    }

    /// Whether a value is of a kind of which the brand's values so far may be.
    pub fn fits(&self, brand: u16, value: &PrintedValue) -> bool
        ensures { (e : Edition) → HasValueForm e (value_view value.now) → IsTrue result ↔ Suits (seen_at self.now brand) (value_view value.now) }
    {
        self.seen_with(brand, value).is_some()
    }

    /// A kind of which the brand's values so far may be.
    pub fn kind(&self, brand: u16) -> Kind
        ensures { result ≡ kind_shown (seen_at self.now brand) }
    {
        match self.at(brand) {
            Seen::Any => Kind::Set,
            Seen::Keyed => Kind::Set,
            Seen::Nat => Kind::Nat,
            Seen::Set => Kind::Set,
            Seen::Bag => Kind::Bag,
        }
    }

    /// A value is seen, where it fits; whether it does.
    pub fn add(&mut self, brand: u16, value: &PrintedValue) -> Result<bool, AllocError>
        requires form { (e : Edition) × HasValueForm e (value_view value.now) }
        ensures fits { IfOk result (λ fits. IsTrue fits ↔ Suits (seen_at self.old brand) (value_view value.now)) }
        ensures ok { IfOk result (λ fits. IsTrue fits → (b : ℕ) (kind : Kinds) → Allows (seen_at self.new b) kind ↔ (Allows (seen_at self.old b) kind × (b ≡ brand → IsValueOf kind (value_view value.now)))) }
    {
        match self.seen_with(brand, value) {
            None => Ok(false),
            Some(seen) => match self.seen.insert(brand, seen) {
                Ok(_) => Ok(true),
                Err(_) => Err(AllocError),
            },
        }
    }
}
