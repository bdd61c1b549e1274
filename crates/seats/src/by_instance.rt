//! The seats of each instance, by the instance's number, so that a halt doesn't walk all seats.
ghost use Rattle.std.specs.Prelude.{◌≡◌, ℕ, ◌++◌, ◌∷◌, [], None, ◌==◌, ◌-◌, IfOk, OnErr, OnOk, if◌then◌else◌, length, take};
ghost use Rattle.std.specs.BTreeMap.{is_at};
ghost use Rattle.std.specs.Map.{lookup};
ghost use Rattle.std.specs.Ordering.{nat_cmp};
ghost use Rattle.seats.specs.Instances.{list_at};

use std::alloc::{AllocError, Global};
use std::collections::BTreeMap;
use std::marker::Model;

/// Numbers, each added last.
#[derive(Drop)]
struct Numbers {
    numbers: Vec<u32>,
}

impl Model for Numbers {
    ghost use Rattle.std.specs.Prelude.{ℕ, List};
    ghost use Rattle.std.specs.Coded.{coded_list, coded_ℕ};

    ghost Value = { List ℕ };

    ghost coded = { coded_list coded_ℕ };

    ghost view = { λ a. a.numbers.items };
}

impl Numbers {
    fn one(alloc: Global, number: u32) -> Result<Numbers, AllocError>
        ensures { IfOk result (λ one. one ≡ number ∷ []) }
    {
        let mut numbers = Vec::new(alloc);
        numbers.push(number)?;
        Ok(Numbers { numbers })
    }

    fn push(&mut self, number: u32) -> Result<(), AllocError>
        ensures ok { OnOk result (self.new ≡ self.old ++ number ∷ []) }
        ensures err { OnErr result (self.new ≡ self.old) }
    {
        self.numbers.push(number)?;
        Ok(())
    }

    fn pop(&mut self)
        ensures { self.new ≡ take (length self.old - 1) self.old }
    {
        self.numbers.pop();
    }

    fn as_slice(&self) -> &[u32]
        ensures { result.now ≡ self.now }
    {
        self.numbers.as_slice()
    }
}

/// The seats of each instance. Contracts see each list by its instance.
#[derive(Drop)]
pub(crate) struct ByInstance {
    lists: BTreeMap<u32, Numbers>,
}

impl Model for ByInstance {
    ghost use Rattle.std.specs.Prelude.{ℕ, List};
    ghost use Rattle.seats.specs.Instances.{coded_lists};

    ghost Value = { List (ℕ × List ℕ) };

    ghost coded = { coded_lists };

    ghost view = { λ a. a.lists.entries };
}

impl ByInstance {
    pub(crate) fn new(alloc: Global) -> ByInstance
        ensures { result ≡ [] }
    {
        ByInstance {
            lists: BTreeMap::new(alloc),
        }
    }

    /// The seats of an instance, in the order of their making.
    pub(crate) fn seats(&self, instance: u32) -> &[u32]
        ensures { result.now ≡ list_at self.now instance }
    {
        match self.lists.get(&instance) {
            Some(seats) => seats.as_slice(),
            None => &[],
        }
    }

    /// Adds a seat to those of its instance, last.
    pub(crate) fn push(&mut self, alloc: Global, instance: u32, seat: u32) -> Result<(), AllocError>
        ensures ok { OnOk result ((i : ℕ) → list_at self.new i ≡ (if i == instance then list_at self.old i ++ seat ∷ [] else list_at self.old i)) }
        ensures err { OnErr result ((i : ℕ) → list_at self.new i ≡ list_at self.old i) }
    {
        if let Some(seats) = self.lists.get_mut(&instance) {
            return seats.push(seat);
        }
        self.start(alloc, instance, seat)
    }

    /// Adds the first seat of an instance.
    fn start(&mut self, alloc: Global, instance: u32, seat: u32) -> Result<(), AllocError>
        requires { lookup (is_at (nat_cmp instance)) self.old ≡ None }
        ensures ok { OnOk result ((i : ℕ) → list_at self.new i ≡ (if i == instance then list_at self.old i ++ seat ∷ [] else list_at self.old i)) }
        ensures err { OnErr result ((i : ℕ) → list_at self.new i ≡ list_at self.old i) }
    {
        let seats = Numbers::one(alloc, seat)?;
        match self.lists.insert(instance, seats) {
            Ok(_) => Ok(()),
            Err(_) => Err(AllocError),
        }
    }

    /// Takes the last seat off those of an instance.
    pub(crate) fn pop(&mut self, instance: u32)
        ensures { (i : ℕ) → list_at self.new i ≡ (if i == instance then take (length (list_at self.old i) - 1) (list_at self.old i) else list_at self.old i) }
    {
        if let Some(seats) = self.lists.get_mut(&instance) {
            seats.pop();
        }
    }
}
