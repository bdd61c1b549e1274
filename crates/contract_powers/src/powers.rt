//! The powers of an instance's functions over the world of a turn.

ghost use Rattle.contract_powers.specs.Situations.{IsReady, situation};
ghost use Rattle.contract_powers.specs.TurnStarts.{GoesBackTo};

use crate::calls;
use crate::planner::Planner;
use jessie_machine::host::{NoMemory, Powers, Reply};
use refusals::host_data_lib::data::{Data, Obj};
use refusals::host_text_lib::text::Text;
use std::alloc::{AllocError, Global};
use std::marker::{Brand, PhantomData};
use world_effects::host_world_lib::World;

/// A turn, by what it goes back to if it is undone.
pub trait Turn {
    ghost use Rattle.contract_powers.specs.TurnStarts.{Start};

    ghost base: { Start };
}

impl Turn for Brand {
    ghost use Rattle.contract_powers.specs.TurnStarts.{no_start};

    ghost base = { no_start };
}

/// What an instance's functions can do to the world of a turn. The turn can be undone, whatever happens.
pub struct ContractPowers<T: Turn, P: Planner> {
    pub alloc: Global,
    pub world: World,
    /// The instance, by its number.
    pub instance: u32,
    /// Whether memory was wanted in the midst of a call: the world may be half changed, and nothing is answered any
    /// more.
    pub failed: bool,
    pub turn: PhantomData<T>,
    pub planner: PhantomData<P>,
    ghost ready: { ∥ IsReady (situation world instance failed) ∥₁ },
    ghost back: { ∥ GoesBackTo T.base world ∥₁ },
}

impl<T: Turn, P: Planner> Powers for ContractPowers<T, P> {
    ghost use Rattle.contract_powers.specs.HostSide.{keeps_to_its_side};
    ghost use Rattle.contract_powers.specs.Situations.{IsAnswered, Knows, situation};

    ghost answers = { λ p x q. IsAnswered (situation p.world p.instance p.failed)
        (situation q.world q.instance q.failed) x };

    ghost known = { λ p. Knows (situation p.world p.instance p.failed) };

    fn call(&mut self, target: Obj, method: &str, args: Vec<Data>) -> Result<Reply, NoMemory> {
        if self.failed {
            drop(args);
            return Err(AllocError);
        }
        self.failed = true;
        let answer = calls::call::<P>(
            self.alloc,
            &mut self.world,
            self.instance,
            target,
            method,
            args,
        )?;
        self.failed = false;
        Ok(answer)
    }

    fn send(&mut self, target: Obj, method: &str, args: Vec<Data>) -> Result<Reply, NoMemory> {
        if self.failed {
            drop(args);
            return Err(AllocError);
        }
        self.failed = true;
        let answer = calls::send(
            self.alloc,
            &mut self.world,
            self.instance,
            target,
            method,
            args,
        )?;
        self.failed = false;
        Ok(answer)
    }

    fn when(&mut self, promise: Obj, f: &str, held: Data) -> Result<Reply, NoMemory> {
        if self.failed {
            drop(held);
            return Err(AllocError);
        }
        self.failed = true;
        let answer = calls::when(self.alloc, &mut self.world, self.instance, promise, f, held)?;
        self.failed = false;
        Ok(answer)
    }

    fn far(
        &mut self,
        name: &str,
        methods: Vec<(Text, Text)>,
        held: Data,
    ) -> Result<Reply, NoMemory> {
        if self.failed {
            drop(methods);
            drop(held);
            return Err(AllocError);
        }
        self.failed = true;
        let answer = calls::far(
            self.alloc,
            &mut self.world,
            self.instance,
            name,
            methods,
            held,
        )?;
        self.failed = false;
        Ok(answer)
    }

    ghost keeps = { λ p x q is known. keeps_to_its_side
        (situation p.world p.instance p.failed) x
        (situation q.world q.instance q.failed) is known };
}
