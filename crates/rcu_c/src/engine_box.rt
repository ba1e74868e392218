//! The engine of a handle, in a box of its own.
ghost use Rattle.std.specs.Prelude.{◌≡◌, IfOk};
ghost use Rattle.std.specs.Borrow.{sem};

use crate::open_engine::OpenEngine;
use std::alloc::{AllocError, Global};
use std::marker::Model;

/// The engine of a handle, in a box of its own: so what a seat's handle holds takes no more than a
/// seat does.
#[derive(Drop)]
pub struct EngineBox {
    inside: Box<OpenEngine, Global>,
}

impl Model for EngineBox {
    ghost use Rattle.rcu_c.specs.Engines.{EngineAndSeats};

    ghost Value = { EngineAndSeats };

    ghost view = { λ b. b.inside.value };
}

impl EngineBox {
    ghost use Rattle.rcu_c.specs.Lending.{lends_boxed};

    /// Puts an engine into a box.
    pub(crate) fn new(alloc: Global, engine: OpenEngine) -> Result<EngineBox, AllocError>
        ensures { IfOk result (λ made. made ≡ engine) }
    {
        let Ok(inside) = Box::new(alloc, engine) else {
            return Err(AllocError);
        };
        Ok(EngineBox { inside })
    }

    /// Returns the engine.
    pub(crate) fn engine(&mut self) -> &mut OpenEngine
        ensures* writes_back { sem 𝓛 (lends_boxed self.entry result) }
        ensures value { self.old ≡ result.now }
    {
        &mut self.inside
    }
}
