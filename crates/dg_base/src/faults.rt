// The record of a desk's faults.
ghost use Rattle.std.specs.Prelude.{◌≡◌};
ghost use Rattle.dg_base.specs.Outside.{IsFault, no_faults, one_more};

use crate::{Bytes, Operation};
use std::alloc::Global;
use std::marker::Model;

// How often the outside failed, with the operation and the name of the last fault.
#[derive(Debug, Drop)]
pub struct FaultLog {
    count: u64,
    operation: Operation,
    name: Bytes,
}

impl Model for FaultLog {
    ghost use Rattle.dg_base.specs.Outside.{Faults};

    ghost Value = { Faults };

    ghost view = { λ log. record { count = log.count; operation = log.operation; name = log.name } };
}

impl FaultLog {
    // No faults yet.
    pub fn new(alloc: Global) -> FaultLog
        ensures { result ≡ no_faults }
    {
        FaultLog {
            count: 0,
            operation: Operation::Nothing,
            name: Bytes::new(alloc),
        }
    }

    // One fault more. The count stands still at its type's end.
    pub fn note(&mut self, operation: Operation, name: Bytes)
        ensures one { self.new ≡ one_more operation name self.old }
        ensures fault { IsFault operation name self.old self.new }
    {
        self.count = self.count.saturating_add(1);
        self.operation = operation;
        self.name = name;
    }
}
