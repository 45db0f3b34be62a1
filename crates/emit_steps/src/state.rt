// What was emitted of an instance, and where the emission stands.
use dg_base::{Bytes, List};
use flat_prog::FlatStep;
use std::alloc::Global;
use std::marker::Model;

/// A number, and the local that holds it throughout.
#[derive(Debug, Clone, Copy, Drop)]
pub struct Number {
    /// The number.
    pub value: u32,
    /// The local.
    pub local: u32,
}

/// A variable: its cells are shared cells or locals, from the first on.
#[derive(Drop)]
pub struct Variable {
    /// Its name.
    pub name: Bytes,
    /// Whether its values are Uint.
    pub unsigned: bool,
    /// The number of its first cell.
    pub first: u32,
    /// How many cells it has.
    pub count: u32,
}

/// A cell where a value is kept, behind the guard under which it is the one that is meant.
#[derive(Debug, Clone, Copy, PartialEq, Eq, Drop)]
pub enum Cell {
    /// A local.
    Own(u32, u32),
    /// A shared cell.
    Common(u32, u32),
}

/// What was emitted of an instance.
#[derive(Drop)]
pub struct Emitter {
    pub(crate) alloc: Global,
    /// The next local that is not used.
    pub(crate) next: u32,
    /// The numbers that the instance needs.
    pub(crate) numbers: List<Number>,
    /// The steps.
    pub(crate) steps: List<FlatStep>,
    /// The number of the instance that the next Create names.
    pub(crate) instances: u32,
    /// The functions of the instances that were named, in order.
    pub(crate) created: List<u32>,
    /// The variables in scope, the innermost last.
    pub(crate) scope: Vec<Variable>,
    /// How many sections are open.
    pub(crate) depth: u64,
    /// The guard under which the outermost section was opened.
    pub(crate) opened: u32,
    /// How much work may still be done.
    pub(crate) left: std::cell::Cell<u64>,
}

impl Model for Emitter {
    ghost use Rattle.emit_steps.specs.Emitting.{Emitted};

    ghost Value = { Emitted };

    ghost view = { λ e. record { next = e.next; numbers = e.numbers; steps = e.steps; instances = e.instances; created = e.created; scope = e.scope.items; depth = e.depth; opened = e.opened } };
}

impl Emitter {
    ghost use Rattle.std.specs.Prelude.{◌≡◌};
    ghost use Rattle.emit_steps.specs.Instances.{begins};

    /// An emitter for an instance whose first Create names the instance `first`, with so much work to do at most: a unit for each
    /// entry that is looked at and for each sixteen bytes of its name, sixteen units for a form that is met,
    /// [`ENTRY`](crate::ENTRY) units for a step or a local.
    pub fn new(alloc: Global, first: u32, left: u64) -> Emitter
        ensures { result ≡ begins first }
    {
        Emitter {
            alloc,
            next: 5,
            numbers: List::new(alloc),
            steps: List::new(alloc),
            instances: first,
            created: List::new(alloc),
            scope: Vec::new(alloc),
            depth: 0,
            opened: 3,
            left: std::cell::Cell::new(left),
        }
    }

    /// How much work may still be done, in units.
    pub fn left(&self) -> u64 {
        self.left.get()
    }

    /// Where memory comes from.
    pub fn alloc(&self) -> Global {
        self.alloc
    }
}
