//! How an event stands in its thread.

ghost use Rattle.std.specs.Prelude.{◌≡◌};
ghost use Rattle.memory_models.specs.Roles.{is_strong, role_of};

use crate::{StaticEvent, StaticKind};
use axiom_model::MemoryModel;

/// How an event stands in its thread.
#[derive(Debug, Clone, Copy, PartialEq, Eq, Drop)]
pub(crate) enum Role {
    /// A read: all behind it waits for it.
    Reader,
    /// A write: only what is strong waits for it.
    Writer,
    /// A full fence or part of a section, and under SC every event: strong, and where it happens all behind it waits for it.
    Fence,
}

impl Role {
    /// The role of the event at a place.
    pub fn of(model: MemoryModel, place: u32, event: &StaticEvent) -> Role
        ensures { result ≡ role_of model place event.now }
    {
        if event.block != place {
            return Role::Fence;
        }
        match (model, event.kind) {
            (MemoryModel::Sc, _) => Role::Fence,
            (_, StaticKind::Read) => Role::Reader,
            (_, StaticKind::Write) => Role::Writer,
            _ => Role::Fence,
        }
    }

    /// Whether it waits for every event before it, writes too.
    pub fn is_strong(self, model: MemoryModel) -> bool
        ensures { result ≡ is_strong model self }
    {
        match self {
            Role::Fence => true,
            Role::Writer => model == MemoryModel::Tso,
            Role::Reader => false,
        }
    }
}
