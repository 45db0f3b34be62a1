ghost use Rattle.std.specs.Prelude.{◌≡◌, [], ◌∷◌, ◌++◌, OnOk, OnErr, length, slice_set, ◌<◌};

use dg_base::{Lit, OutOfMemory};
use smallvec::SmallVec;
use std::alloc::Global;
use std::marker::Model;

/// A short list of literals: up to 8 lie in place.
#[derive(Debug, Drop)]
pub struct Lits {
    lits: SmallVec<Lit, 8>,
}

impl Model for Lits {
    ghost use Rattle.std.specs.Prelude.{List};
    ghost use Rattle.dg_base.specs.declared.Lit.{Lit};

    ghost Value = { List Lit };

    ghost view = { λ it. it.lits.items };
}

impl Lits {
    /// No literals. This takes no memory.
    pub fn new(alloc: Global) -> Lits
        ensures { result ≡ [] }
    {
        Lits {
            lits: SmallVec::new(alloc),
        }
    }

    /// How many literals there are.
    pub fn len(&self) -> usize
        ensures { result ≡ length self.now }
    {
        self.lits.len()
    }

    /// The literals.
    pub fn as_slice(&self) -> &[Lit]
        ensures { result.now ≡ self.now }
    {
        self.lits.as_slice()
    }

    /// Puts a literal behind the others.
    pub fn push(&mut self, lit: Lit) -> Result<(), OutOfMemory>
        ensures ok { OnOk result (self.new ≡ self.old ++ lit ∷ []) }
        ensures err { OnErr result (self.new ≡ self.old) }
    {
        self.lits.push(lit)?;
        Ok(())
    }
}
