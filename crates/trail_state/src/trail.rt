ghost use Rattle.std.specs.Prelude.{◌≡◌, ◌≤◌, ◌<◌, ◌+◌, ◌-◌, ℕ, [], ◌∷◌, ◌++◌, min, take, length, IfOk, IfSome, IsNone, ◌↔◌, slice_get, option_map, Some, None};
ghost use Rattle.cnf_problem.specs.Literals.{var as variable, is_positive as is_true, IsOver};
ghost use Rattle.cnf_problem.specs.Chains.{IsUnassigned};
ghost use Rattle.trail_state.specs.Trails.{Decided, Forced, lit_of, true_lits, level as level_in, up_to, level_of as level_in_of, reason_of as reason_in_of, IsAssigned, IsWell, HasValue};
ghost use Rattle.trail_state.specs.Entries.{meaning};
ghost use Rattle.trail_state.specs.Slots.{signed};

use crate::entry::{Entry, Origin};
use crate::heap::VarHeap;
use crate::reasons::Reason;
use cnf_problem::var;
use dg_base::{Lit, OutOfMemory};
use std::alloc::Global;
use std::marker::Model;

/// A trail: the literals that are true, in the order in which they became so, each decided or
/// forced by a clause. The level is the number of decisions.
#[derive(Debug, Drop)]
pub struct Trail {
    entries: Vec<Entry>,
    taken: u32,
    level: u32,
    values: Vec<Option<bool>>,
    origins: Vec<Origin>,
    phases: Vec<bool>,
    free: VarHeap,
}

impl Model for Trail {
    ghost use Rattle.trail_state.specs.Trails.{TrailView};

    ghost Value = { TrailView };

    ghost use Rattle.std.specs.Prelude.{map, vec_capacity};
    ghost use Rattle.trail_state.specs.Entries.{meaning};
    ghost use Rattle.trail_state.specs.Slots.{AreParts};

    ghost view = { λ t. record { vars = t.free.vars; entries = map meaning t.entries.items; taken = t.taken } };

    ghost invariant = { λ t. AreParts (record { vars = t.free.vars; entries = map meaning t.entries.items; taken = t.taken }) t.level (vec_capacity t.entries) t.values.items t.origins.items t.phases.items t.free.members };
}

// Whether a literal is its variable, and not the negation.
fn is_positive(lit: Lit) -> bool
    ensures { result ≡ is_true lit }
{
    lit.0 % 2 == 0
}

// A literal's truth value, from that of its variable.
fn value_by(lit: Lit, value: Option<bool>) -> Option<bool>
    ensures { result ≡ signed lit value }
{
    match value {
        Some(value) => Some(if is_positive(lit) { value } else { !value }),
        None => None,
    }
}

// The literal of a variable with this sign.
fn literal(var: u32, positive: bool) -> Lit
    requires { var ≤ 2147483647 }
    ensures { variable result ≡ var }
{
    Lit(if positive { 2 * var } else { 2 * var + 1 })
}

impl Trail {
    /// A trail with nothing on it, over the variables from 1 to `vars`. No other call takes
    /// memory.
    pub fn new(alloc: Global, vars: u32) -> Result<Trail, OutOfMemory>
        requires { vars ≤ 2147483647 }
        ensures { IfOk result (λ t. t ≡ record { vars = vars; entries = []; taken = 0 }) }
    {
        let slots = vars as usize + 1;
        let nowhere = Origin {
            level: 0,
            reason: None,
        };
        Ok(Trail {
            entries: Vec::with_capacity(alloc, vars as usize)?,
            taken: 0,
            level: 0,
            values: Vec::from_elem(alloc, None, slots)?,
            origins: Vec::from_elem(alloc, nowhere, slots)?,
            phases: Vec::from_elem(alloc, false, slots)?,
            free: VarHeap::new(alloc, vars)?,
        })
    }

    /// The greatest variable.
    pub fn vars(&self) -> u32
        ensures { result ≡ self.now.vars }
    {
        self.free.vars()
    }

    /// The truth value of a literal: `None` exactly where its variable is unassigned.
    pub fn value(&self, lit: Lit) -> Option<bool>
        requires { IsOver self.now.vars lit }
        ensures { HasValue (true_lits self.now.entries) lit result }
    {
        value_by(lit, self.values[var(lit) as usize])
    }

    // Puts an entry whose variable is free on the trail, at this level.
    fn put(&mut self, entry: Entry, at: u32)
        requires over { IsOver self.old.vars (lit_of (meaning entry)) }
        requires free { IsUnassigned (true_lits self.old.entries) (lit_of (meaning entry)) }
        requires level { at ≡ level_in (self.old.entries ++ meaning entry ∷ []) }
        ensures { self.new ≡ record self.old { entries = self.old.entries ++ meaning entry ∷ [] } }
    {
        let lit = entry.lit();
        let v = var(lit);
        self.level = at;
        self.values[v as usize] = Some(is_positive(lit));
        self.origins[v as usize] = Origin {
            level: at,
            reason: entry.reason(),
        };
        self.free.remove(v);
        self.entries.push_reserved(entry);
    }

    /// Puts a literal on the trail that a clause forces.
    pub fn assign(&mut self, lit: Lit, reason: Reason)
        requires over { IsOver self.old.vars lit }
        requires free { IsUnassigned (true_lits self.old.entries) lit }
        ensures { self.new ≡ record self.old { entries = self.old.entries ++ Forced lit reason.0 ∷ [] } }
    {
        let at = self.level;
        self.put(Entry::Propagation(lit, reason), at);
    }

    /// Puts a literal on the trail that begins a level.
    pub fn decide(&mut self, lit: Lit)
        requires over { IsOver self.old.vars lit }
        requires free { IsUnassigned (true_lits self.old.entries) lit }
        ensures { self.new ≡ record self.old { entries = self.old.entries ++ Decided lit ∷ [] } }
    {
        let at = self.level + 1;
        self.put(Entry::Decision(lit), at);
    }

    /// The number of decisions.
    pub fn level(&self) -> u32
        ensures { result ≡ level_in self.now.entries }
    {
        self.level
    }

    /// The number of literals on the trail.
    pub fn len(&self) -> u32
        ensures count { result ≡ length self.now.entries }
        ensures well { IsWell self.now }
    {
        self.entries.len() as u32
    }

    /// Makes a variable more active, so that `pick` answers it earlier.
    pub fn bump(&mut self, var: u32)
        requires low { 1 ≤ var }
        requires high { var ≤ self.old.vars }
        ensures { self.new ≡ self.old }
    {
        self.free.bump(var);
    }

    // Takes the last entry off, and saves its literal's sign.
    fn undo_last(&mut self)
        requires { 0 < length self.old.entries }
        ensures { self.new ≡ record self.old { entries = take (length self.old.entries - 1) self.old.entries; taken = min self.old.taken (length self.old.entries - 1) } }
    {
        let Some(entry) = self.entries.pop() else {
            unreachable!();
        };
        let lit = entry.lit();
        let v = var(lit);
        self.level -= entry.rise();
        self.values[v as usize] = None;
        self.phases[v as usize] = is_positive(lit);
        self.free.insert(v);
        self.taken = self.taken.min(self.entries.len() as u32);
    }

    /// Takes off the entries above a level, and forgets that they were taken.
    pub fn undo_to(&mut self, level: u32)
        ensures entries { self.new.entries ≡ up_to level self.old.entries }
        ensures taken { self.new.taken ≡ min self.old.taken (length self.new.entries) }
        ensures vars { self.new.vars ≡ self.old.vars }
    {
        if self.level <= level {
            return;
        }
        self.free.fade();
        while self.level() > level {
            self.undo_last();
        }
    }

    /// An unassigned literal: `None` exactly where every variable is assigned.
    pub fn pick(&self) -> Option<Lit>
        ensures all { IsNone result ↔ ((v : ℕ) → 1 ≤ v → v ≤ self.now.vars → IsAssigned self.now.entries v) }
        ensures free { IfSome result (λ l. IsOver self.now.vars l × IsUnassigned (true_lits self.now.entries) l) }
    {
        match self.free.top() {
            Some(v) => Some(literal(v, self.phases[v as usize])),
            None => None,
        }
    }

    /// The literal at this place of the trail, the oldest at 0.
    pub fn lit_at(&self, i: u32) -> Lit
        requires { i < length self.now.entries }
        ensures { slice_get (true_lits self.now.entries) i ≡ Some result }
    {
        self.entries[i as usize].lit()
    }

    /// The level at which a literal's variable was assigned.
    pub fn level_of(&self, lit: Lit) -> u32
        requires { IsAssigned self.now.entries (variable lit) }
        ensures { result ≡ level_in_of (variable lit) self.now.entries }
    {
        self.origins[var(lit) as usize].level
    }

    /// The clause that forced a literal's variable: `None` exactly where it was decided.
    pub fn reason_of(&self, lit: Lit) -> Option<Reason>
        requires { IsAssigned self.now.entries (variable lit) }
        ensures { option_map (λ r. r.0) result ≡ reason_in_of (variable lit) self.now.entries }
    {
        self.origins[var(lit) as usize].reason
    }

    /// The oldest literal that was not taken yet, which is then taken: `None` exactly where all
    /// are.
    pub fn take_next(&mut self) -> Option<Lit>
        ensures next { result ≡ slice_get (true_lits self.old.entries) self.old.taken }
        ensures taken { self.new ≡ record self.old { taken = min (self.old.taken + 1) (length self.old.entries) } }
        ensures well { IsWell self.new }
    {
        if self.taken >= self.len() {
            return None;
        }
        let lit = self.entries[self.taken as usize].lit();
        self.taken += 1;
        Some(lit)
    }
}
