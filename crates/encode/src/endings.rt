//! The clauses that say how the runs end.

ghost use Rattle.std.specs.Prelude.{◌≡◌, ◌∷◌, ◌++◌, [], map, All, IfOk, OnOk};
ghost use Rattle.cnf_problem.specs.Literals.{IsOver, negated as negation};
ghost use Rattle.event_graph.specs.Graphs.{guard_lit};
ghost use Rattle.encode_match.specs.Parts.{bad_by, fail_by, guards_in, guards_of};
ghost use Rattle.encode.specs.Words.{HasWord, HaveGuards, AllHaveGuards};

use crate::words::guard;
use bit_gates::Word;
use cnf_problem::{Gates, negated};
use dg_base::{List, Lit, OutOfMemory};
use ssa_form::{SsaAct, SsaPart, SsaStep};
use std::alloc::Global;

/// The guards of the steps at which a run ends otherwise than by its end or a stop.
#[derive(Drop)]
pub(crate) struct Endings {
    /// Of the steps at which a run is Bad.
    pub bad: List<Lit>,
    /// Of the steps at which a run fails.
    pub fails: List<Lit>,
}

impl Endings {
    // Adds the guard of a step, where it is such an ending.
    fn add_step(&mut self, words: &[Word], step: &SsaStep) -> Result<(), OutOfMemory>
        requires { HasWord words.now step.now.guard }
        ensures bad { OnOk result (self.new.bad ≡ self.old.bad ++ map (guard_lit words.now) (bad_by step.now step.now.act)) }
        ensures fails { OnOk result (self.new.fails ≡ self.old.fails ++ map (guard_lit words.now) (fail_by step.now step.now.act)) }
    {
        let guard = guard(words, step.guard);
        match step.act {
            SsaAct::Bad => self.bad.push(guard)?,
            SsaAct::Fail { .. } => self.fails.push(guard)?,
            _ => {}
        }
        Ok(())
    }

    // Adds the guards of a part's steps.
    fn add_steps(&mut self, words: &[Word], steps: &[SsaStep]) -> Result<(), OutOfMemory>
        requires { HaveGuards words.now steps.now }
        ensures bad { OnOk result (self.new.bad ≡ self.old.bad ++ map (guard_lit words.now) (guards_in bad_by steps.now)) }
        ensures fails { OnOk result (self.new.fails ≡ self.old.fails ++ map (guard_lit words.now) (guards_in fail_by steps.now)) }
    {
        for step in steps {
            self.add_step(words, step)?;
        }
        Ok(())
    }
}

/// The guards of all parts' endings.
pub(crate) fn endings_of(
    alloc: Global,
    words: &[Word],
    parts: &[SsaPart],
) -> Result<Endings, OutOfMemory>
    requires { AllHaveGuards words.now parts.now }
    ensures bad { IfOk result (λ e. e.bad ≡ map (guard_lit words.now) (guards_of bad_by parts.now)) }
    ensures fails { IfOk result (λ e. e.fails ≡ map (guard_lit words.now) (guards_of fail_by parts.now)) }
{
    let mut endings = Endings {
        bad: List::new(alloc),
        fails: List::new(alloc),
    };
    for part in parts {
        endings.add_steps(words, part.steps.as_slice())?;
    }
    Ok(endings)
}

/// Puts the clauses that no run is Bad, and that some run fails.
pub(crate) fn put_endings(gates: &mut Gates, endings: &Endings) -> Result<(), OutOfMemory>
    requires bad { All (IsOver gates.old.vars) endings.now.bad }
    requires fails { All (IsOver gates.old.vars) endings.now.fails }
    ensures { OnOk result (gates.new ≡ record { vars = gates.old.vars; clauses = gates.old.clauses ++ (map (λ l. negation l ∷ []) endings.now.bad ++ endings.now.fails ∷ []) }) }
{
    for guard in endings.bad.as_slice() {
        gates.clause(&[negated(*guard)])?;
    }
    gates.clause(endings.fails.as_slice())
}
