ghost use Rattle.std.specs.Prelude.{◌≡◌, ◌≤◌, ◌+◌, ◌∷◌, ◌++◌, [], Bool, ◌&&◌, if◌then◌else◌, All, map, IfOk, IfSome, OnOk, OnErr, IsErr, ◌↔◌};
ghost use Rattle.std.specs.Bool.{xor};
ghost use Rattle.cnf_problem.specs.Bounds.{AreGraphs};
ghost use Rattle.cnf_problem.specs.Literals.{value, positive as positive_lit, IsOver};
ghost use Rattle.cnf_problem.specs.Formulas.{Formula, true_lit, HasValue, IsBuilt, AddsFree, IsGate};

use crate::clauses::Clauses;
use crate::literals::{MAX_VARS, TRUE, negated, positive};
use crate::problem::{Atom, Edge, Node, Problem};
use dg_base::{List, Lit, OutOfMemory};
use std::alloc::Global;
use std::marker::Model;

/// Builds a problem's clauses gate by gate. A gate is a literal whose clauses make it equal to a
/// function of older literals (Tseitin 1968). They bind no older variable: whatever was possible
/// before stays possible. Variable 1 is the constant, true by the first clause.
#[derive(Debug, Drop)]
pub struct Gates {
    vars: u32,
    clauses: Clauses,
}

impl Model for Gates {
    ghost use Rattle.cnf_problem.specs.Formulas.{Formula, IsBuilt};

    ghost Value = { Formula };

    ghost view = { λ g. record { vars = g.vars; clauses = g.clauses } };

    ghost invariant = { λ g. IsBuilt (record { vars = g.vars; clauses = g.clauses }) };
}

// The literal of the next variable behind so many.
fn next_lit(vars: u32) -> Result<Lit, OutOfMemory>
    ensures lit { IfOk result (λ l. l ≡ positive_lit (vars + 1)) }
    ensures full { IsErr result ↔ (MAX_VARS ≤ vars) }
{
    if vars >= MAX_VARS {
        return Err(OutOfMemory);
    }
    Ok(positive(vars + 1))
}

impl Gates {
    /// Gates with the constant alone.
    pub fn new(alloc: Global) -> Result<Gates, OutOfMemory>
        ensures { IfOk result (λ gates. gates ≡ record { vars = 1; clauses = (true_lit ∷ []) ∷ [] }) }
    {
        let mut clauses = Clauses::new(alloc);
        clauses.push(&[TRUE])?;
        Ok(Gates { vars: 1, clauses })
    }

    /// Makes room for so many more clauses, with so many literals together. What is built stays as
    /// it is, also where memory is wanting.
    pub fn reserve(&mut self, clauses: usize, lits: usize) -> Result<(), OutOfMemory>
        ensures { self.new ≡ self.old }
    {
        self.clauses.reserve(clauses, lits)
    }

    /// The literal that is always true, or the one that is always false.
    pub fn constant(&self, value: bool) -> Lit
        ensures over { IsOver self.now.vars result }
        ensures exact { HasValue self.now.clauses result (λ _. value) }
    {
        let _ = &self.vars;
        if value { TRUE } else { Lit(3) }
    }

    /// A new variable, of which no clause speaks. It is refused where all variables are used.
    pub fn fresh(&mut self) -> Result<Lit, OutOfMemory>
        ensures lit { IfOk result (λ l. l ≡ positive_lit (self.old.vars + 1)) }
        ensures free { OnOk result (AddsFree self.old self.new) }
        ensures full { IsErr result ↔ (self.old.vars ≡ MAX_VARS) }
        ensures err { OnErr result (self.new ≡ self.old) }
    {
        let lit = next_lit(self.vars)?;
        self.vars += 1;
        Ok(lit)
    }

    /// Puts a clause behind the others. It is refused for want of memory, and where a problem may
    /// have no more clauses.
    pub fn clause(&mut self, lits: &[Lit]) -> Result<(), OutOfMemory>
        requires { All (IsOver self.old.vars) lits.now }
        ensures ok { OnOk result (self.new ≡ record { vars = self.old.vars; clauses = self.old.clauses ++ lits.now ∷ [] }) }
        ensures err { OnErr result (self.new ≡ self.old) }
    {
        self.clauses.push(lits)
    }

    /// A literal that is true where both are. It is refused for want of memory, and where all
    /// variables or clauses are used.
    pub fn and(&mut self, a: Lit, b: Lit) -> Result<Lit, OutOfMemory>
        requires first { IsOver self.old.vars a }
        requires second { IsOver self.old.vars b }
        ensures gate { IfOk result (λ l. IsGate self.old self.new l (λ s. value s a && value s b)) }
        ensures err { OnErr result (self.new ≡ self.old) }
    {
        if let Some(lit) = self.fold_and(a, b) {
            return Ok(lit);
        }
        let out = self.next()?;
        self.define(&[
            &[negated(out), a],
            &[negated(out), b],
            &[out, negated(a), negated(b)],
        ])?;
        Ok(out)
    }

    /// A literal that is true where exactly one of the two is. The refusals are those of `and`.
    pub fn xor(&mut self, a: Lit, b: Lit) -> Result<Lit, OutOfMemory>
        requires first { IsOver self.old.vars a }
        requires second { IsOver self.old.vars b }
        ensures gate { IfOk result (λ l. IsGate self.old self.new l (λ s. xor (value s a) (value s b))) }
        ensures err { OnErr result (self.new ≡ self.old) }
    {
        if let Some(lit) = self.fold_xor(a, b) {
            return Ok(lit);
        }
        let out = self.next()?;
        self.define(&[
            &[negated(out), a, b],
            &[negated(out), negated(a), negated(b)],
            &[out, negated(a), b],
            &[out, a, negated(b)],
        ])?;
        Ok(out)
    }

    /// A literal that is `a` where `c` is true, and `b` elsewhere. The refusals are those of `and`.
    pub fn mux(&mut self, c: Lit, a: Lit, b: Lit) -> Result<Lit, OutOfMemory>
        requires choice { IsOver self.old.vars c }
        requires first { IsOver self.old.vars a }
        requires second { IsOver self.old.vars b }
        ensures gate { IfOk result (λ l. IsGate self.old self.new l (λ s. if value s c then value s a else value s b)) }
        ensures err { OnErr result (self.new ≡ self.old) }
    {
        if let Some(lit) = self.fold_mux(c, a, b) {
            return Ok(lit);
        }
        let out = self.next()?;
        self.define(&[
            &[negated(c), negated(a), out],
            &[negated(c), a, negated(out)],
            &[c, negated(b), out],
            &[c, b, negated(out)],
        ])?;
        Ok(out)
    }

    /// The problem with the clauses built so far.
    pub fn finish(
        self,
        nodes: List<Node>,
        atoms: List<Atom>,
        fixed: List<Edge>,
    ) -> Result<Problem, OutOfMemory>
        requires { AreGraphs self.vars nodes atoms fixed }
        ensures formula { IfOk result (λ p. (p.vars ≡ self.vars) × (p.clauses ≡ self.clauses)) }
        ensures graphs { IfOk result (λ p. (p.nodes ≡ nodes) × (p.atoms ≡ atoms) × (p.fixed ≡ fixed)) }
    {
        let Gates { vars, mut clauses } = self;
        clauses.shrink_to_fit();
        Ok(Problem {
            vars,
            clauses,
            nodes,
            atoms,
            fixed,
        })
    }

    // The conjunction of two literals, where it is a constant or one of them.
    fn fold_and(&self, a: Lit, b: Lit) -> Option<Lit>
        requires first { IsOver self.now.vars a }
        requires second { IsOver self.now.vars b }
        ensures { IfSome result (λ l. IsGate self.now self.now l (λ s. value s a && value s b)) }
    {
        let (yes, no) = (self.constant(true), self.constant(false));
        if a == no || b == no || a == negated(b) {
            Some(no)
        } else if a == yes || a == b {
            Some(b)
        } else if b == yes {
            Some(a)
        } else {
            None
        }
    }

    // Whether exactly one of two literals is true, where it is a constant or a literal of theirs.
    fn fold_xor(&self, a: Lit, b: Lit) -> Option<Lit>
        requires first { IsOver self.now.vars a }
        requires second { IsOver self.now.vars b }
        ensures { IfSome result (λ l. IsGate self.now self.now l (λ s. xor (value s a) (value s b))) }
    {
        let (yes, no) = (self.constant(true), self.constant(false));
        if a == b {
            Some(no)
        } else if a == negated(b) {
            Some(yes)
        } else if a == no {
            Some(b)
        } else if a == yes {
            Some(negated(b))
        } else if b == no {
            Some(a)
        } else if b == yes {
            Some(negated(a))
        } else {
            None
        }
    }

    // The choice between two literals, where it is one of them.
    fn fold_mux(&self, c: Lit, a: Lit, b: Lit) -> Option<Lit>
        requires first { IsOver self.now.vars a }
        requires second { IsOver self.now.vars b }
        ensures { IfSome result (λ l. IsGate self.now self.now l (λ s. if value s c then value s a else value s b)) }
    {
        if c == self.constant(true) || a == b {
            Some(a)
        } else if c == self.constant(false) {
            Some(b)
        } else {
            None
        }
    }

    // The literal of the next variable.
    fn next(&self) -> Result<Lit, OutOfMemory>
        ensures lit { IfOk result (λ l. l ≡ positive_lit (self.now.vars + 1)) }
        ensures room { OnOk result (self.now.vars + 1 ≤ MAX_VARS) }
        ensures built { IsBuilt self.now }
    {
        next_lit(self.vars)
    }

    // Makes the next variable, and puts clauses over it and the older ones behind the others.
    fn define(&mut self, clauses: &[&[Lit]]) -> Result<(), OutOfMemory>
        requires room { self.old.vars + 1 ≤ MAX_VARS }
        requires over { All (All (IsOver (self.old.vars + 1))) (map (λ c. c.now) clauses.now) }
        ensures ok { OnOk result (self.new ≡ record { vars = self.old.vars + 1; clauses = self.old.clauses ++ map (λ c. c.now) clauses.now }) }
        ensures err { OnErr result (self.new ≡ self.old) }
    {
        self.clauses.push_all(clauses)?;
        self.vars += 1;
        Ok(())
    }
}
