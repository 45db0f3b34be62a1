ghost use Rattle.std.specs.Prelude.{◌≡◌, ◌+◌, ◌<◌, ◌≤◌, ◌^◌, ℕ, List, [], ◌∷◌, ◌++◌, length, map, take, All, IfOk, IfSome, IfNone, OnOk, OnErr, Ok, Some, None, slice_get, slice_index_or, ◌↔◌, IsTrue, SomeIff};
ghost use Rattle.dg_base.specs.Values.{arity, value_of};
ghost use Rattle.dg_base.specs.declared.operators.Op.TheVariants.{Plus, Choose};
ghost use Rattle.bv_term.specs.declared.term.Term.TheVariants.{Input, Constant, Apply};
ghost use Rattle.bv_term.specs.Values.{IsListed, IsBehind, AreTerms, IsConstant, AreConstants, Computes, Grows, value as term_value};

use crate::term::{Term, TermId};
use dg_base::{Op, OutOfMemory, apply};
use std::alloc::Global;
use std::marker::Model;

/// A set of terms that grows.
#[derive(Debug, Drop)]
pub struct Terms {
    terms: Vec<Term>,
}

impl Model for Terms {
    ghost use Rattle.std.specs.Prelude.{List};
    ghost use Rattle.bv_term.specs.declared.term.Term.{Term};
    ghost use Rattle.bv_term.specs.Values.{AreTerms};

    ghost Value = { List Term };

    ghost view = { λ t. t.terms.items };

    ghost invariant = { λ t. AreTerms t.terms.items };
}

impl Terms {
    /// No terms. This takes no memory.
    pub fn new(alloc: Global) -> Result<Terms, OutOfMemory>
        ensures { result ≡ Ok [] }
    {
        Ok(Terms {
            terms: Vec::new(alloc),
        })
    }

    /// The number of terms.
    pub fn len(&self) -> usize
        ensures value { result ≡ length self.now }
        ensures terms { AreTerms self.now }
    {
        self.terms.len()
    }

    /// Whether there is no term.
    pub fn is_empty(&self) -> bool
        ensures { IsTrue result ↔ (self.now ≡ []) }
    {
        self.len() == 0
    }

    /// What the terms are, by their numbers.
    pub fn as_slice(&self) -> &[Term]
        ensures value { result.now ≡ self.now }
        ensures terms { AreTerms self.now }
    {
        self.terms.as_slice()
    }

    /// What the term is.
    pub fn get(&self, term: TermId) -> Term
        requires { IsListed self.now term }
        ensures value { slice_get self.now term.0 ≡ Some result }
        ensures behind { IsBehind term.0 result }
    {
        self.terms[term.0 as usize]
    }

    /// The value of a constant term; `None` for a term that is none.
    pub fn constant_value(&self, term: TermId) -> Option<u32>
        requires { IsListed self.now term }
        ensures some { IfSome result (IsConstant self.now term) }
        ensures none { IfNone result ((v : ℕ) → ¬ IsConstant self.now term v) }
    {
        match self.get(term) {
            Term::Input => None,
            Term::Constant(value) => Some(value),
            Term::Apply(_, _, _, _) => None,
        }
    }

    /// A new term that is an input.
    pub fn input(&mut self) -> Result<TermId, OutOfMemory>
        ensures number { IfOk result (λ t. t.0 ≡ length self.old) }
        ensures ok { OnOk result (self.new ≡ self.old ++ Input ∷ []) }
        ensures value { IfOk result (λ t. (inputs : ℕ → ℕ) → term_value inputs self.new t ≡ inputs t.0) }
        ensures grows { OnOk result (Grows self.old self.new) }
        ensures err { OnErr result (self.new ≡ self.old) }
    {
        self.push(Term::Input)
    }

    /// A term with this value under all inputs.
    pub fn constant(&mut self, value: u32) -> Result<TermId, OutOfMemory>
        ensures constant { IfOk result (λ t. IsConstant self.new t value) }
        ensures value { IfOk result (λ t. (inputs : ℕ → ℕ) → term_value inputs self.new t ≡ value) }
        ensures grows { OnOk result (Grows self.old self.new) }
        ensures err { OnErr result (self.new ≡ self.old) }
    {
        self.push(Term::Constant(value))
    }

    /// A term with the operator's value of the arguments' values. Of constants it is the constant
    /// that is that value. A sum with 0, a choice by a constant and a choice between equal terms are
    /// the argument that they equal, and no new term.
    pub fn make(&mut self, op: Op, args: &[TermId]) -> Result<TermId, OutOfMemory>
        requires arguments { length args.now ≡ arity op }
        requires listed { All (IsListed self.old) args.now }
        ensures value { IfOk result (λ t. Computes self.new t op args.now) }
        ensures listed { IfOk result (IsListed self.new) }
        ensures folds { IfOk result (λ t. (vs : List ℕ) → AreConstants self.old args.now vs → IsConstant self.new t (value_of op vs)) }
        ensures grows { OnOk result (Grows self.old self.new) }
        ensures err { OnErr result (self.new ≡ self.old) }
    {
        let _ = &self.terms;
        if let Some(value) = self.folded(op, args) {
            return self.constant(value);
        }
        if let Some(same) = self.argument(op, args) {
            return Ok(same);
        }
        let first = args[0];
        self.push(Term::Apply(
            op,
            first,
            argument_or(args, 1, first),
            argument_or(args, 2, first),
        ))
    }

    // Puts a term behind the others.
    fn push(&mut self, term: Term) -> Result<TermId, OutOfMemory>
        requires { IsBehind (length self.old) term }
        ensures number { IfOk result (λ t. t.0 ≡ length self.old) }
        ensures ok { OnOk result (self.new ≡ self.old ++ term ∷ []) }
        ensures terms { AreTerms self.new }
        ensures err { OnErr result (self.new ≡ self.old) }
    {
        let number = u32::try_from(self.terms.len()).map_err(|_| OutOfMemory)?;
        self.terms.push(term)?;
        Ok(TermId(number))
    }

    // The operator's value, where all arguments are constants.
    fn folded(&self, op: Op, args: &[TermId]) -> Option<u32>
        requires arguments { length args.now ≡ arity op }
        requires listed { All (IsListed self.now) args.now }
        ensures some { IfSome result (λ v. (vs : List ℕ) × AreConstants self.now args.now vs × (v ≡ value_of op vs)) }
        ensures none { IfNone result ((vs : List ℕ) → ¬ AreConstants self.now args.now vs) }
    {
        let values = self.constants(args)?;
        Some(apply(op, &values[..args.len()]))
    }

    // The values of these terms, where all are constants.
    fn constants(&self, args: &[TermId]) -> Option<[u32; 3]>
        requires few { length args.now ≤ 3 }
        requires listed { All (IsListed self.now) args.now }
        ensures some { IfSome result (λ vs. AreConstants self.now args.now (take (length args.now) vs)) }
        ensures none { IfNone result ((vs : List ℕ) → ¬ AreConstants self.now args.now vs) }
    {
        let mut values = [0; 3];
        for (i, arg) in args.iter().enumerate() {
            values[i] = self.constant_value(*arg)?;
        }
        Some(values)
    }

    // The argument that the operator's value is in any case.
    fn argument(&self, op: Op, args: &[TermId]) -> Option<TermId>
        requires arguments { length args.now ≡ arity op }
        requires listed { All (IsListed self.now) args.now }
        ensures value { IfSome result (λ t. Computes self.now t op args.now) }
        ensures listed { IfSome result (IsListed self.now) }
    {
        match op {
            Op::Plus => self.summand(args[0], args[1]),
            Op::Choose => self.chosen(args[0], args[1], args[2]),
            _ => None,
        }
    }

    // The other summand of a constant 0.
    fn summand(&self, first: TermId, second: TermId) -> Option<TermId>
        requires first { IsListed self.now first }
        requires second { IsListed self.now second }
        ensures { IfSome result (λ t. Computes self.now t Plus (first ∷ second ∷ []) × IsListed self.now t) }
    {
        let _ = &self.terms;
        if let Some(0) = self.constant_value(second) {
            return Some(first);
        }
        if let Some(0) = self.constant_value(first) {
            return Some(second);
        }
        None
    }

    // The branch that is chosen in any case.
    fn chosen(&self, condition: TermId, yes: TermId, no: TermId) -> Option<TermId>
        requires condition { IsListed self.now condition }
        requires yes { IsListed self.now yes }
        requires no { IsListed self.now no }
        ensures { IfSome result (λ t. Computes self.now t Choose (condition ∷ yes ∷ no ∷ []) × IsListed self.now t) }
    {
        let _ = &self.terms;
        if yes == no {
            return Some(yes);
        }
        let value = self.constant_value(condition)?;
        Some(if value == 0 { no } else { yes })
    }
}

// Argument `i`, or this one where there are fewer.
fn argument_or(args: &[TermId], i: usize, other: TermId) -> TermId
    ensures { result ≡ slice_index_or args.now i other }
{
    if i < args.len() { args[i] } else { other }
}
