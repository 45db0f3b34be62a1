use dg_base::Op;

/// A term by its number. The terms of a set are numbered from 0 without gaps.
#[derive(Debug, Clone, Copy, PartialEq, Eq, Drop)]
pub struct TermId(pub u32);

/// What a term is.
#[derive(Debug, Clone, Copy, PartialEq, Eq, Drop)]
pub enum Term {
    /// An input of its own, which may have any value.
    Input,
    /// The same value under all inputs.
    Constant(u32),
    /// An operator of older terms. It looks at as many of them as it has arguments; the rest repeat
    /// the first.
    Apply(Op, TermId, TermId, TermId),
}
