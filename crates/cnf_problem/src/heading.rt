ghost use Rattle.std.specs.Prelude.{◌≡◌, length};

use crate::problem::{Head, Problem};

/// The head of a problem that was made for this model, with loops unrolled so often.
pub fn head(problem: &Problem, model: u8, unroll: u32) -> Head
    ensures { result ≡ record {
      model = model;
      unroll = unroll;
      vars = problem.now.vars;
      clauses = length problem.now.clauses;
      nodes = length problem.now.nodes;
      atoms = length problem.now.atoms;
    } }
{
    Head {
        model,
        unroll,
        vars: problem.vars,
        clauses: problem.clauses.len() as u32,
        nodes: problem.nodes.len() as u32,
        atoms: problem.atoms.len() as u32,
    }
}
