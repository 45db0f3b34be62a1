// The head of a program's problem, and where another head differs.
ghost use Rattle.std.specs.Prelude.{◌≡◌, ◌++◌, IfOk};
ghost use Rattle.log_text.specs.Formats.{head_line, head_lines};
ghost use Rattle.log_text.specs.Spelling.{HasHead};
ghost use Rattle.program_log.specs.Heads.{HasNumbers, IsCompared, head_of, model_number};

use axiom_model::MemoryModel;
use c_check::Checked;
use cnf_problem::{Head, head};
use dg_base::{Bytes, List, OutOfMemory};
use encode_match::Encoded;
use log_text::{HeadLine, put_head_line};
use std::alloc::Global;

// The lines of a head, in order.
const LINES: [HeadLine; 6] = [
    HeadLine::Model,
    HeadLine::Unroll,
    HeadLine::Vars,
    HeadLine::Clauses,
    HeadLine::Nodes,
    HeadLine::Atoms,
];

/// A line that two heads have otherwise.
#[derive(Debug, Drop)]
pub struct OtherLine {
    /// Its place among the lines of a head, from 0.
    pub place: u32,
    /// How it reads in the one.
    pub theirs: Bytes,
    /// How it reads in the other.
    pub ours: Bytes,
}

fn model_number(model: MemoryModel) -> u8
    ensures { result ≡ model_number model }
{
    match model {
        MemoryModel::Sc => 0,
        MemoryModel::Tso => 1,
        MemoryModel::Pso => 2,
    }
}

// Each number of a head has 32 bits.
fn has_numbers(head: &Head)
    ensures { HasNumbers head.now }
{
    let _unroll = head.unroll;
    let _vars = head.vars;
    let _clauses = head.clauses;
    let _nodes = head.nodes;
    let _atoms = head.atoms;
}

/// The head of the problem that was made of this program.
pub fn head_of(checked: &Checked, encoded: &Encoded) -> Head
    ensures is { result ≡ head_of checked.now encoded.now }
    ensures can { HasHead (head_of checked.now encoded.now) }
{
    let made = head(&encoded.problem, model_number(encoded.model), checked.k);
    has_numbers(&made);
    made
}

fn line_of(alloc: Global, head: &Head, line: HeadLine) -> Result<Vec<u8>, OutOfMemory>
    ensures { IfOk result (λ bytes. bytes.items ≡ head_line head.now line) }
{
    let mut bytes = Vec::new(alloc);
    put_head_line(&mut bytes, head, line)?;
    Ok(bytes)
}

/// The first line in which the heads differ.
pub fn first_other(
    alloc: Global,
    theirs: &Head,
    ours: &Head,
) -> Result<Option<OtherLine>, OutOfMemory>
    ensures { IfOk result (IsCompared (head_lines theirs.now) (head_lines ours.now)) }
{
    for (place, line) in LINES.iter().enumerate() {
        let their_line = line_of(alloc, theirs, *line)?;
        let our_line = line_of(alloc, ours, *line)?;
        if their_line.as_slice() != our_line.as_slice() {
            return Ok(Some(OtherLine {
                place: place as u32,
                theirs: List::from_vec(their_line),
                ours: List::from_vec(our_line),
            }));
        }
    }
    Ok(None)
}
