//! What an assignment spells of the instances.

ghost use Rattle.std.specs.Prelude.{◌≡◌, ◌++◌, map, All, IfOk, OnOk};
ghost use Rattle.ssa_form.specs.Parts.{input_of};
ghost use Rattle.encode_match.specs.Parts.{part_map, taken_by, taken_in};
ghost use Rattle.encode.specs.Words.{HasWord, HaveTaken, HaveParts, taken_of};

use crate::words::{guard, word};
use bit_gates::Word;
use bv_term::TermId;
use dg_base::{List, OutOfMemory};
use encode_match::{PartMap, Taken};
use ssa_form::{SsaAct, SsaPart, SsaStep};
use std::alloc::Global;

// The number that a step takes.
fn taken_term(act: SsaAct) -> Option<TermId>
    ensures { result ≡ taken_of act }
{
    match act {
        SsaAct::Take(value) | SsaAct::Read { value, .. } => Some(value),
        _ => None,
    }
}

// Adds the number that a step takes, with its guard.
fn add_taken(script: &mut List<Taken>, words: &[Word], step: &SsaStep) -> Result<(), OutOfMemory>
    requires guard { HasWord words.now step.now.guard }
    requires number { All (HasWord words.now) (input_of step.now.act) }
    ensures { OnOk result (script.new ≡ script.old ++ taken_by words.now step.now step.now.act) }
{
    let Some(number) = taken_term(step.act) else {
        return Ok(());
    };
    script.push(Taken {
        guard: guard(words, step.guard),
        bits: word(words, number),
    })?;
    Ok(())
}

// The numbers that steps take, with their guards.
fn script_of(alloc: Global, words: &[Word], steps: &[SsaStep]) -> Result<List<Taken>, OutOfMemory>
    requires { HaveTaken words.now steps.now }
    ensures { IfOk result (λ script. script ≡ taken_in words.now steps.now) }
{
    let mut script = List::new(alloc);
    for step in steps {
        add_taken(&mut script, words, step)?;
    }
    Ok(script)
}

/// The map of each instance.
pub(crate) fn part_maps(
    alloc: Global,
    words: &[Word],
    parts: &[SsaPart],
) -> Result<List<PartMap>, OutOfMemory>
    requires { HaveParts words.now parts.now }
    ensures { IfOk result (λ maps. maps ≡ map (part_map words.now) parts.now) }
{
    let mut maps = List::new(alloc);
    for part in parts {
        maps.push(PartMap {
            function: part.function,
            arg: word(words, part.arg),
            script: script_of(alloc, words, part.steps.as_slice())?,
        })?;
    }
    Ok(maps)
}
