// What is said of a witness, as status and text.
ghost use Rattle.std.specs.Prelude.{None, IfOk};
ghost use Rattle.dg_top.specs.Answers.{BadWitness, Failing, Rejected};
ghost use Rattle.dg_top.specs.Replies.{Spells};

use crate::reject_text::put_reject;
use crate::reply::Reply;
use crate::text::put_failing_line;
use c_check::Checked;
use dg_base::{OutOfMemory, Place};
use exec_check::Reject;
use line_text::{put, put_number};
use std::alloc::Global;

/// The witness is a failing execution.
pub fn failing_at(
    alloc: Global,
    handle: u32,
    place: Place,
    bound: bool,
) -> Result<Reply, OutOfMemory>
    ensures { IfOk result (Spells (Failing handle place bound) None) }
{
    let mut text = Vec::new(alloc);
    put_failing_line(&mut text, b"FAILING", handle, place, bound)?;
    Ok(Reply {
        status: 0,
        text,
        kept: None,
    })
}

/// The witness is no failing execution of the program.
pub fn rejected(alloc: Global, checked: &Checked, reject: &Reject) -> Result<Reply, OutOfMemory>
    ensures { IfOk result (Spells (Rejected checked.now reject.now) None) }
{
    let mut text = Vec::from_slice(alloc, b"REFUSED ")?;
    put_reject(&mut text, checked.cells.as_slice(), reject)?;
    put(&mut text, b"\n")?;
    Ok(Reply {
        status: 1,
        text,
        kept: None,
    })
}

/// The witness's text goes wrong at this line.
pub fn bad_witness(alloc: Global, line: u32) -> Result<Reply, OutOfMemory>
    ensures { IfOk result (Spells (BadWitness line) None) }
{
    let mut text = Vec::from_slice(alloc, b"refused W1 WitnessText ")?;
    put_number(&mut text, line)?;
    put(&mut text, b"\n")?;
    Ok(Reply {
        status: 4,
        text,
        kept: None,
    })
}
