// Making a program.
ghost use Rattle.std.specs.Prelude.{◌≡◌, ◌++◌, IfErr, IfOk, OnOk};
ghost use Rattle.prog_maker.specs.Faults.{IsFaultOf};
ghost use Rattle.prog_maker.specs.Made.{IsNumberOfCopies, made_text};
ghost use Rattle.prog_maker.specs.declared.making.MakeFault.TheVariants.{OutOfMemory};

use crate::lines::{put_asserts, put_copies, put_creates, put_joins, put_main};
use dg_base::{Bytes, List, OutOfMemory};
use line_text::put;
use std::alloc::Global;

/// How many copies a program has at most; it has at least one.
pub const MOST_COPIES: u32 = 16;

/// Why no program was made.
#[derive(Debug, Clone, Copy, PartialEq, Eq, Drop, thiserror::Error)]
pub enum MakeFault {
    /// The number is not from 1 to `MOST_COPIES`.
    #[error("no number of copies")]
    Number,
    /// Memory ran out.
    #[error("out of memory")]
    OutOfMemory,
}

impl From<OutOfMemory> for MakeFault {
    ghost from_gives = { λ _ fault. fault ≡ OutOfMemory };

    fn from(_: OutOfMemory) -> Self {
        MakeFault::OutOfMemory
    }
}

fn put_program(out: &mut Vec<u8>, number: u32) -> Result<(), OutOfMemory>
    requires { IsNumberOfCopies number }
    ensures { OnOk result (out.new.items ≡ out.old.items ++ made_text number) }
{
    put_copies(out, number)?;
    put_main(out, 2 * number)?;
    put_creates(out, number)?;
    put_joins(out, 2 * number)?;
    put_asserts(out, number)?;
    put(out, b"  return 0;\n}\n")
}

/// The text of the program with so many copies.
pub fn make_program(alloc: Global, number: u32) -> Result<Bytes, OutOfMemory>
    requires { IsNumberOfCopies number }
    ensures { IfOk result (λ text. text ≡ made_text number) }
{
    let mut out = Vec::new(alloc);
    put_program(&mut out, number)?;
    Ok(List::from_vec(out))
}

/// The text of the program with so many copies, for a number that may be out of range.
pub fn try_make_program(alloc: Global, number: u32) -> Result<Bytes, MakeFault>
    ensures made { IfOk result (λ text. IsNumberOfCopies number × (text ≡ made_text number)) }
    ensures refused { IfErr result (IsFaultOf number) }
{
    if number < 1 || MOST_COPIES < number {
        return Err(MakeFault::Number);
    }
    Ok(make_program(alloc, number)?)
}
