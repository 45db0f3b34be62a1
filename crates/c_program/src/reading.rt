// From a text to the program that it is.
ghost use Rattle.std.specs.Prelude.{◌≢◌, ℕ, ◌≤◌, IfOk, IfErr};
ghost use Rattle.dg_base.specs.declared.refusal.Refusal.TheVariants.{OutOfMemory};
ghost use Rattle.c_program.specs.Accepting.{IsAccepted, IsRead, IsRefused};

use c_check::{Checked, check};
use c_stmt::parse;
use c_token::lexer::tokens;
use c_tree::Program;
use dg_base::Refusal;
use std::alloc::Global;

// The program that the text's tokens are. The refusal is the text's for any bound.
fn read(alloc: Global, text: &[u8]) -> Result<Program, Refusal>
    ensures read { IfOk result (IsRead text.now) }
    ensures refused { IfErr result (λ e. e ≢ OutOfMemory → (bound : ℕ) → IsRefused bound text.now e) }
{
    match tokens(alloc, text) {
        Ok(tokens) => parse(alloc, &tokens),
        Err(refusal) => Err(refusal),
    }
}

/// The checked program that the text is, for a loop bound, with spent bounds told or not; or its first refusal.
pub fn read_program(alloc: Global, text: &[u8], bound: u32, full: bool) -> Result<Checked, Refusal>
    requires { (1 ≤ bound) × (bound ≤ 64) }
    ensures accepted { IfOk result (IsAccepted bound full text.now) }
    ensures refused { IfErr result (λ e. e ≢ OutOfMemory → IsRefused bound text.now e) }
{
    match read(alloc, text) {
        Ok(program) => check(alloc, program, bound, full),
        Err(refusal) => Err(refusal),
    }
}
