// The whole lowering.
ghost use Rattle.std.specs.Prelude.{◌≡◌, IfOk, Some};
ghost use Rattle.std.specs.Result.{IfErr};
ghost use Rattle.cond_lower.specs.Rule.{KeepsConds, IsCondFault};
ghost use Rattle.cond_lower.specs.Lowering.{lowered};

use crate::expressions::Lowering;
use crate::fault::{CondFault, Wakeups};
use crate::rule::first_bad_cond;
use c_tree::Program;
use std::alloc::Global;

/// The program without condition variables, where each of them stands only where it may; else the first place, in the order of the
/// text, where one does not. Want of memory may come at any time: a mutex of a wait is evaluated twice, so a tree with waits in the
/// indices of the mutexes of waits grows with each of them to twice its size. A program that is refused is dropped.
///
/// Besides the tree that is made, time and memory are linear in the tree, but for look-ups among the names of condition variables.
pub fn lower(alloc: Global, program: Program, wakeups: Wakeups) -> Result<Program, CondFault>
    ensures lowered { IfOk result (λ p. KeepsConds program × (p ≡ lowered wakeups program)) }
    ensures refused { IfErr result (λ e. IsCondFault program e) }
{
    match first_bad_cond(alloc, &program) {
        Err(_) => Err(CondFault::OutOfMemory),
        Ok(Some(place)) => Err(CondFault::BadCond(place)),
        Ok(None) => match (Lowering { alloc, wakeups }).program(&program) {
            Err(_) => Err(CondFault::OutOfMemory),
            Ok(program) => Ok(program),
        },
    }
}
