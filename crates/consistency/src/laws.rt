//! What holds of all answers.

ghost use Rattle.std.specs.Prelude.{◌≡◌};
ghost use Rattle.axiom_model.specs.declared.MemoryModel.{MemoryModel};
ghost use Rattle.axiom_model.specs.Execution.{Execution};
ghost use Rattle.axiom_model.specs.Models.{Consistent};
ghost use Rattle.consistency.specs.declared.Inconsistent.{Inconsistent};
ghost use Rattle.consistency.specs.declared.Inconsistent.TheVariants.{OutOfMemory};
ghost use Rattle.consistency.specs.Evidence.{FirstBroken, SameKind};

/// Each execution has one answer, but for the events that show it and want of memory: of a consistent
/// one no condition is the first that is broken, and of any other one is. So an answer comes exactly
/// where its condition is the first that is broken.
pub fn answers_exclude_each_other()
    ensures consistent { (m : MemoryModel) (x : Execution) (e : Inconsistent)
        → Consistent m x → FirstBroken m x e → e ≡ OutOfMemory }
    ensures one { (m : MemoryModel) (x : Execution) (e f : Inconsistent)
        → FirstBroken m x e → FirstBroken m x f → SameKind e f }
{}
