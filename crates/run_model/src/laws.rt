// What holds of every run of a thread.
ghost use Rattle.std.specs.Prelude.{◌≡◌, ℕ, ◌+◌, List, Some, length};
ghost use Rattle.axiom_model.specs.Failing.{Run};
ghost use Rattle.c_tree.specs.declared.program.Function.{Function};
ghost use Rattle.c_rules.specs.Names.{functions_of};
ghost use Rattle.c_check.specs.declared.checked.Checked.{Checked};
ghost use Rattle.c_check.specs.WellFormed.{IsNotRecursive};
ghost use Rattle.run_model.specs.Programs.{setting_of};
ghost use Rattle.run_model.specs.Threads.{ShortRun, thread_run, short_run, thread_steps, thread_within};
ghost use Rattle.run_model.specs.Laws.{UsesOnly, IsNumbered};

/// A run uses the first numbers of its script and depends on no others: with any others behind these, or with none, it is the
/// same. A run for which the script is too short has used all of it.
pub fn runs_depend_on_what_they_used()
    ensures whole { (p : Checked) (f handle arg : ℕ) (script : List ℕ) (r : Run)
        → thread_run p f handle arg script ≡ Some r → UsesOnly (thread_run p f handle arg) script r }
    ensures short { (p : Checked) (f handle arg : ℕ) (script : List ℕ) (s : ShortRun)
        → short_run p f handle arg script ≡ Some s → s.used ≡ length script }
{}

/// The n-th thread that a thread creates, from 1, has the handle 64 times the thread's own plus n, also in a run for which the
/// script is too short.
pub fn creates_are_numbered()
    ensures whole { (p : Checked) (f handle arg : ℕ) (script : List ℕ) (r : Run)
        → thread_run p f handle arg script ≡ Some r → IsNumbered handle 0 r.actions }
    ensures short { (p : Checked) (f handle arg : ℕ) (script : List ℕ) (s : ShortRun)
        → short_run p f handle arg script ≡ Some s → IsNumbered handle 0 s.actions }
{}

/// In a program without recursion calls never stand deeper in one another than there are functions: where they may, a thread's
/// run is the same.
pub fn calls_have_fuel()
    ensures { (p : Checked) (handle more : ℕ) (f : Function) (arg : ℕ) → IsNotRecursive p.program
        → thread_within (length (functions_of p.program.items) + more) (setting_of p handle) f arg ≡ thread_steps (setting_of p handle) f arg }
{}
