//! What holds of every run of a checked program, and of every well made candidate.

ghost use Rattle.std.specs.Prelude.{◌≡◌, List};
ghost use Rattle.std.specs.List.{AllZip};
ghost use Rattle.axiom_model.specs.declared.Candidate.{Candidate};
ghost use Rattle.axiom_model.specs.WellMade.{WellMade};
ghost use Rattle.axiom_model.specs.Failing.{Run, RunsTo, execution_of};
ghost use Rattle.c_check.specs.declared.checked.Checked.{Checked};
ghost use Rattle.c_check.specs.WellFormed.{IsChecked};
ghost use Rattle.run_model.specs.Programs.{shape_of};
ghost use Rattle.run_model.specs.Threads.{thread_run};
ghost use Rattle.run_model.specs.Laws.{CreatesFew, CreatesOnce};
ghost use Rattle.run_laws.specs.Started.{StartedCreateFew, StartedIsShallow, StartedHandlesAreLow, StartedCreatesDiffer, CreatesDifferInARun};
ghost use Rattle.run_laws.specs.Frames.{RunsAreFramed, ShortRunsAreFramed};
ghost use Rattle.run_laws.specs.Short.{ShortRunsGoOn};
ghost use Rattle.run_laws.specs.Turns.{HigherBoundsGoOn};
ghost use Rattle.run_laws.specs.Bounded.{ScriptsAreBounded};
ghost use Rattle.run_laws.specs.Sections.{RunsHaveSections, ShortRunsHaveSections};
ghost use Rattle.run_laws.specs.Belonging.{RunsBelong, ShortRunsBelong, CellsAreFew};
ghost use Rattle.run_laws.specs.Lengths.{RunsAreShort, ShortRunsAreShort, CandidatesAreShort};
ghost use Rattle.run_laws.specs.Words.{RunsAreOfWords, ShortRunsAreOfWords, StartedRunsAreOfWords, StartedShortRunsAreOfWords, CandidatesAreOfWords};

/// What the check of a program has counted holds of its runs, without an execution: a run of a function
/// that main leads to creates at most 63 threads, at most four creations lie between main and such a
/// function, and so each handle is below 2^24.
pub fn started_threads_are_limited()
    ensures few { StartedCreateFew }
    ensures shallow { StartedIsShallow }
    ensures low_handles { StartedHandlesAreLow }
{}

/// A run has at most 135170 actions, by what the check of its program has counted: four for each access to a
/// shared cell and for each call, argument and operator, and its first and last. So it is where a started
/// function runs, also where the script is too short, and in each well made candidate.
pub fn runs_are_short()
    ensures whole { RunsAreShort }
    ensures short { ShortRunsAreShort }
    ensures of_candidates { CandidatesAreShort }
{}

/// Creates of one handle are one create: threads of different handles that run started functions create
/// threads of different handles, and no run creates two of one.
pub fn started_creates_differ()
    ensures of_two_runs { StartedCreatesDiffer }
    ensures of_one_run { CreatesDifferInARun }
{}

/// Start is the first action of a run and stands nowhere else. End is the last one where the thread came
/// to its end, and stands nowhere else; a run that ends otherwise, and one for which the script is too
/// short, has none.
pub fn runs_are_framed()
    ensures whole { RunsAreFramed }
    ensures short { ShortRunsAreFramed }
{}

/// Where a script is too short, the run on it with a number and any others behind it does first what it
/// did on the script, and then what the number says: a read is made with it; 0 for a go number ends the
/// run, 1 lets it open its section or join, any other makes it Bad; so does a bool above 1.
pub fn short_runs_go_on()
    ensures { ShortRunsGoOn }
{}

/// The runs of a program use a bounded number of script numbers: on a script that is longer no run is
/// short.
pub fn scripts_are_bounded()
    ensures { ScriptsAreBounded }
{}

/// For two bounds on loops, the run for the lower one is the run for the higher one, or spent its bound:
/// then its actions are the first ones of the other run, which used at least as many numbers.
pub fn higher_bounds_go_on()
    ensures { HigherBoundsGoOn }
{}

/// Open and Close stand in turn in each run of a checked program, an Open first, so no section stands in
/// another one and none is closed that is not open. A run may stop in a section, but none is open where the
/// thread came to its end.
pub fn runs_have_sections()
    ensures whole { RunsHaveSections }
    ensures short { ShortRunsHaveSections }
{}

/// The cells that the actions of a run name are cells of the program, of which a checked one has at most
/// 1024, and the functions of its creates are functions of it.
pub fn actions_belong_to_programs()
    ensures whole { RunsBelong }
    ensures short { ShortRunsBelong }
    ensures few_cells { CellsAreFew }
{}

/// The numbers in the actions of a run are below 2^32 (values, arguments and handles), where its argument,
/// its script, the program's constants and the handles that it gives are.
pub fn runs_are_of_words()
    ensures whole { RunsAreOfWords }
    ensures short { ShortRunsAreOfWords }
{}

/// A started function of a checked program gives few handles and low ones, so only the argument, the script
/// and the constants count.
pub fn started_runs_are_of_words()
    ensures whole { StartedRunsAreOfWords }
    ensures short { StartedShortRunsAreOfWords }
{}

/// In a well made candidate of a checked program, whose scripts and constants are below 2^32, so are the
/// threads' arguments and the numbers in their actions.
pub fn candidates_are_of_words()
    ensures { CandidatesAreOfWords }
{}

/// Each thread of a well made candidate of a checked program creates at most 63 threads.
pub fn creates_are_few()
    ensures { (p : Checked) (c : Candidate) (rs : List Run) → IsChecked p
        → AllZip (RunsTo (thread_run p)) c.threads rs → WellMade (shape_of p.program) (execution_of c rs) → CreatesFew rs }
{}

/// No two creates of a well made candidate of a checked program have one handle.
pub fn creates_differ()
    ensures { (p : Checked) (c : Candidate) (rs : List Run) → IsChecked p
        → AllZip (RunsTo (thread_run p)) c.threads rs → WellMade (shape_of p.program) (execution_of c rs) → CreatesOnce (execution_of c rs) }
{}
