// The parts of texts: numbers, places, the line on a failing thread, the lines on workers.
ghost use Rattle.std.specs.Prelude.{◌≡◌, ◌++◌, OnOk, codes, decimal, flat_map};
ghost use Rattle.line_text.specs.Words.{shown};
ghost use Rattle.dg_top.specs.Answers.{bound_text, failing_line, report_line};
ghost use Rattle.dg_top.specs.RefusalText.{place_text};

use dg_base::{OutOfMemory, Place};
use line_text::{put, put_number};
use verdict_run::Report;

/// Appends the words and the number.
pub fn put_numbered(out: &mut Vec<u8>, words: &[u8], number: u32) -> Result<(), OutOfMemory>
    ensures { OnOk result (out.new.items ≡ out.old.items ++ (words.now ++ decimal number)) }
{
    put(out, words)?;
    put_number(out, number)
}

/// Appends `L:C`.
pub fn put_place(out: &mut Vec<u8>, place: Place) -> Result<(), OutOfMemory>
    ensures { OnOk result (out.new.items ≡ out.old.items ++ place_text place) }
{
    put_number(out, place.line)?;
    put(out, b":")?;
    put_number(out, place.col)
}

fn bound_word(bound: bool) -> &'static [u8]
    ensures { result.now ≡ bound_text bound }
{
    if bound { b" bound" } else { b"" }
}

/// Appends `WORD thread H at L:C`, or where a bound is spent `WORD bound thread H at L:C`, as a line.
pub fn put_failing_line(
    out: &mut Vec<u8>,
    word: &[u8],
    handle: u32,
    at: Place,
    bound: bool,
) -> Result<(), OutOfMemory>
    ensures { OnOk result (out.new.items ≡ out.old.items ++ failing_line word.now handle at bound) }
{
    put(out, word)?;
    put(out, bound_word(bound))?;
    put(out, b" thread ")?;
    put_number(out, handle)?;
    put(out, b" at ")?;
    put_place(out, at)?;
    put(out, b"\n")
}

// Appends the numbers, each behind a blank.
fn put_reads(out: &mut Vec<u8>, reads: &[u32]) -> Result<(), OutOfMemory>
    ensures { OnOk result (out.new.items ≡ out.old.items ++ shown decimal reads.now) }
{
    for count in reads {
        put(out, b" ")?;
        put_number(out, *count)?;
    }
    Ok(())
}

// Appends `worker I entries N read COUNT COUNT ..` as a line.
fn put_report(out: &mut Vec<u8>, report: &Report) -> Result<(), OutOfMemory>
    ensures { OnOk result (out.new.items ≡ out.old.items ++ report_line report.now) }
{
    put(out, b"worker ")?;
    put_number(out, report.worker)?;
    put(out, b" entries ")?;
    put_number(out, report.entries)?;
    put(out, b" read")?;
    put_reads(out, report.reads.as_slice())?;
    put(out, b"\n")
}

/// Appends a line for each worker.
pub fn put_reports(out: &mut Vec<u8>, reports: &[Report]) -> Result<(), OutOfMemory>
    ensures { OnOk result (out.new.items ≡ out.old.items ++ flat_map report_line reports.now) }
{
    for report in reports {
        put_report(out, report)?;
    }
    Ok(())
}
