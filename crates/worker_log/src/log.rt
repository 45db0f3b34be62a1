ghost use Rattle.std.specs.Prelude.{◌≡◌, ◌⊎◌, ◌<◌, ◌^◌, List, length, IfOk, OnOk, OnErr, MatchBool};
ghost use Rattle.dg_base.specs.declared.Lit.{Lit as Literal};
ghost use Rattle.clause_exchange.specs.Spelling.{spelled};
ghost use Rattle.clause_exchange.specs.Seats.{exchange_of};
ghost use Rattle.clause_exchange.specs.Steps.{mine, row_of};
ghost use Rattle.clause_exchange.specs.Calls.{IsOther, IsAllRead};
ghost use Rattle.worker_log.specs.Newness.{knows};
ghost use Rattle.worker_log.specs.Logs.{empty_log, IsUnused};
ghost use Rattle.worker_log.specs.Keeping.{IsLogging, IsHeeding, MayNote, Notes, OnlyReads, OnlyRow, AreHeard, unread};

use clause_exchange::{Exchange, Seat, Shared};
use cnf_problem::{Clauses, Lemma};
use dg_base::{List, Lit, OutOfMemory};
use lemma_log::Entry;
use std::alloc::Global;
use std::marker::Model;

/// The log of one worker of a search, beside its seat at the exchange. It is seen as its number, its
/// entries, and how many entries it read of each row.
#[derive(Debug, Drop)]
pub struct WorkerLog {
    number: u32,
    entries: Vec<Entry>,
    reads: Vec<u32>,
}

impl Model for WorkerLog {
    ghost use Rattle.worker_log.specs.Logs.{LogView};

    ghost Value = { LogView };

    ghost view = { λ w. record { number = w.number; entries = w.entries.items; reads = w.reads.items } };
}

impl WorkerLog {
    /// The log of a number among so many workers.
    pub fn new(alloc: Global, number: u32, workers: u32) -> Result<WorkerLog, OutOfMemory>
        ensures { IfOk result (λ w. w ≡ empty_log number workers) }
    {
        Ok(WorkerLog {
            number,
            entries: Vec::new(alloc),
            reads: Vec::from_elem(alloc, 0, workers as usize)?,
        })
    }

    /// The number whose log it is.
    pub fn number(&self) -> u32
        ensures { result ≡ self.now.number }
    {
        self.number
    }

    /// The entries, in the order in which they were appended.
    pub fn entries(&self) -> &[Entry]
        ensures { result.now ≡ self.now.entries }
    {
        self.entries.as_slice()
    }

    /// The number of entries.
    pub fn len(&self) -> usize
        ensures { result ≡ length self.now.entries }
    {
        self.entries.len()
    }

    /// How many entries were read of each row; of the own row none.
    pub fn reads(&self) -> &[u32]
        ensures { result.now ≡ self.now.reads }
    {
        self.reads.as_slice()
    }

    /// The entries, without the log.
    pub fn into_entries(self) -> List<Entry>
        ensures { result ≡ self.entries }
    {
        List::from_vec(self.entries)
    }

    /// Appends a lemma, by one ticket, and shares its entry where it is short enough and the row has
    /// room. Nothing has changed on an error, which comes before the ticket is drawn.
    pub fn note(
        &mut self,
        exchange: &Exchange,
        seat: &mut Seat,
        lemma: Lemma,
    ) -> Result<(), OutOfMemory>
        requires same { exchange_of seat.old ≡ exchange.now }
        requires logging { IsLogging self.old seat.old.view }
        requires may { MayNote seat.old.view lemma }
        ensures same { exchange_of seat.new ≡ exchange_of seat.old }
        ensures logging { IsLogging self.new seat.new.view }
        ensures noted { OnOk result (Notes lemma (mine seat.old.view) (mine seat.new.view)) }
        ensures err { OnErr result ((self.new ≡ self.old) × (seat.new.view ≡ seat.old.view)) }
    {
        self.entries.reserve(1)?;
        let ticket = exchange.append(seat, &lemma);
        let entry = Entry {
            ticket,
            worker: self.number,
            lemma,
        };
        exchange.share(seat, &entry);
        self.entries.push_reserved(entry);
        Ok(())
    }

    // Reads the next entry of another number's row, and puts its clause behind those that are heard.
    // False where all that was seen is read.
    fn read_next(
        &mut self,
        exchange: &Exchange,
        seat: &mut Seat,
        row: u32,
        heard: &mut Clauses,
    ) -> Result<bool, OutOfMemory>
        requires same { exchange_of seat.old ≡ exchange.now }
        requires logging { IsLogging self.old seat.old.view }
        requires row { IsOther seat.old.view row }
        requires small { length (spelled (row_of (mine seat.old.view) row).known) < 2 ^ 32 }
        ensures same { exchange_of seat.new ≡ exchange_of seat.old }
        ensures logging { IsLogging self.new seat.new.view }
        ensures only { OnlyRow row (mine seat.old.view) (mine seat.new.view) }
        ensures known { (row_of (mine seat.new.view) row).known ≡ (row_of (mine seat.old.view) row).known }
        ensures looked { (row_of (mine seat.new.view) row).log_then ≡ (row_of (mine seat.old.view) row).log_then }
        ensures heard { OnOk result ((start : List (List Literal)) → AreHeard seat.old.view.problem.vars heard.old start (knows (mine seat.old.view)) → AreHeard seat.old.view.problem.vars heard.new start (knows (mine seat.new.view))) }
        ensures more { IfOk result (λ more. MatchBool more (unread (row_of (mine seat.new.view) row) < unread (row_of (mine seat.old.view) row)) (IsAllRead (row_of (mine seat.new.view) row))) }
    {
        let mut entry = Shared {
            ticket: 0,
            worker: 0,
            len: 0,
            lits: [Lit(0); 32],
        };
        if !exchange.read(seat, row, &mut entry) {
            return Ok(false);
        }
        self.reads[row as usize] += 1;
        heard.push(&entry.lits[..entry.len as usize])?;
        Ok(true)
    }

    // Looks at another number's row and reads what it has.
    fn hear(
        &mut self,
        exchange: &Exchange,
        seat: &mut Seat,
        row: u32,
        heard: &mut Clauses,
    ) -> Result<(), OutOfMemory>
        requires same { exchange_of seat.old ≡ exchange.now }
        requires logging { IsLogging self.old seat.old.view }
        requires row { IsOther seat.old.view row }
        ensures same { exchange_of seat.new ≡ exchange_of seat.old }
        ensures logging { IsLogging self.new seat.new.view }
        ensures only { OnlyRow row (mine seat.old.view) (mine seat.new.view) }
        ensures heard { OnOk result ((start : List (List Literal)) → AreHeard seat.old.view.problem.vars heard.old start (knows (mine seat.old.view)) → AreHeard seat.old.view.problem.vars heard.new start (knows (mine seat.new.view))) }
        ensures heeded { OnOk result (IsAllRead (row_of (mine seat.new.view) row) × ((row_of (mine seat.new.view) row).log_then ≡ length (mine seat.new.view).log)) }
    {
        exchange.look(seat, row);
        let mut more = true;
        while more {
            more = self.read_next(exchange, seat, row, heard)?;
        }
        Ok(())
    }

    /// Looks at each other row and reads what it has. Answers the clauses that it read.
    pub fn heed(
        &mut self,
        alloc: Global,
        exchange: &Exchange,
        seat: &mut Seat,
    ) -> Result<Clauses, OutOfMemory>
        requires same { exchange_of seat.old ≡ exchange.now }
        requires logging { IsLogging self.old seat.old.view ⊎ IsUnused self.old seat.old.view }
        ensures same { exchange_of seat.new ≡ exchange_of seat.old }
        ensures logging { IsLogging self.new seat.new.view }
        ensures only { OnlyReads (mine seat.old.view) (mine seat.new.view) }
        ensures heeding { OnOk result (IsHeeding (mine seat.new.view) (length (mine seat.new.view).log)) }
        ensures heard { IfOk result (λ heard. AreHeard seat.old.view.problem.vars heard (knows (mine seat.old.view)) (knows (mine seat.new.view))) }
    {
        let mut heard = Clauses::new(alloc);
        let workers = exchange.workers(seat);
        for row in 0..workers {
            if row != self.number {
                self.hear(exchange, seat, row, &mut heard)?;
            }
        }
        Ok(heard)
    }
}
