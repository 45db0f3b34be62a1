// Calls of functions and of built-in calls.
ghost use Rattle.std.specs.Prelude.{◌≡◌, map, IfOk, IfErr, []};
ghost use Rattle.run_model.specs.Calls as calls;
ghost use Rattle.run_model.specs.Meaning as meanings;
ghost use Rattle.run_model.specs.Threads as threads;
ghost use Rattle.run_model.specs.Running.{Gives, context_at, setting_at};
ghost use Rattle.run_model.specs.declared.state.Stop.TheVariants as stops;

use crate::operators::word_unsigned;
use crate::state::{Flow, Local, Need, Runner, Slot, Stop, fail};
use crate::table::Table;
use crate::types::spelled;
use axiom_model::Action;
use c_rules::{Builtin, builtin_named};
use c_tree::{Expr, Function, Param};
use dg_base::{Bytes, List, OutOfMemory, Place};
use sqlite_items::at;
use std::alloc::Global;

// Whether a call of the function is a section.
#[tactic(auto, unfolding(crate::specs::Threads::is_atomic))]
fn is_atomic(function: &Function) -> bool
    ensures { result ≡ threads.is_atomic function.now }
{
    function.name.as_slice().starts_with(b"__VERIFIER_atomic_")
}

// A body's value: 0 where it comes to its end.
fn result_of(flow: Flow) -> u32
    ensures { result ≡ threads.result_of flow }
{
    match flow {
        Flow::Returned(v) => v,
        Flow::Next => 0,
        Flow::Broke => 0,
        Flow::Continued => 0,
    }
}

fn parameter(alloc: Global, param: &Param, value: u32) -> Result<Local, OutOfMemory>
    ensures { IfOk result (λ l. l ≡ threads.parameter param.now value) }
{
    let mut cells = List::new(alloc);
    cells.push(value)?;
    Ok(Local {
        name: Bytes::from_slice(alloc, param.name.as_slice())?,
        unsigned: word_unsigned(param.word),
        cells,
    })
}

// The parameters as locals; each has the argument of its number.
fn parameters(alloc: Global, params: &[Param], values: &[u32]) -> Result<Vec<Local>, OutOfMemory>
    ensures { IfOk result (λ locals. locals.items ≡ threads.parameters [] 0 params.now values.now) }
{
    let mut locals = Vec::new(alloc);
    for (i, param) in params.iter().enumerate() {
        let value = match at(values, i) {
            None => 0,
            Some(value) => *value,
        };
        locals.push(parameter(alloc, param, value)?)?;
    }
    Ok(locals)
}

// The number of the function that an argument names.
fn function_in(table: &Table, args: &[Expr], i: usize) -> Result<u32, Stop>
    ensures is { IfOk result (λ f. f ≡ calls.function_in (setting_at table.now) (calls.argument (map (meanings.meaning (context_at table.now)) args.now) i).spelled) }
    ensures else_memory { IfErr result (λ e. e ≡ stops.OutOfMemory) }
{
    let name = match at(args, i) {
        None => return Ok(0),
        Some(arg) => spelled(table, arg),
    };
    let name = match name {
        None => return Ok(0),
        Some(name) => name,
    };
    match table.function_named(name.as_slice()) {
        None => Ok(0),
        Some(number) => match u32::try_from(number) {
            Ok(number) => Ok(number),
            Err(_) => Err(Stop::OutOfMemory),
        },
    }
}

impl<'a> Runner<'a> {
    /// A call.
    #[cycle(run)]
    #[tactic(auto, using(crate::proofs::Passing::passes))]
    pub(crate) fn call(
        &mut self,
        table: &Table,
        room: usize,
        place: Place,
        name: &[u8],
        args: &[Expr],
    ) -> Result<u32, Stop>
        ensures { Gives result self.new (meanings.call (context_at table.now) place name.now (map (meanings.meaning (context_at table.now)) args.now) (calls.function_named (setting_at table.now) name.now) self.old) }
    {
        match table.function_named(name) {
            Some(number) => {
                let values = self.values(table, room, args)?;
                self.call_function(table, room, number, values.as_slice())
            }
            None => match builtin_named(name) {
                None => Err(self.stop()),
                Some(builtin) => self.builtin(table, room, place, builtin, args),
            },
        }
    }

    // A call of the function of a number.
    #[cycle(run)]
    #[tactic(auto, using(crate::proofs::Passing::passes, crate::proofs::Calling::call_again, crate::proofs::Calling::call_found))]
    fn call_function(
        &mut self,
        table: &Table,
        room: usize,
        number: usize,
        values: &[u32],
    ) -> Result<u32, Stop>
        ensures { Gives result self.new (threads.call_within table.now.calls (setting_at table.now) number values.now self.old) }
    {
        if table.calls == 0 {
            return Err(self.stop());
        }
        let within = Table {
            calls: table.calls - 1,
            ..*table
        };
        match table.function(number) {
            None => Err(self.stop()),
            Some(function) => self.call_body(&within, room, function, values),
        }
    }

    // A call of a function; it is a section if its name says so.
    #[cycle(run)]
    #[tactic(auto, using(crate::proofs::Passing::passes, crate::proofs::Calling::call_plain))]
    fn call_body(
        &mut self,
        table: &Table,
        room: usize,
        function: &Function,
        values: &[u32],
    ) -> Result<u32, Stop>
        ensures { Gives result self.new (threads.call_body (context_at table.now) function.now values.now self.old) }
    {
        if is_atomic(function) {
            self.begin_section()?;
            let v = self.body(table, room, function, values)?;
            self.end_section()?;
            return Ok(v);
        }
        self.body(table, room, function, values)
    }

    /// The body of a function, with its parameters as its only locals.
    #[cycle(run)]
    #[tactic(auto, using(crate::proofs::Passing::passes))]
    pub(crate) fn body(
        &mut self,
        table: &Table,
        room: usize,
        function: &Function,
        values: &[u32],
    ) -> Result<u32, Stop>
        ensures { Gives result self.new (threads.run_body (context_at table.now) function.now values.now self.old) }
    {
        let params = match parameters(self.alloc, function.params.as_slice(), values) {
            Ok(params) => params,
            Err(_) => return Err(Stop::OutOfMemory),
        };
        let outer = std::mem::replace(&mut self.locals, params);
        let flow = self.sequence(table, room, function.body.as_slice())?;
        self.locals = outer;
        Ok(result_of(flow))
    }

    // The cell that an argument names.
    #[cycle(run)]
    fn argument_cell(
        &mut self,
        table: &Table,
        room: usize,
        args: &[Expr],
        i: usize,
    ) -> Result<Slot, Stop>
        ensures { Gives result self.new ((calls.argument (map (meanings.meaning (context_at table.now)) args.now) i).find self.old) }
    {
        match at(args, i) {
            None => Err(self.stop()),
            Some(arg) => self.cell(table, room, arg),
        }
    }

    // The value of an argument.
    #[cycle(run)]
    fn argument(&mut self, table: &Table, room: usize, args: &[Expr], i: usize) -> Result<u32, Stop>
        ensures { Gives result self.new ((calls.argument (map (meanings.meaning (context_at table.now)) args.now) i).run self.old) }
    {
        match at(args, i) {
            None => Ok(0),
            Some(arg) => self.eval(table, room, arg),
        }
    }

    // A built-in call.
    #[cycle(run)]
    #[tactic(auto, using(crate::proofs::Passing::passes))]
    fn builtin(
        &mut self,
        table: &Table,
        room: usize,
        place: Place,
        builtin: Builtin,
        args: &[Expr],
    ) -> Result<u32, Stop>
        ensures { Gives result self.new (calls.builtin_call (setting_at table.now) place builtin (map (meanings.meaning (context_at table.now)) args.now) self.old) }
    {
        match builtin {
            Builtin::PthreadCreate => {
                let target = self.argument_cell(table, room, args, 0)?;
                let arg = self.argument(table, room, args, 3)?;
                let function = function_in(table, args, 2)?;
                self.create(table, target, function, arg)
            }
            Builtin::PthreadJoin => {
                let handle = self.argument(table, room, args, 0)?;
                self.join(handle)
            }
            Builtin::PthreadExit => {
                self.argument(table, room, args, 0)?;
                self.exit_thread()
            }
            Builtin::Exit => {
                self.argument(table, room, args, 0)?;
                Err(self.stop())
            }
            Builtin::Abort => Err(self.stop()),
            Builtin::Lock => {
                let mutex = self.argument_cell(table, room, args, 0)?;
                self.lock(mutex)?;
                Ok(0)
            }
            Builtin::Unlock => {
                let mutex = self.argument_cell(table, room, args, 0)?;
                self.unlock(mutex)?;
                Ok(0)
            }
            Builtin::Init => {
                let mutex = self.argument_cell(table, room, args, 0)?;
                self.unlock(mutex)?;
                Ok(0)
            }
            Builtin::Destroy => {
                self.argument_cell(table, room, args, 0)?;
                Ok(0)
            }
            Builtin::Assert => {
                if self.argument(table, room, args, 0)? == 0 {
                    return Err(fail(place));
                }
                Ok(0)
            }
            Builtin::Assume => {
                if self.argument(table, room, args, 0)? == 0 {
                    return Err(self.stop());
                }
                Ok(0)
            }
            Builtin::AssertFail => Err(fail(place)),
            Builtin::ReachError => Err(fail(place)),
            Builtin::AnyInt => self.take(Need::Any),
            Builtin::AnyUint => self.take(Need::Any),
            Builtin::AnyBool => self.any_bool(),
            Builtin::Begin => {
                self.begin_section()?;
                Ok(0)
            }
            Builtin::Finish => {
                self.end_section()?;
                Ok(0)
            }
            Builtin::Synchronize => {
                self.make(Action::Fence)?;
                Ok(0)
            }
        }
    }
}
