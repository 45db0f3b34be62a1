// The variables in scope.
ghost use Rattle.std.specs.Prelude.{◌≡◌, length, take};
ghost use Rattle.emit_steps.specs.Emitting.{Emits};
ghost use Rattle.emit_steps.specs.Calling as calling;

use crate::emitter::NONE;
use crate::state::{Emitter, Variable};
use c_tree::{Param, TypeWord};
use dg_base::{Bytes, OutOfMemory};
use run_model::word_unsigned;
use sqlite_items::at;

impl Emitter {
    /// The number of variables in scope.
    pub fn scope_size(&self) -> usize
        ensures { result ≡ length self.now.scope }
    {
        self.scope.len()
    }

    /// Only so many variables stay in scope, the outermost.
    pub fn leave_scope(&mut self, size: usize)
        ensures { self.new ≡ record self.old { scope = take size self.old.scope } }
    {
        self.scope.truncate(size);
    }

    /// Other variables are in scope. The answer is those that were.
    pub fn replace_scope(&mut self, scope: Vec<Variable>) -> Vec<Variable>
        ensures before { result.items ≡ self.old.scope }
        ensures behind { self.new ≡ record self.old { scope = scope.items } }
    {
        std::mem::replace(&mut self.scope, scope)
    }

    /// A variable comes into scope.
    pub fn enter(
        &mut self,
        word: TypeWord,
        name: &[u8],
        first: u32,
        count: u32,
    ) -> Result<(), OutOfMemory>
        ensures { Emits result self.new (calling.enter word name.now first count self.old) }
    {
        self.copy_name(name);
        self.scope.push(Variable {
            name: Bytes::from_slice(self.alloc, name)?,
            unsigned: word_unsigned(word),
            first,
            count,
        })?;
        Ok(())
    }

    // A parameter is a copy of its argument.
    fn parameter(&mut self, guard: u32, param: &Param, from: u32) -> Result<(), OutOfMemory>
        ensures { Emits result self.new (calling.parameter guard param.now from self.old) }
    {
        let local = self.copy(guard, from)?;
        self.enter(param.word, param.name.as_slice(), local, 1)
    }

    /// The parameters; each is a copy of the argument of its number.
    pub fn parameters(
        &mut self,
        guard: u32,
        params: &[Param],
        values: &[u32],
    ) -> Result<(), OutOfMemory>
        ensures { Emits result self.new (calling.parameters guard 0 params.now values.now self.old) }
    {
        for (i, param) in params.iter().enumerate() {
            let from = match at(values, i) {
                None => NONE,
                Some(from) => *from,
            };
            self.parameter(guard, param, from)?;
        }
        Ok(())
    }
}
