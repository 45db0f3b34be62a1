// The tree without condition variables.
ghost use Rattle.std.specs.Prelude.{◌≡◌, ◌≢◌, ◌∷◌, [], map, IfOk};
ghost use Rattle.c_tree.specs.declared.expr.Expr.{Expr};
ghost use Rattle.cond_lower.specs.Calls as calls;
ghost use Rattle.cond_lower.specs.Forms as forms;
ghost use Rattle.cond_lower.specs.Lowering as lowering;

use crate::arguments::cond_name;
use crate::calls::{CondCall, cond_call_named, is_cond};
use crate::fault::Wakeups;
use crate::names::{broadcast, enter, init, signal, take};
use crate::sections::{call_of, nought};
use c_tree::{AssignOp, BinaryOp, Expr, StepOp, TypeWord, UnaryOp};
use dg_base::{Bytes, List, Place};
use sqlite_items::Boxed;
use std::alloc::{AllocError, Global};

// A form with one part.
#[derive(Clone, Copy, Drop)]
enum Form {
    Bracket(Place),
    Cast(Place, TypeWord),
    Unary(Place, UnaryOp),
    StepBefore(Place, StepOp),
    StepAfter(Place, StepOp),
    Address(Place),
}

/// Makes the tree without condition variables.
#[derive(Clone, Copy, Drop)]
pub(crate) struct Lowering {
    pub(crate) alloc: Global,
    pub(crate) wakeups: Wakeups,
}

// A call without arguments.
fn bare_call(alloc: Global, place: Place, name: Bytes) -> Expr
    ensures { result ≡ lowering.call_of place name [] }
{
    call_of(place, name, List::new(alloc))
}

fn unlock(alloc: Global, place: Place, mutex: Expr) -> Result<Expr, AllocError>
    ensures { IfOk result (λ x. x ≡ lowering.unlock place mutex) }
{
    call_on(alloc, place, b"pthread_mutex_unlock", mutex)
}

fn lock(alloc: Global, place: Place, mutex: Expr) -> Result<Expr, AllocError>
    ensures { IfOk result (λ x. x ≡ lowering.lock place mutex) }
{
    call_on(alloc, place, b"pthread_mutex_lock", mutex)
}

// A call of this name with one argument.
fn call_on(alloc: Global, place: Place, name: &[u8], arg: Expr) -> Result<Expr, AllocError>
    ensures { IfOk result (λ x. x ≡ lowering.call_of place name.now (arg ∷ [])) }
{
    let mut args = List::new(alloc);
    args.push(arg)?;
    Ok(call_of(place, Bytes::from_slice(alloc, name)?, args))
}

fn comma(alloc: Global, place: Place, left: Expr, right: Expr) -> Result<Expr, AllocError>
    ensures { IfOk result (λ x. x ≡ lowering.comma place left right) }
{
    Ok(Expr::Comma {
        place,
        left: Boxed::new(alloc, left)?,
        right: Boxed::new(alloc, right)?,
    })
}

fn chosen(alloc: Global, place: Place, test: Expr, yes: Expr, no: Expr) -> Result<Expr, AllocError>
    ensures { IfOk result (λ x. x ≡ Expr.Choose place test yes no) }
{
    Ok(Expr::Choose {
        place,
        test: Boxed::new(alloc, test)?,
        yes: Boxed::new(alloc, yes)?,
        no: Boxed::new(alloc, no)?,
    })
}

impl Lowering {
    // The calls up to the one that takes a token.
    fn woken(&self, place: Place, cond: &[u8], mutex: Expr) -> Result<Expr, AllocError>
        ensures { IfOk result (λ x. x ≡ lowering.woken place cond.now mutex) }
    {
        let take = bare_call(self.alloc, place, take(self.alloc, cond)?);
        comma(self.alloc, place, self.left(place, cond, mutex)?, take)
    }

    // The calls up to the unlock.
    fn left(&self, place: Place, cond: &[u8], mutex: Expr) -> Result<Expr, AllocError>
        ensures { IfOk result (λ x. x ≡ lowering.left place cond.now mutex) }
    {
        let enter = bare_call(self.alloc, place, enter(self.alloc, cond)?);
        comma(self.alloc, place, enter, unlock(self.alloc, place, mutex)?)
    }

    // `pthread_cond_wait`, whose mutex is given two times.
    fn wait(&self, place: Place, cond: &[u8], mutex: Expr, again: Expr) -> Result<Expr, AllocError>
        requires { again ≡ mutex }
        ensures { IfOk result (λ x. x ≡ lowering.lowered_call self.now.wakeups place CondCall.Wait cond.now mutex) }
    {
        let lock = lock(self.alloc, place, again)?;
        match self.wakeups {
            Wakeups::Any => comma(self.alloc, place, unlock(self.alloc, place, mutex)?, lock),
            Wakeups::Signalled => comma(self.alloc, place, self.woken(place, cond, mutex)?, lock),
        }
    }

    // A call that is one section, or none where waits go on freely.
    fn section(&self, place: Place, call: CondCall, cond: &[u8]) -> Result<Expr, AllocError>
        requires { call ≢ CondCall.Wait }
        ensures { (m : Expr) → IfOk result (λ x. x ≡ lowering.lowered_call self.now.wakeups place call cond.now m) }
    {
        match (self.wakeups, call) {
            (Wakeups::Signalled, CondCall::Signal) => {
                Ok(bare_call(self.alloc, place, signal(self.alloc, cond)?))
            }
            (Wakeups::Signalled, CondCall::Broadcast) => {
                Ok(bare_call(self.alloc, place, broadcast(self.alloc, cond)?))
            }
            (Wakeups::Signalled, CondCall::Init) => {
                Ok(bare_call(self.alloc, place, init(self.alloc, cond)?))
            }
            _ => Ok(nought(place)),
        }
    }

    #[cycle(expr)]
    pub(crate) fn exprs(&self, exprs: &[Expr]) -> Result<List<Expr>, AllocError>
        ensures { IfOk result (λ xs. xs ≡ map (lowering.lower_expr self.now.wakeups) exprs.now) }
    {
        let mut list = List::new(self.alloc);
        for expr in exprs {
            list.push(self.expr(expr)?)?;
        }
        Ok(list)
    }

    // The second argument.
    #[cycle(expr)]
    fn second(&self, place: Place, args: &[Expr]) -> Result<Expr, AllocError>
        ensures { IfOk result (λ x. x ≡ lowering.second place (map (lowering.lower_expr self.now.wakeups) args.now)) }
    {
        match args {
            [_, second, ..] => self.expr(second),
            _ => Ok(nought(place)),
        }
    }

    #[cycle(expr)]
    fn cond_call(
        &self,
        place: Place,
        call: CondCall,
        cond: &[u8],
        args: &[Expr],
    ) -> Result<Expr, AllocError>
        ensures { IfOk result (λ x. x ≡ lowering.lowered_call self.now.wakeups place call cond.now (lowering.second place (map (lowering.lower_expr self.now.wakeups) args.now))) }
    {
        match call {
            CondCall::Wait => {
                let mutex = self.second(place, args)?;
                let again = self.second(place, args)?;
                self.wait(place, cond, mutex, again)
            }
            _ => self.section(place, call, cond),
        }
    }

    #[cycle(expr)]
    fn call(&self, place: Place, name: &Bytes, args: &[Expr]) -> Result<Expr, AllocError>
        ensures { IfOk result (λ x. x ≡ lowering.lower_call self.now.wakeups place name.now (calls.cond_call_named name.now) (map (lowering.lower_expr self.now.wakeups) args.now)) }
    {
        match cond_call_named(name.as_slice()) {
            None => {
                let name = Bytes::from_slice(self.alloc, name.as_slice())?;
                Ok(call_of(place, name, self.exprs(args)?))
            }
            Some(call) => self.cond_call(place, call, cond_name(args), args),
        }
    }

    #[cycle(expr)]
    fn index(&self, place: Place, name: &Bytes, index: &Expr) -> Result<Expr, AllocError>
        ensures { IfOk result (λ x. x ≡ Expr.Index place name.now (lowering.lower_expr self.now.wakeups index.now)) }
    {
        Ok(Expr::Index {
            place,
            name: Bytes::from_slice(self.alloc, name.as_slice())?,
            index: Boxed::new(self.alloc, self.expr(index)?)?,
        })
    }

    // The right operand, and then the whole.
    #[cycle(expr)]
    fn binary(
        &self,
        right: &Expr,
        place: Place,
        op: BinaryOp,
        left: Expr,
    ) -> Result<Expr, AllocError>
        ensures { IfOk result (λ x. x ≡ Expr.Binary place op left (lowering.lower_expr self.now.wakeups right.now)) }
    {
        let right = Boxed::new(self.alloc, self.expr(right)?)?;
        Ok(Expr::Binary {
            place,
            op,
            left: Boxed::new(self.alloc, left)?,
            right,
        })
    }

    // What stands behind a comma, and then the whole.
    #[cycle(expr)]
    fn comma(&self, right: &Expr, place: Place, left: Expr) -> Result<Expr, AllocError>
        ensures { IfOk result (λ x. x ≡ Expr.Comma place left (lowering.lower_expr self.now.wakeups right.now)) }
    {
        comma(self.alloc, place, left, self.expr(right)?)
    }

    // The value, and then the whole.
    #[cycle(expr)]
    fn assign(
        &self,
        value: &Expr,
        place: Place,
        op: AssignOp,
        target: Expr,
    ) -> Result<Expr, AllocError>
        ensures { IfOk result (λ x. x ≡ Expr.Assign place op target (lowering.lower_expr self.now.wakeups value.now)) }
    {
        let value = Boxed::new(self.alloc, self.expr(value)?)?;
        Ok(Expr::Assign {
            place,
            op,
            target: Boxed::new(self.alloc, target)?,
            value,
        })
    }

    // The last part, and then the whole.
    #[cycle(expr)]
    fn choose(&self, no: &Expr, place: Place, test: Expr, yes: Expr) -> Result<Expr, AllocError>
        ensures { IfOk result (λ x. x ≡ Expr.Choose place test yes (lowering.lower_expr self.now.wakeups no.now)) }
    {
        chosen(self.alloc, place, test, yes, self.expr(no)?)
    }

    // A form with one part.
    #[cycle(expr)]
    fn around(&self, form: Form, part: &Expr) -> Result<Expr, AllocError>
        ensures { IfOk result (λ x. x ≡ forms.around form (lowering.lower_expr self.now.wakeups part.now)) }
    {
        let part = Boxed::new(self.alloc, self.expr(part)?)?;
        Ok(match form {
            Form::Bracket(place) => Expr::Bracket { place, inner: part },
            Form::Cast(place, word) => Expr::Cast {
                place,
                word,
                inner: part,
            },
            Form::Unary(place, op) => Expr::Unary {
                place,
                op,
                inner: part,
            },
            Form::StepBefore(place, op) => Expr::StepBefore {
                place,
                op,
                target: part,
            },
            Form::StepAfter(place, op) => Expr::StepAfter {
                place,
                op,
                target: part,
            },
            Form::Address(place) => Expr::Address {
                place,
                target: part,
            },
        })
    }

    /// An expression without condition variables.
    #[cycle(expr)]
    pub(crate) fn expr(&self, expr: &Expr) -> Result<Expr, AllocError>
        ensures { IfOk result (λ x. x ≡ lowering.lower_expr self.now.wakeups expr.now) }
    {
        match expr {
            Expr::Name { place, name } => Ok(Expr::Name {
                place: *place,
                name: Bytes::from_slice(self.alloc, name.as_slice())?,
            }),
            Expr::Number {
                place,
                value,
                unsigned,
            } => Ok(Expr::Number {
                place: *place,
                value: *value,
                unsigned: *unsigned,
            }),
            Expr::Text { place } => Ok(Expr::Text { place: *place }),
            Expr::Bracket { place, inner } => self.around(Form::Bracket(*place), inner.get()),
            Expr::Index { place, name, index } => self.index(*place, name, index.get()),
            Expr::Call { place, name, args } => self.call(*place, name, args.as_slice()),
            Expr::Cast { place, word, inner } => self.around(
                Form::Cast(*place, *word),
                inner.get(),
            ),
            Expr::Unary { place, op, inner } => self.around(Form::Unary(*place, *op), inner.get()),
            Expr::StepBefore { place, op, target } => self.around(
                Form::StepBefore(*place, *op),
                target.get(),
            ),
            Expr::StepAfter { place, op, target } => self.around(
                Form::StepAfter(*place, *op),
                target.get(),
            ),
            Expr::Address { place, target } => self.around(Form::Address(*place), target.get()),
            Expr::Binary {
                place,
                op,
                left,
                right,
            } => {
                let left = self.expr(left.get())?;
                self.binary(right.get(), *place, *op, left)
            }
            Expr::Comma { place, left, right } => {
                let left = self.expr(left.get())?;
                self.comma(right.get(), *place, left)
            }
            Expr::Assign {
                place,
                op,
                target,
                value,
            } => {
                let target = self.expr(target.get())?;
                self.assign(value.get(), *place, *op, target)
            }
            Expr::Choose {
                place,
                test,
                yes,
                no,
            } => {
                let test = self.expr(test.get())?;
                let yes = self.expr(yes.get())?;
                self.choose(no.get(), *place, test, yes)
            }
        }
    }
}
