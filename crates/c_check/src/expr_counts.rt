// What an expression comes to.
ghost use Rattle.std.specs.Prelude.{◌≡◌, ◌≤◌, map, false};
ghost use Rattle.c_rules.specs.Routines as routines;
ghost use Rattle.c_check.specs.Counts as counts;
ghost use Rattle.c_check.specs.Capped.{capped_sums, table_named, expr_cost};

use crate::calls::{created_by, number_of};
use crate::counter::Counter;
use crate::counts::Counts;
use c_rules::{Scopes, Variable};
use c_tree::{AssignOp, BinaryOp, Expr};

/// An expression: one access to the variable that it is, if it is one; what its parts come to; whether it is a bare number.
#[derive(Clone, Copy, Drop)]
pub(crate) struct Cost {
    pub access: Counts,
    pub parts: Counts,
    pub bare: bool,
}

fn parts_only(parts: Counts) -> Cost
    ensures access { result.access ≡ counts.no_counts }
    ensures parts { result.parts ≡ parts }
    ensures bare { result.bare ≡ false }
{
    Cost {
        access: Counts::none(),
        parts,
        bare: false,
    }
}

// An expression in brackets or behind `&`.
fn not_bare(cost: Cost) -> Cost
    ensures access { result.access ≡ cost.access }
    ensures parts { result.parts ≡ cost.parts }
    ensures bare { result.bare ≡ false }
{
    Cost {
        access: cost.access,
        parts: cost.parts,
        bare: false,
    }
}

impl Cost {
    /// The value of an expression.
    pub(crate) fn reading(self) -> Counts
        ensures { result ≡ capped_sums.together self.access self.parts }
    {
        self.access.together(self.parts)
    }

    /// An expression whose variable is accessed so many times.
    fn accessing(self, count: u32) -> Counts
        ensures { result ≡ capped_sums.together (capped_sums.times count self.access) self.parts }
    {
        self.access.times(count).together(self.parts)
    }
}

// An access to a variable.
fn access_to(variable: Option<Variable>) -> Counts
    ensures { result ≡ counts.access_to capped_sums variable }
{
    match variable {
        None => Counts::none(),
        Some(variable) => access_by(variable.shared, variable.cells),
    }
}

fn access_by(shared: bool, cells: Option<u32>) -> Counts
    ensures { result ≡ counts.access_by capped_sums shared cells }
{
    match cells {
        None => {
            if shared {
                Counts::of_accesses(1)
            } else {
                Counts::none()
            }
        }
        Some(cells) => {
            if shared {
                Counts::of_accesses(cells)
            } else {
                Counts::of_weight(cells)
            }
        }
    }
}

fn shift_weight(bare: bool) -> u32
    ensures { result ≡ counts.shift_weight bare }
{
    if bare { 1 } else { 4 }
}

// An operator's weight, by whether its right operand is a bare number.
fn operator_weight(op: BinaryOp, bare: bool) -> u32
    ensures weight { result ≡ counts.operator_weight op bare }
    ensures small { result ≤ 32 }
{
    match op {
        BinaryOp::Times => 32,
        BinaryOp::Divide => 32,
        BinaryOp::Remainder => 32,
        BinaryOp::ShiftLeft => shift_weight(bare),
        BinaryOp::ShiftRight => shift_weight(bare),
        BinaryOp::LogicOr => 1,
        BinaryOp::LogicAnd => 1,
        BinaryOp::BitOr => 1,
        BinaryOp::BitXor => 1,
        BinaryOp::BitAnd => 1,
        BinaryOp::Equal => 1,
        BinaryOp::NotEqual => 1,
        BinaryOp::Less => 1,
        BinaryOp::Greater => 1,
        BinaryOp::AtMost => 1,
        BinaryOp::AtLeast => 1,
        BinaryOp::Plus => 1,
        BinaryOp::Minus => 1,
    }
}

fn assign_weight(op: AssignOp, bare: bool) -> u32
    ensures { result ≡ counts.assign_weight op bare }
{
    match op {
        AssignOp::Plain => 1,
        AssignOp::With(op) => 1 + operator_weight(op, bare),
    }
}

fn assign_accesses(op: AssignOp) -> u32
    ensures { result ≡ counts.assign_accesses op }
{
    match op {
        AssignOp::Plain => 1,
        AssignOp::With(_) => 2,
    }
}

// How often a call accesses the variable of its first argument.
fn first_accesses(name: &[u8]) -> u32
    ensures { result ≡ counts.first_accesses name.now }
{
    if b"pthread_mutex_lock".as_slice() == name {
        2
    } else if b"pthread_mutex_destroy".as_slice() == name {
        0
    } else {
        1
    }
}

impl<'a> Counter<'a> {
    // What the body of the function of a name comes to.
    pub(crate) fn body(&self, name: &[u8]) -> Counts
        ensures { result ≡ table_named self.now.items.now self.now.table.now name.now }
    {
        match number_of(self.items, name) {
            None => Counts::none(),
            Some(number) => match self.table.get(number) {
                None => Counts::none(),
                Some(counts) => *counts,
            },
        }
    }

    // The thread that a call makes.
    #[tactic(auto, using(crate::proofs::Namings::same_created))]
    fn thread(&self, scope: &Scopes, name: &[u8], args: &[Expr]) -> Counts
        ensures { result ≡ counts.thread_of capped_sums (table_named self.now.items.now self.now.table.now) (routines.created_by name.now (counts.cost_namings (map (expr_cost self.now.items.now self.now.table.now scope.now) args.now))) }
    {
        match created_by(name, args) {
            None => Counts::none(),
            Some(routine) => self.body(routine.as_slice()).new_thread(),
        }
    }

    /// What an expression comes to.
    #[cycle(cost)]
    pub(crate) fn cost(&self, scope: &Scopes, expr: &Expr) -> Cost
        ensures access { result.access ≡ (expr_cost self.now.items.now self.now.table.now scope.now expr.now).access }
        ensures parts { result.parts ≡ (expr_cost self.now.items.now self.now.table.now scope.now expr.now).parts }
        ensures bare { result.bare ≡ (expr_cost self.now.items.now self.now.table.now scope.now expr.now).bare }
    {
        match expr {
            Expr::Name { name, .. } => Cost {
                access: access_to(scope.variable(name.as_slice())),
                parts: Counts::none(),
                bare: false,
            },
            Expr::Number { .. } => Cost {
                access: Counts::none(),
                parts: Counts::none(),
                bare: true,
            },
            Expr::Text { .. } => parts_only(Counts::none()),
            Expr::Bracket { inner, .. } => not_bare(self.cost(scope, inner.get())),
            Expr::Index { name, index, .. } => Cost {
                access: access_to(scope.variable(name.as_slice())),
                parts: self.cost(scope, index.get()).reading(),
                bare: false,
            },
            Expr::Call { name, args, .. } => {
                let args = args.as_slice();
                let arguments = self.arguments(scope, first_accesses(name.as_slice()), args);
                let thread = self.thread(scope, name.as_slice(), args);
                let called = self.body(name.as_slice()).together(thread);
                parts_only(Counts::of_weight(1).together(arguments).together(called))
            }
            Expr::Cast { inner, .. } => parts_only(self.cost(scope, inner.get()).reading()),
            Expr::Unary { inner, .. } => {
                let operand = self.cost(scope, inner.get()).reading();
                parts_only(Counts::of_weight(1).together(operand))
            }
            Expr::StepBefore { target, .. } => {
                let target = self.cost(scope, target.get()).accessing(2);
                parts_only(Counts::of_weight(1).together(target))
            }
            Expr::StepAfter { target, .. } => {
                let target = self.cost(scope, target.get()).accessing(2);
                parts_only(Counts::of_weight(1).together(target))
            }
            Expr::Binary {
                op,
                left,
                right,
                ..
            } => {
                let left = self.cost(scope, left.get());
                let right = self.cost(scope, right.get());
                let weight = Counts::of_weight(operator_weight(*op, right.bare));
                parts_only(weight.together(left.reading().together(right.reading())))
            }
            Expr::Choose { test, yes, no, .. } => {
                let test = self.cost(scope, test.get()).reading();
                let yes = self.cost(scope, yes.get()).reading();
                let no = self.cost(scope, no.get()).reading();
                parts_only(Counts::of_weight(1).together(test.together(yes.together(no))))
            }
            Expr::Assign {
                op,
                target,
                value,
                ..
            } => {
                let target = self
                    .cost(scope, target.get())
                    .accessing(assign_accesses(*op));
                let value = self.cost(scope, value.get());
                let weight = Counts::of_weight(assign_weight(*op, value.bare));
                parts_only(weight.together(target.together(value.reading())))
            }
            Expr::Comma { left, right, .. } => {
                let left = self.cost(scope, left.get()).reading();
                let right = self.cost(scope, right.get()).reading();
                parts_only(left.together(right))
            }
            Expr::Address { target, .. } => not_bare(self.cost(scope, target.get())),
        }
    }

    // The arguments of a call; the variable of the first is accessed so many times.
    #[cycle(cost)]
    #[tactic(auto, using(crate::proofs::Adding::none_arguments, crate::proofs::Adding::next_argument, crate::proofs::Adding::next_whole, crate::proofs::Adding::none_none))]
    fn arguments(&self, scope: &Scopes, first: u32, args: &[Expr]) -> Counts
        ensures { result ≡ counts.arguments capped_sums first (map (expr_cost self.now.items.now self.now.table.now scope.now) args.now) }
    {
        let mut found = Counts::none();
        let mut count = first;
        for arg in args {
            let read = self.cost(scope, arg).accessing(count);
            found = found.together(Counts::of_weight(1).together(read));
            count = 1;
        }
        found
    }
}
