// Expressions and their operators.
ghost use Rattle.std.specs.Prelude.{◌≡◌};
ghost use Rattle.c_tree.specs.Level.{capped, expr_level, deepest_expr};

use dg_base::{Bytes, List, Place};
use sqlite_items::Boxed;

/// A type as it is spelled. Only `Int`, `Uint`, `VoidPointer` and `Thread` are types of values.
#[derive(Debug, Clone, Copy, PartialEq, Eq, Drop)]
pub enum TypeWord {
    /// `int`, `signed` or `signed int`.
    Int,
    /// `unsigned` or `unsigned int`.
    Uint,
    /// `void`.
    Void,
    /// `void *`.
    VoidPointer,
    /// `pthread_t`.
    Thread,
    /// `pthread_mutex_t`.
    Mutex,
    /// `pthread_cond_t`.
    Cond,
}

/// An operator before its operand.
#[derive(Debug, Clone, Copy, PartialEq, Eq, Drop)]
pub enum UnaryOp {
    /// `!`
    LogicNot,
    /// `~`
    BitNot,
    /// `-`
    Negate,
    /// `+`
    Plus,
}

/// `++` or `--`.
#[derive(Debug, Clone, Copy, PartialEq, Eq, Drop)]
pub enum StepOp {
    /// `++`
    Increment,
    /// `--`
    Decrement,
}

/// An operator between two operands, from the loosest to the tightest.
#[derive(Debug, Clone, Copy, PartialEq, Eq, Drop)]
pub enum BinaryOp {
    /// `||`
    LogicOr,
    /// `&&`
    LogicAnd,
    /// `|`
    BitOr,
    /// `^`
    BitXor,
    /// `&`
    BitAnd,
    /// `==`
    Equal,
    /// `!=`
    NotEqual,
    /// `<`
    Less,
    /// `>`
    Greater,
    /// `<=`
    AtMost,
    /// `>=`
    AtLeast,
    /// `<<`
    ShiftLeft,
    /// `>>`
    ShiftRight,
    /// `+`
    Plus,
    /// `-`
    Minus,
    /// `*`
    Times,
    /// `/`
    Divide,
    /// `%`
    Remainder,
}

/// The operator of an assignment.
#[derive(Debug, Clone, Copy, PartialEq, Eq, Drop)]
pub enum AssignOp {
    /// `=`
    Plain,
    /// An operator and `=`. The grammar has only the ten arithmetic and bitwise ones.
    With(BinaryOp),
}

/// An expression, or what stands only as an argument of a call: an address or a text.
///
/// The place of an operator is that of its token, and that of every other form the place of its first token. What can be
/// assigned to (`target`) is a `Name` or an `Index`, in any number of brackets; the grammar asks it where it matters.
#[derive(Drop)]
pub enum Expr {
    /// A variable, or a function where it stands as an argument.
    Name {
        /// The name's place.
        place: Place,
        /// The name.
        name: Bytes,
    },
    /// A number.
    Number {
        /// The number's place.
        place: Place,
        /// Its value.
        value: u32,
        /// Whether its type is Uint: it has a `u`, or exceeds 2147483647.
        unsigned: bool,
    },
    /// One text or more in a row, as one argument; what they say has no meaning.
    Text {
        /// The first text's place.
        place: Place,
    },
    /// `(inner)`
    Bracket {
        /// The place of the `(`.
        place: Place,
        /// What stands in the brackets.
        inner: Boxed<Expr>,
    },
    /// `name[index]`
    Index {
        /// The name's place.
        place: Place,
        /// The array's name.
        name: Bytes,
        /// The number of the cell.
        index: Boxed<Expr>,
    },
    /// `name(args)`
    Call {
        /// The name's place.
        place: Place,
        /// The function's name.
        name: Bytes,
        /// The arguments, in order.
        args: List<Expr>,
    },
    /// `(type) inner`
    Cast {
        /// The place of the `(`.
        place: Place,
        /// The type.
        word: TypeWord,
        /// What is converted.
        inner: Boxed<Expr>,
    },
    /// `! ~ - +` before an operand.
    Unary {
        /// The operator's place.
        place: Place,
        /// The operator.
        op: UnaryOp,
        /// The operand.
        inner: Boxed<Expr>,
    },
    /// `++` or `--` before its target: the value is the new one.
    StepBefore {
        /// The operator's place.
        place: Place,
        /// The operator.
        op: StepOp,
        /// What is changed.
        target: Boxed<Expr>,
    },
    /// `++` or `--` behind its target: the value is the old one.
    StepAfter {
        /// The operator's place.
        place: Place,
        /// The operator.
        op: StepOp,
        /// What is changed.
        target: Boxed<Expr>,
    },
    /// An operator between two operands.
    Binary {
        /// The operator's place.
        place: Place,
        /// The operator.
        op: BinaryOp,
        /// The left operand.
        left: Boxed<Expr>,
        /// The right operand.
        right: Boxed<Expr>,
    },
    /// `test ? yes : no`
    Choose {
        /// The place of the `?`.
        place: Place,
        /// What is tested.
        test: Boxed<Expr>,
        /// The value where the test holds.
        yes: Boxed<Expr>,
        /// The value where it does not.
        no: Boxed<Expr>,
    },
    /// An assignment.
    Assign {
        /// The operator's place.
        place: Place,
        /// The operator.
        op: AssignOp,
        /// What is assigned to.
        target: Boxed<Expr>,
        /// The right side.
        value: Boxed<Expr>,
    },
    /// `left, right`; more commas group to the left.
    Comma {
        /// The comma's place.
        place: Place,
        /// What is evaluated first; its value is dropped.
        left: Boxed<Expr>,
        /// What gives the value.
        right: Boxed<Expr>,
    },
    /// `&target`
    Address {
        /// The place of the `&`.
        place: Place,
        /// What it is the address of.
        target: Boxed<Expr>,
    },
}

impl Expr {
    /// The number of nodes with children on the longest way down: 0 for a name, a number and a text. A number above
    /// 4294967295 is given as that number.
    #[cycle(expr_level)]
    pub fn level(&self) -> u32
        ensures { result ≡ capped (expr_level self.now) }
    {
        match self {
            Expr::Name { .. } | Expr::Number { .. } | Expr::Text { .. } => 0,
            Expr::Bracket { inner, .. }
            | Expr::Index { index: inner, .. }
            | Expr::Cast { inner, .. }
            | Expr::Unary { inner, .. }
            | Expr::StepBefore { target: inner, .. }
            | Expr::StepAfter { target: inner, .. }
            | Expr::Address { target: inner, .. } => inner.get().level().saturating_add(1),
            Expr::Call { args, .. } => deepest(args.as_slice()).saturating_add(1),
            Expr::Binary { left, right, .. }
            | Expr::Comma { left, right, .. }
            | Expr::Assign {
                target: left,
                value: right,
                ..
            } => {
                left.get()
                    .level()
                    .max(right.get().level())
                    .saturating_add(1)
            }
            Expr::Choose { test, yes, no, .. } => test
                .get()
                .level()
                .max(yes.get().level().max(no.get().level()))
                .saturating_add(1),
        }
    }
}

// The greatest level of these expressions.
#[cycle(expr_level)]
pub(crate) fn deepest(exprs: &[Expr]) -> u32
    ensures { result ≡ capped (deepest_expr exprs.now) }
{
    let mut most = 0;
    for expr in exprs {
        most = most.max(expr.level());
    }
    most
}
