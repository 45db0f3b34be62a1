// The operators on values of 32 bits.
ghost use Rattle.std.specs.Prelude.{◌≡◌, length};
ghost use Rattle.dg_base.specs.Values.{Arithmetic, Bits, Division, Logic, OrderInt, OrderUint, Shift, arity, group, quotient_int, remainder_int, shift_right_int, truth_of, value_of};

/// The operators on values of 32 bits; `Int` and `Uint` are apart where their values differ.
#[derive(Debug, Clone, Copy, PartialEq, Eq, Drop)]
pub enum Op {
    Plus,
    Minus,
    Times,
    Negate,
    UnaryPlus,
    DivideInt,
    DivideUint,
    RemainderInt,
    RemainderUint,
    ShiftLeft,
    ShiftRightInt,
    ShiftRightUint,
    LessInt,
    LessUint,
    AtMostInt,
    AtMostUint,
    GreaterInt,
    GreaterUint,
    AtLeastInt,
    AtLeastUint,
    Equal,
    NotEqual,
    BitAnd,
    BitOr,
    BitXor,
    BitNot,
    LogicNot,
    LogicAnd,
    LogicOr,
    Choose,
}

fn truth(b: bool) -> u32
    ensures { result ≡ truth_of b }
{
    if b { 1 } else { 0 }
}

/// The operator's value of its arguments.
pub fn apply(op: Op, args: &[u32]) -> u32
    requires { length args.now ≡ arity op }
    ensures { result ≡ value_of op args.now }
{
    match op {
        Op::Plus | Op::Minus | Op::Times | Op::Negate | Op::UnaryPlus => arithmetic(op, args),
        Op::DivideInt | Op::DivideUint | Op::RemainderInt | Op::RemainderUint => division(op, args),
        Op::ShiftLeft | Op::ShiftRightInt | Op::ShiftRightUint => shift(op, args),
        Op::LessInt | Op::AtMostInt | Op::GreaterInt | Op::AtLeastInt => order_int(op, args),
        Op::LessUint | Op::AtMostUint | Op::GreaterUint | Op::AtLeastUint => order_uint(op, args),
        Op::Equal | Op::NotEqual | Op::BitAnd | Op::BitOr | Op::BitXor | Op::BitNot => {
            bits(op, args)
        }
        Op::LogicNot | Op::LogicAnd | Op::LogicOr | Op::Choose => logic(op, args),
    }
}

fn arithmetic(op: Op, args: &[u32]) -> u32
    requires arguments { length args.now ≡ arity op }
    requires kind { group op ≡ Arithmetic }
    ensures { result ≡ value_of op args.now }
{
    match op {
        Op::Plus => args[0].wrapping_add(args[1]),
        Op::Minus => args[0].wrapping_sub(args[1]),
        Op::Times => args[0].wrapping_mul(args[1]),
        Op::Negate => 0u32.wrapping_sub(args[0]),
        Op::UnaryPlus => args[0],
        _ => 0,
    }
}

fn division(op: Op, args: &[u32]) -> u32
    requires arguments { length args.now ≡ arity op }
    requires kind { group op ≡ Division }
    ensures { result ≡ value_of op args.now }
{
    match op {
        Op::DivideInt => divide_int(args[0], args[1]),
        Op::DivideUint => { if args[1] == 0 { 0 } else { args[0] / args[1] } }
        Op::RemainderInt => signed_remainder(args[0], args[1]),
        Op::RemainderUint => { if args[1] == 0 { 0 } else { args[0] % args[1] } }
        _ => 0,
    }
}

fn shift(op: Op, args: &[u32]) -> u32
    requires arguments { length args.now ≡ arity op }
    requires kind { group op ≡ Shift }
    ensures { result ≡ value_of op args.now }
{
    match op {
        Op::ShiftLeft => args[0].wrapping_shl(args[1]),
        Op::ShiftRightInt => arithmetic_shift_right(args[0], args[1]),
        Op::ShiftRightUint => args[0].wrapping_shr(args[1]),
        _ => 0,
    }
}

fn order_int(op: Op, args: &[u32]) -> u32
    requires arguments { length args.now ≡ arity op }
    requires kind { group op ≡ OrderInt }
    ensures { result ≡ value_of op args.now }
{
    match op {
        Op::LessInt => truth(args[0].cast_signed() < args[1].cast_signed()),
        Op::AtMostInt => truth(args[0].cast_signed() <= args[1].cast_signed()),
        Op::GreaterInt => truth(args[1].cast_signed() < args[0].cast_signed()),
        Op::AtLeastInt => truth(args[1].cast_signed() <= args[0].cast_signed()),
        _ => 0,
    }
}

fn order_uint(op: Op, args: &[u32]) -> u32
    requires arguments { length args.now ≡ arity op }
    requires kind { group op ≡ OrderUint }
    ensures { result ≡ value_of op args.now }
{
    match op {
        Op::LessUint => truth(args[0] < args[1]),
        Op::AtMostUint => truth(args[0] <= args[1]),
        Op::GreaterUint => truth(args[1] < args[0]),
        Op::AtLeastUint => truth(args[1] <= args[0]),
        _ => 0,
    }
}

fn bits(op: Op, args: &[u32]) -> u32
    requires arguments { length args.now ≡ arity op }
    requires kind { group op ≡ Bits }
    ensures { result ≡ value_of op args.now }
{
    match op {
        Op::Equal => truth(args[0] == args[1]),
        Op::NotEqual => truth(args[0] != args[1]),
        Op::BitAnd => args[0] & args[1],
        Op::BitOr => args[0] | args[1],
        Op::BitXor => args[0] ^ args[1],
        Op::BitNot => !args[0],
        _ => 0,
    }
}

fn logic(op: Op, args: &[u32]) -> u32
    requires arguments { length args.now ≡ arity op }
    requires kind { group op ≡ Logic }
    ensures { result ≡ value_of op args.now }
{
    match op {
        Op::LogicNot => truth(args[0] == 0),
        Op::LogicAnd => truth(args[0] != 0 && args[1] != 0),
        Op::LogicOr => truth(args[0] != 0 || args[1] != 0),
        Op::Choose => { if args[0] == 0 { args[2] } else { args[1] } }
        _ => 0,
    }
}

fn divide_int(a: u32, b: u32) -> u32
    ensures { result ≡ quotient_int a b }
{
    if b == 0 {
        0
    } else {
        a.cast_signed()
            .wrapping_div(b.cast_signed())
            .cast_unsigned()
    }
}

fn signed_remainder(a: u32, b: u32) -> u32
    ensures { result ≡ remainder_int a b }
{
    if b == 0 {
        0
    } else {
        a.cast_signed()
            .wrapping_rem(b.cast_signed())
            .cast_unsigned()
    }
}

fn arithmetic_shift_right(a: u32, b: u32) -> u32
    ensures { result ≡ shift_right_int a b }
{
    a.cast_signed().wrapping_shr(b).cast_unsigned()
}
