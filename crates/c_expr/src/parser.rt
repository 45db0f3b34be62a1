// The parser: one step for each token.
ghost use Rattle.std.specs.Prelude.{◌≡◌, ◌≤◌, ◌-◌, [], ◌∷◌, true, suc, nat_le, IfOk, IfErr, length, reverse};
ghost use Rattle.c_expr.specs.Machine as machine;
ghost use Rattle.c_expr.specs.Parser as spec;
ghost use Rattle.c_expr.specs.Words.{word_of};

use crate::form::ExprForm;
use crate::frame::{Frame, Opening, Reading, Stepped};
use crate::number::number;
use crate::stack::{
    called, close, filled, finish, finish_name, finish_tree, has_room, is_lvalue, push, push_over,
    tier, wants,
};
use crate::tops::{
    Call, calls, pop_address, pop_bracket, pop_call, pop_index, pop_target, pop_test,
};
use crate::type_words::{first_word, grown, may_grow};
use crate::word::{TypeName, Word, word_of};
use c_tree::{AssignOp, BinaryOp, Expr, StepOp, TypeWord, UnaryOp};
use dg_base::{Bytes, List, Place, Refusal};
use sqlite_items::Boxed;
use std::alloc::{AllocError, Global};
use token_list::{Token, Tokens};

/// What does not change during a run: the allocator, the level of the form, and how many nodes may lie on one way down.
#[derive(Clone, Copy)]
struct Limits {
    alloc: Global,
    form: u32,
    room: u32,
}

fn stop() -> Result<Stepped, AllocError>
    ensures { result ≡ Ok (Stepped.Stop None) }
{
    Ok(Stepped::Stop(None))
}

// An operand that is whole.
fn read(limits: Limits, tree: Expr) -> Result<Stepped, AllocError>
    ensures { IfOk result (λ r. r ≡ Stepped.Go (Reading.Read tree)) }
{
    Ok(Stepped::Go(Reading::Read(Boxed::new(limits.alloc, tree)?)))
}

// The node of the frame, with its last part.
fn read_filled(limits: Limits, frame: Frame, tree: Boxed<Expr>) -> Result<Stepped, AllocError>
    ensures { IfOk result (λ r. r ≡ Stepped.Go (Reading.Read (machine.filled frame tree))) }
{
    Ok(Stepped::Go(Reading::Read(filled(limits.alloc, frame, tree)?)))
}

// Whether no target is wanted.
fn wants_value(limits: Limits, stack: &List<Frame>) -> bool
    ensures { result ≡ nat_le (machine.wants limits.form (reverse stack.now)) 13 }
{
    wants(limits.form, stack.as_slice()) <= 13
}

// A sign where an operand is to come.
fn signed(
    limits: Limits,
    place: Place,
    op: UnaryOp,
    stack: &mut List<Frame>,
) -> Result<Stepped, AllocError>
    ensures { IfOk result (λ r. spec.StepGives r stack.new (machine.signed limits.form limits.room place (reverse stack.old) (Some op)) (machine.Want (reverse stack.old))) }
{
    if wants_value(limits, stack) {
        push(limits.room, stack, Frame::AfterSign(place, op))
    } else {
        stop()
    }
}

// An operator between operands where an operand is to come.
fn operator_first(
    limits: Limits,
    place: Place,
    op: BinaryOp,
    stack: &mut List<Frame>,
) -> Result<Stepped, AllocError>
    ensures { IfOk result (λ r. spec.StepGives r stack.new (machine.operator_first limits.form limits.room place (reverse stack.old) op) (machine.Want (reverse stack.old))) }
{
    match op {
        BinaryOp::BitAnd if calls(stack.as_slice()) => {
            push(limits.room, stack, Frame::AfterAddress(place))
        }
        BinaryOp::Plus => signed(limits, place, UnaryOp::Plus, stack),
        BinaryOp::Minus => signed(limits, place, UnaryOp::Negate, stack),
        _ => stop(),
    }
}

// A `)` where an operand is to come: a call has no arguments.
fn no_arguments(limits: Limits, stack: &mut List<Frame>) -> Result<Stepped, AllocError>
    ensures { IfOk result (λ r. spec.StepGives r stack.new (machine.no_arguments (reverse stack.old)) (machine.Want (reverse stack.old))) }
{
    match pop_call(stack) {
        Some(Call { place, name, args }) if args.is_empty() => {
            read(limits, Expr::Call { place, name, args })
        }
        _ => stop(),
    }
}

// A word of a type where an operand is to come: a cast, behind the `(` of a bracket.
fn typed(name: TypeName, stack: &mut List<Frame>) -> Result<Stepped, AllocError>
    ensures { IfOk result (λ r. spec.StepGives r stack.new (machine.typed name (reverse stack.old)) (machine.Want (reverse stack.old))) }
{
    match pop_bracket(stack) {
        None => stop(),
        Some(place) => Ok(Stepped::Go(Reading::Type(place, first_word(name), may_grow(name)))),
    }
}

// A name where an operand is to come.
fn named_first(limits: Limits, token: &Token) -> Result<Stepped, AllocError>
    ensures { IfOk result (λ r. r ≡ Stepped.Go (Reading.Name token.now.place token.now.text)) }
{
    let name = Bytes::from_slice(limits.alloc, token.text.as_slice())?;
    Ok(Stepped::Go(Reading::Name(token.place, name)))
}

// A token where an operand is to come.
fn start(limits: Limits, token: &Token, stack: &mut List<Frame>) -> Result<Stepped, AllocError>
    ensures { IfOk result (λ r. spec.StepGives r stack.new (machine.start limits.form limits.room (word_of token.now) token.now (reverse stack.old)) (machine.Want (reverse stack.old))) }
{
    let place = token.place;
    match word_of(token) {
        Word::Name => named_first(limits, token),
        Word::Number if wants_value(limits, stack) => {
            let (value, unsigned) = number(token.text.as_slice());
            read(
                limits,
                Expr::Number {
                    place,
                    value,
                    unsigned,
                },
            )
        }
        Word::Text if calls(stack.as_slice()) => Ok(Stepped::Go(Reading::Texts(place))),
        Word::Left if wants_value(limits, stack) => {
            push(limits.room, stack, Frame::InBracket(place))
        }
        Word::Left => push(limits.room, stack, Frame::InTarget(place)),
        Word::Right => no_arguments(limits, stack),
        Word::Sign(op) => signed(limits, place, op, stack),
        Word::Step(op) if wants_value(limits, stack) => {
            push(limits.room, stack, Frame::AfterStep(place, op))
        }
        Word::Binary(op) => operator_first(limits, place, op, stack),
        Word::Type(name) => typed(name, stack),
        _ => stop(),
    }
}

// A `,` behind an argument.
fn next_argument(tree: Boxed<Expr>, stack: &mut List<Frame>) -> Result<Stepped, AllocError>
    ensures { IfOk result (λ r. spec.StepGives r stack.new (machine.next_argument tree (reverse stack.old)) (machine.Want [])) }
{
    match pop_call(stack) {
        None => stop(),
        Some(call) => push_argument(call, tree, stack),
    }
}

// Puts the call back, with one argument more.
fn push_argument(
    mut call: Call,
    tree: Boxed<Expr>,
    stack: &mut List<Frame>,
) -> Result<Stepped, AllocError>
    ensures { IfOk result (λ r. spec.StepGives r stack.new (machine.next_argument tree (Frame.InCall call.place call.name call.args ∷ reverse stack.old)) (machine.Want [])) }
{
    call.args.push(tree.into_inner())?;
    stack.push(Frame::InCall(call.place, call.name, call.args))?;
    Ok(Stepped::Go(Reading::Operand))
}

// A `,` behind an expression that is whole before it: behind an address, behind another argument, or as the operator.
fn comma(
    limits: Limits,
    place: Place,
    tree: Boxed<Expr>,
    stack: &mut List<Frame>,
) -> Result<Stepped, AllocError>
    ensures { IfOk result (λ r. spec.StepGives r stack.new (machine.comma limits.form limits.room place tree (reverse stack.old)) (machine.Have tree (reverse stack.old))) }
{
    match pop_address(stack) {
        Some(place) => next_argument(
            filled(limits.alloc, Frame::AfterAddress(place), tree)?,
            stack,
        ),
        None if calls(stack.as_slice()) => next_argument(tree, stack),
        None => push_over(
            limits.alloc,
            limits.form,
            limits.room,
            0,
            Opening::Comma,
            place,
            tree,
            stack,
        ),
    }
}

// A `)` behind a call's last argument.
fn last_argument(
    limits: Limits,
    tree: Boxed<Expr>,
    stack: &mut List<Frame>,
) -> Result<Stepped, AllocError>
    ensures { IfOk result (λ r. spec.StepGives r stack.new (machine.last_argument tree (reverse stack.old)) (machine.Want [])) }
{
    match pop_call(stack) {
        None => stop(),
        Some(call) => read(limits, called(call, tree)?),
    }
}

// A `)` behind an expression that is whole before it: behind an address, or at the end of a bracket or of a call.
fn right(limits: Limits, tree: Boxed<Expr>, stack: &mut List<Frame>) -> Result<Stepped, AllocError>
    ensures { IfOk result (λ r. spec.StepGives r stack.new (machine.right tree (reverse stack.old)) (machine.Have tree (reverse stack.old))) }
{
    if let Some(place) = pop_address(stack) {
        let tree = filled(limits.alloc, Frame::AfterAddress(place), tree)?;
        return last_argument(limits, tree, stack);
    }
    if let Some(place) = pop_bracket(stack) {
        return read_filled(limits, Frame::InBracket(place), tree);
    }
    if let Some(place) = pop_target(stack) {
        return read_filled(limits, Frame::InTarget(place), tree);
    }
    if calls(stack.as_slice()) {
        last_argument(limits, tree, stack)
    } else {
        Ok(Stepped::Stop(finish_tree(limits.alloc, tree, stack)?))
    }
}

// A `]` behind an expression that is whole before it.
fn right_square(
    limits: Limits,
    tree: Boxed<Expr>,
    stack: &mut List<Frame>,
) -> Result<Stepped, AllocError>
    ensures { IfOk result (λ r. spec.StepGives r stack.new (machine.right_square tree (reverse stack.old)) (machine.Have tree (reverse stack.old))) }
{
    if !matches!(stack.as_slice().last(), Some(Frame::InIndex(_, _))) {
        return Ok(Stepped::Stop(finish_tree(limits.alloc, tree, stack)?));
    }
    match pop_index(stack) {
        None => stop(),
        Some((place, name)) => read_filled(limits, Frame::InIndex(place, name), tree),
    }
}

// A `:` behind an expression that is whole before it.
fn colon(limits: Limits, tree: Boxed<Expr>, stack: &mut List<Frame>) -> Result<Stepped, AllocError>
    ensures { IfOk result (λ r. spec.StepGives r stack.new (machine.colon tree (reverse stack.old)) (machine.Have tree (reverse stack.old))) }
{
    if !matches!(stack.as_slice().last(), Some(Frame::AfterTest(_, _))) {
        return Ok(Stepped::Stop(finish_tree(limits.alloc, tree, stack)?));
    }
    match pop_test(stack) {
        None => stop(),
        Some((place, test)) => {
            stack.push(Frame::AfterChoice(place, test, tree))?;
            Ok(Stepped::Go(Reading::Operand))
        }
    }
}

// `++` or `--` behind an operand.
fn step_behind(
    limits: Limits,
    place: Place,
    op: StepOp,
    tree: Boxed<Expr>,
    stack: &mut List<Frame>,
) -> Result<Stepped, AllocError>
    ensures { IfOk result (λ r. spec.StepGives r stack.new (machine.step_behind limits.form limits.room place op tree (reverse stack.old)) (machine.Have tree (reverse stack.old))) }
{
    if is_lvalue(tree.get())
        && wants_value(limits, stack)
        && has_room(limits.room, tree.get(), stack)
    {
        read(
            limits,
            Expr::StepAfter {
                place,
                op,
                target: tree,
            },
        )
    } else {
        Ok(Stepped::Stop(finish_tree(limits.alloc, tree, stack)?))
    }
}

// The operator of an assignment behind an operand.
fn assign(
    limits: Limits,
    place: Place,
    op: AssignOp,
    tree: Boxed<Expr>,
    stack: &mut List<Frame>,
) -> Result<Stepped, AllocError>
    ensures { IfOk result (λ r. spec.StepGives r stack.new (machine.assign limits.form limits.room place op tree (reverse stack.old)) (machine.Have tree (reverse stack.old))) }
{
    if is_lvalue(tree.get()) {
        push_over(
            limits.alloc,
            limits.form,
            limits.room,
            1,
            Opening::Assign(op),
            place,
            tree,
            stack,
        )
    } else {
        Ok(Stepped::Stop(finish_tree(limits.alloc, tree, stack)?))
    }
}

// An operator behind what is whole before it.
fn operator(
    limits: Limits,
    closing: u32,
    level: u32,
    opening: Opening,
    place: Place,
    tree: Boxed<Expr>,
    stack: &mut List<Frame>,
) -> Result<Stepped, AllocError>
    ensures { IfOk result (λ r. spec.StepGives r stack.new (machine.over limits.form limits.room level (machine.close closing tree (reverse stack.old)) (spec.opened opening place)) (machine.Have tree (reverse stack.old))) }
{
    let closed = close(limits.alloc, closing, tree, stack)?;
    push_over(
        limits.alloc,
        limits.form,
        limits.room,
        level,
        opening,
        place,
        closed,
        stack,
    )
}

// A closing token, or a comma, behind an operand.
fn closing(
    limits: Limits,
    word: Word,
    place: Place,
    tree: Boxed<Expr>,
    stack: &mut List<Frame>,
) -> Result<Stepped, AllocError>
    requires { machine.shuts word ≡ true }
    ensures { IfOk result (λ r. spec.StepGives r stack.new (machine.extend limits.form limits.room word place tree (reverse stack.old)) (machine.Have tree (reverse stack.old))) }
{
    let closed = close(limits.alloc, 0, tree, stack)?;
    behind_closed(limits, word, place, closed, stack)
}

// A closing token, or a comma, behind an expression that is whole before it.
fn behind_closed(
    limits: Limits,
    word: Word,
    place: Place,
    tree: Boxed<Expr>,
    stack: &mut List<Frame>,
) -> Result<Stepped, AllocError>
    requires { machine.shuts word ≡ true }
    ensures { IfOk result (λ r. spec.StepGives r stack.new (machine.behind_closed limits.form limits.room word place tree (reverse stack.old)) (machine.Have tree (reverse stack.old))) }
{
    match word {
        Word::Right => right(limits, tree, stack),
        Word::RightSquare => right_square(limits, tree, stack),
        Word::Comma => comma(limits, place, tree, stack),
        _ => colon(limits, tree, stack),
    }
}

// A token behind an operand.
fn extend(
    limits: Limits,
    word: Word,
    place: Place,
    tree: Boxed<Expr>,
    stack: &mut List<Frame>,
) -> Result<Stepped, AllocError>
    ensures { IfOk result (λ r. spec.StepGives r stack.new (machine.extend limits.form limits.room word place tree (reverse stack.old)) (machine.Have tree (reverse stack.old))) }
{
    match word {
        Word::Right | Word::RightSquare | Word::Comma | Word::Colon => {
            closing(limits, word, place, tree, stack)
        }
        Word::Ask => operator(limits, 3, 2, Opening::Test, place, tree, stack),
        Word::Step(op) => step_behind(limits, place, op, tree, stack),
        Word::Binary(op) => {
            let tier = tier(op);
            operator(
                limits,
                tier,
                tier,
                Opening::Operator(op),
                place,
                tree,
                stack,
            )
        }
        Word::Assign(op) => assign(limits, place, op, tree, stack),
        _ => Ok(Stepped::Stop(finish_tree(limits.alloc, tree, stack)?)),
    }
}

// A token behind a name.
fn named(
    limits: Limits,
    token: &Token,
    place: Place,
    name: Bytes,
    stack: &mut List<Frame>,
) -> Result<Stepped, AllocError>
    ensures { IfOk result (λ r. spec.StepGives r stack.new (machine.named limits.form limits.room (word_of token.now) token.now.place place name (reverse stack.old)) (machine.Named place name (reverse stack.old))) }
{
    match word_of(token) {
        Word::LeftSquare => open_index(limits, place, name, stack),
        Word::Left => open_call(limits, place, name, stack),
        word => {
            let tree = Boxed::new(limits.alloc, Expr::Name { place, name })?;
            extend(limits, word, token.place, tree, stack)
        }
    }
}

// Whether the stack has room for one node more.
fn has_room_above(limits: Limits, stack: &List<Frame>) -> bool
    ensures { result ≡ nat_le (suc (length (reverse stack.now))) limits.room }
{
    (stack.len() as u64) < u64::from(limits.room)
}

// A `[` behind a name.
fn open_index(
    limits: Limits,
    place: Place,
    name: Bytes,
    stack: &mut List<Frame>,
) -> Result<Stepped, AllocError>
    ensures { IfOk result (λ r. spec.StepGives r stack.new (machine.pushed limits.room (reverse stack.old) (Frame.InIndex place name)) (machine.Named place name (reverse stack.old))) }
{
    if has_room_above(limits, stack) {
        stack.push(Frame::InIndex(place, name))?;
        Ok(Stepped::Go(Reading::Operand))
    } else {
        Ok(Stepped::Stop(finish_name(limits.alloc, place, name, stack)?))
    }
}

// A `(` behind a name.
fn open_call(
    limits: Limits,
    place: Place,
    name: Bytes,
    stack: &mut List<Frame>,
) -> Result<Stepped, AllocError>
    ensures { IfOk result (λ r. spec.StepGives r stack.new (machine.if_so (nat_le (machine.wants limits.form (reverse stack.old)) 13) (machine.pushed limits.room (reverse stack.old) (Frame.InCall place name []))) (machine.Named place name (reverse stack.old))) }
{
    if wants_value(limits, stack) && has_room_above(limits, stack) {
        stack.push(Frame::InCall(place, name, List::new(limits.alloc)))?;
        Ok(Stepped::Go(Reading::Operand))
    } else {
        Ok(Stepped::Stop(finish_name(limits.alloc, place, name, stack)?))
    }
}

// A token behind an argument's texts.
fn behind_texts(
    limits: Limits,
    word: Word,
    place: Place,
    stack: &mut List<Frame>,
) -> Result<Stepped, AllocError>
    ensures { IfOk result (λ r. spec.StepGives r stack.new (machine.behind_texts word place (reverse stack.old)) (machine.Texts place (reverse stack.old))) }
{
    match word {
        Word::Text => Ok(Stepped::Go(Reading::Texts(place))),
        Word::Comma => next_argument(Boxed::new(limits.alloc, Expr::Text { place })?, stack),
        Word::Right => last_argument(
            limits,
            Boxed::new(limits.alloc, Expr::Text { place })?,
            stack,
        ),
        _ => stop(),
    }
}

// A token behind words of a type.
fn behind_type(
    word: Word,
    place: Place,
    kind: TypeWord,
    more: bool,
    stack: &mut List<Frame>,
) -> Result<Stepped, AllocError>
    ensures { IfOk result (λ r. spec.StepGives r stack.new (machine.behind_type word place kind more (reverse stack.old)) (machine.Typed place kind more (reverse stack.old))) }
{
    if matches!(word, Word::Right) {
        stack.push(Frame::AfterCast(place, kind))?;
        return Ok(Stepped::Go(Reading::Operand));
    }
    match grown(word, kind) {
        Some(kind) if more => Ok(Stepped::Go(Reading::Type(place, kind, false))),
        _ => stop(),
    }
}

// One token.
fn step(
    limits: Limits,
    token: &Token,
    reading: Reading,
    stack: &mut List<Frame>,
) -> Result<Stepped, AllocError>
    ensures { IfOk result (λ r. spec.StepGives r stack.new (machine.step limits.form limits.room token.now (spec.seen reading stack.old)) (spec.seen reading stack.old)) }
{
    match reading {
        Reading::Operand => start(limits, token, stack),
        Reading::Name(place, name) => named(limits, token, place, name, stack),
        Reading::Read(tree) => extend(limits, word_of(token), token.place, tree, stack),
        Reading::Texts(place) => behind_texts(limits, word_of(token), place, stack),
        Reading::Type(place, kind, more) => behind_type(word_of(token), place, kind, more, stack),
    }
}

/// Reads the expression of this form that begins at token number `at`, below `above` nodes: its tree, and the number of
/// the token behind it.
///
/// The expression is the longest run of tokens with which a text of the form begins, and at most 200 nodes with children
/// lie on one way down, those above among them. The time is linear in the tokens.
pub fn expr(
    alloc: Global,
    tokens: &Tokens,
    at: u32,
    above: u32,
    form: ExprForm,
) -> Result<(Expr, u32), Refusal>
    requires inside { at ≤ length tokens.now.list }
    requires room { above ≤ 200 }
    ensures found { IfOk result (λ r. spec.Finds (spec.form_level form) (200 - above) tokens.now at r.0 r.1) }
    ensures refused { IfErr result (λ e. spec.HasCause (spec.form_level form) (200 - above) tokens.now at e) }
{
    let limits = Limits {
        alloc,
        form: form.level(),
        room: 200 - above,
    };
    let list = tokens.list.as_slice();
    let mut stack = List::new(alloc);
    let mut reading = Reading::Operand;
    let mut next = at as usize;
    while next < list.len() {
        match step(limits, &list[next], reading, &mut stack) {
            Ok(Stepped::Go(more)) => {
                reading = more;
                next += 1;
            }
            Ok(Stepped::Stop(tree)) => return answer(tree, next, list[next].place),
            Err(_) => return Err(Refusal::OutOfMemory),
        }
    }
    match finish(alloc, reading, &mut stack) {
        Ok(tree) => answer(tree, next, tokens.end),
        Err(_) => Err(Refusal::OutOfMemory),
    }
}

// The tree, or the refusal at the place where the run ends.
fn answer(tree: Option<Boxed<Expr>>, next: usize, place: Place) -> Result<(Expr, u32), Refusal>
    ensures { spec.Answers tree next place result }
{
    match tree {
        None => Err(Refusal::Syntax(place)),
        Some(tree) => match u32::try_from(next) {
            Ok(next) => Ok((tree.into_inner(), next)),
            Err(_) => Err(Refusal::OutOfMemory),
        },
    }
}
