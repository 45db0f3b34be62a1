// The roles in which expressions stand, and the table of built-in calls.
ghost use Rattle.std.specs.Prelude.{◌≡◌};
ghost use Rattle.c_rules.specs.BuiltIns as builtins;
ghost use Rattle.c_rules.specs.Types as types;

use crate::builtin::{Builtin, Role};
use crate::names::Meaning;

/// Whether what stands there may have no value.
pub(crate) fn may_lack_value(role: Role) -> bool
    ensures { result ≡ types.may_lack_value role }
{
    match role {
        Role::Statement => true,
        Role::LeftOfComma => true,
        _ => false,
    }
}

/// Whether a mutex may stand there.
pub(crate) fn is_mutex_role(role: Role) -> bool
    ensures { result ≡ types.is_mutex_role role }
{
    match role {
        Role::Mutex => true,
        _ => false,
    }
}

/// Whether a function's name may stand there.
pub(crate) fn is_routine_role(role: Role) -> bool
    ensures { result ≡ types.is_routine_role role }
{
    match role {
        Role::Routine => true,
        Role::RoutineName => true,
        _ => false,
    }
}

/// Whether a text may stand there.
pub(crate) fn is_text_role(role: Role) -> bool
    ensures { result ≡ types.is_text_role role }
{
    match role {
        Role::TextOrValue => true,
        _ => false,
    }
}

/// The role of what stands in brackets.
pub(crate) fn inside_brackets(role: Role) -> Role
    ensures { result ≡ types.inside_brackets role }
{
    match role {
        Role::Mutex => Role::Mutex,
        Role::RoutineName => Role::RoutineName,
        _ => Role::Value,
    }
}

/// The role of what stands behind `&`.
pub(crate) fn behind_address(role: Role) -> Role
    ensures { result ≡ types.behind_address role }
{
    match role {
        Role::MutexAddress => Role::Mutex,
        Role::Routine => Role::RoutineName,
        _ => Role::Value,
    }
}

/// The role of what stands right of a comma.
pub(crate) fn right_of_comma(role: Role) -> Role
    ensures { result ≡ types.right_of_comma role }
{
    match role {
        Role::LeftOfComma => Role::LeftOfComma,
        _ => Role::Value,
    }
}

fn by_number(first: Role, second: Role, third: Role, fourth: Role, number: usize) -> Role
    ensures { result ≡ builtins.by_number first second third fourth number }
{
    if number == 0 {
        first
    } else if number == 1 {
        second
    } else if number == 2 {
        third
    } else if number == 3 {
        fourth
    } else {
        Role::Value
    }
}

// The role of a built-in call's argument.
fn role_of(builtin: Builtin, number: usize) -> Role
    ensures { result ≡ builtins.role_of builtin number }
{
    match builtin {
        Builtin::PthreadCreate => by_number(
            Role::TargetAddress,
            Role::Zero,
            Role::Routine,
            Role::Value,
            number,
        ),
        Builtin::PthreadJoin => {
            by_number(Role::Value, Role::Zero, Role::Value, Role::Value, number)
        }
        Builtin::Init => by_number(
            Role::MutexAddress,
            Role::Zero,
            Role::Value,
            Role::Value,
            number,
        ),
        Builtin::Lock | Builtin::Unlock | Builtin::Destroy => by_number(
            Role::MutexAddress,
            Role::Value,
            Role::Value,
            Role::Value,
            number,
        ),
        Builtin::AssertFail => by_number(
            Role::TextOrValue,
            Role::TextOrValue,
            Role::TextOrValue,
            Role::TextOrValue,
            number,
        ),
        Builtin::PthreadExit
        | Builtin::Exit
        | Builtin::Abort
        | Builtin::Assert
        | Builtin::Assume
        | Builtin::ReachError
        | Builtin::AnyInt
        | Builtin::AnyUint
        | Builtin::AnyBool
        | Builtin::Begin
        | Builtin::Finish
        | Builtin::Synchronize => Role::Value,
    }
}

/// The role of a call's argument.
pub(crate) fn role_in(meaning: Meaning, number: usize) -> Role
    ensures { result ≡ types.roles_in meaning number }
{
    match meaning {
        Meaning::Builtin(builtin) => role_of(builtin, number),
        Meaning::Variable(_) => Role::Value,
        Meaning::Function(_, _) => Role::Value,
        Meaning::Nothing => Role::Value,
    }
}

/// Whether a built-in call has a value.
pub(crate) fn has_value(builtin: Builtin) -> bool
    ensures { result ≡ builtins.has_value builtin }
{
    match builtin {
        Builtin::PthreadExit
        | Builtin::Exit
        | Builtin::Abort
        | Builtin::Assert
        | Builtin::Assume
        | Builtin::AssertFail
        | Builtin::ReachError
        | Builtin::Begin
        | Builtin::Finish
        | Builtin::Synchronize => false,
        Builtin::PthreadCreate
        | Builtin::PthreadJoin
        | Builtin::Lock
        | Builtin::Unlock
        | Builtin::Init
        | Builtin::Destroy
        | Builtin::AnyInt
        | Builtin::AnyUint
        | Builtin::AnyBool => true,
    }
}

/// How many arguments a built-in call has.
pub(crate) fn argument_count(builtin: Builtin) -> usize
    ensures { result ≡ builtins.argument_count builtin }
{
    match builtin {
        Builtin::PthreadCreate | Builtin::AssertFail => 4,
        Builtin::PthreadJoin | Builtin::Init => 2,
        Builtin::PthreadExit
        | Builtin::Exit
        | Builtin::Lock
        | Builtin::Unlock
        | Builtin::Destroy
        | Builtin::Assert
        | Builtin::Assume => 1,
        Builtin::Abort
        | Builtin::ReachError
        | Builtin::AnyInt
        | Builtin::AnyUint
        | Builtin::AnyBool
        | Builtin::Begin
        | Builtin::Finish
        | Builtin::Synchronize => 0,
    }
}
