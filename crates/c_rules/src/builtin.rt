// The built-in calls, and the roles in which an expression stands.

/// A built-in call.
#[derive(Clone, Copy, Drop)]
pub enum Builtin {
    /// `pthread_create`
    PthreadCreate,
    /// `pthread_join`
    PthreadJoin,
    /// `pthread_exit`
    PthreadExit,
    /// `exit`
    Exit,
    /// `abort`
    Abort,
    /// `pthread_mutex_lock`
    Lock,
    /// `pthread_mutex_unlock`
    Unlock,
    /// `pthread_mutex_init`
    Init,
    /// `pthread_mutex_destroy`
    Destroy,
    /// `assert`
    Assert,
    /// `__VERIFIER_assume`
    Assume,
    /// `__assert_fail`
    AssertFail,
    /// `reach_error` or `__VERIFIER_error`
    ReachError,
    /// `__VERIFIER_nondet_int`
    AnyInt,
    /// `__VERIFIER_nondet_uint`
    AnyUint,
    /// `__VERIFIER_nondet_bool`
    AnyBool,
    /// `__VERIFIER_atomic_begin`
    Begin,
    /// `__VERIFIER_atomic_end`
    Finish,
    /// `__sync_synchronize`
    Synchronize,
}

/// The role in which an expression stands: what it may be there.
#[derive(Clone, Copy, Drop)]
pub enum Role {
    /// A statement: it may have no value.
    Statement,
    /// Left of a comma: it may have no value.
    LeftOfComma,
    /// Its value is used.
    Value,
    /// An argument that is the constant 0.
    Zero,
    /// An argument that is a text or a value.
    TextOrValue,
    /// An argument that is the address of a mutex.
    MutexAddress,
    /// What stands behind `&` there.
    Mutex,
    /// An argument that is the address of a variable that a number is stored into.
    TargetAddress,
    /// An argument that is a thread's function, alone or behind `&`.
    Routine,
    /// What stands behind `&` there.
    RoutineName,
}
