// What the rule on condition variables looks at.
use dg_base::{Bytes, Place};

/// A part of a program that the rule on condition variables looks at.
#[derive(Drop)]
pub enum Node {
    /// A name is declared.
    Declares {
        /// The name's place.
        place: Place,
        /// The name.
        name: Bytes,
        /// Whether it is declared as a condition variable.
        is_cond: bool,
        /// Whether its type, its scope and what it begins with are as they may be.
        fits: bool,
    },
    /// A name stands where none of a condition variable may.
    Names {
        /// The name's place.
        place: Place,
        /// The name.
        name: Bytes,
    },
    /// A call on a name, which must be a condition variable's.
    Calls {
        /// The call's place.
        place: Place,
        /// The name that the call is on.
        name: Bytes,
    },
    /// A call, a cast or a prototype that breaks the rule in itself.
    Breaks {
        /// Its place.
        place: Place,
    },
}
