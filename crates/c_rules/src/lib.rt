//! Names and types: the rules on a program's tree that need to know what each name stands for where it is used.
//!
//! The model is the tree. One walk (`specs/Walk`) goes over statements in the order of the text with the scope that each
//! stands in; what is found on the way is the first place where a rule is broken, or whatever else a layer above collects.
//! The rules are walks: names declared once and names known (`specs/Scopes`; in their order `specs/Naming`), types and
//! where things may stand (`specs/Types`, with the table of built-in calls in `specs/BuiltIns`; the refusal `specs/Typing`).
#![tactic(auto)]

mod builtin;
mod calls;
mod declared;
mod items;
mod judging;
mod named;
mod names;
mod pass;
mod roles;
mod rules;
mod scope;
mod stop;
mod types;
mod unknown;

pub use builtin::{Builtin, Role};
pub use items::{check_names, check_types};
pub use named::{addressed_name, plain_name, routine_name, target_name};
pub use names::{Entry, Meaning, Variable, builtin_named, function_named};
pub use rules::unless;
pub use scope::{Outer, Scopes, meaning_of};
pub use stop::earlier;
