//! Conflict analysis: what a search learns from a clause that became false.
//!
//! The model is a resolvent: a clause whose literals are all false on the trail. It starts as the
//! conflict, and the newest literals of the present level are resolved away with the clauses that
//! forced their negations, until one literal of that level is left, the first unique implication
//! point (Marques-Silva and Sakallah 1999; Moskewicz, Madigan, Zhao, Zhang and Malik 2001; Zhang,
//! Madigan, Moskewicz and Malik 2001). Literals of level 0 are left out: they are false by the
//! reasons alone.
//!
//! The resolvent is kept as one mark for each variable, beside the number of marked literals of the
//! present level. Its invariant: marks stand on assigned variables above level 0 alone, the number
//! is right, and unit propagation from the negations of the resolvent's literals and the literals of
//! level 0 makes the conflict or a reason false.
//!
//! The layers above may use of a learnt clause: it follows by unit propagation from the conflict and
//! the reasons on the trail; it is false on the trail; once the trail is undone to `back`, the least
//! such level, one literal is unassigned and the others are false; no variable stands twice in it,
//! none is of level 0, and one is of level `back` where that is not 0.
#![tactic(auto)]

mod learning;
mod resolvent;

pub use learning::{Learnt, learn};
