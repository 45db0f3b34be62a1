//! Which actions are related in program order or across threads.

ghost use Rattle.std.specs.Prelude.{◌≡◌};
ghost use Rattle.axiom_model.specs.Execution.{cell_of};
ghost use Rattle.consistency.specs.Relations.{is_write, is_start, is_end, reaches_out, same_number, same_thread, creates, ends, links, stops, sees};

use crate::numbering::Node;
use axiom_model::{Action, Event, MemoryModel, RfPair};

/// A relation between actions that the actions tell alone.
#[derive(Debug, Clone, Copy, Drop)]
pub(crate) enum Relation {
    /// Program order between reads and writes of one cell.
    Cell,
    /// The program order that the model keeps.
    Kept(MemoryModel),
    /// One block.
    Section,
    /// From a Create to its thread's Start, and from an End to the Joins of its handle.
    Across,
}

/// A condition on cycles.
#[derive(Debug, Clone, Copy, Drop)]
pub(crate) enum Condition {
    /// That on one cell.
    Local,
    /// That on all that the model keeps.
    Global(MemoryModel),
}

// Whether the action writes.
fn is_write(action: &Action) -> bool
    ensures { result ≡ is_write action.now }
{
    match action {
        Action::Write { .. } => true,
        _ => false,
    }
}

// Whether a thread begins.
fn is_start(action: &Action) -> bool
    ensures { result ≡ is_start action.now }
{
    match action {
        Action::Start => true,
        _ => false,
    }
}

// Whether a thread comes to its end.
fn is_end(action: &Action) -> bool
    ensures { result ≡ is_end action.now }
{
    match action {
        Action::End => true,
        _ => false,
    }
}

/// The cell that an action reads or writes.
pub(crate) fn cell_of(action: &Action) -> Option<u32>
    ensures { result ≡ cell_of action.now }
{
    match *action {
        Action::Read { cell, .. } => Some(cell),
        Action::Write { cell, .. } => Some(cell),
        _ => None,
    }
}

/// Whether the action is one of those that lead to other threads.
pub(crate) fn reaches_out(action: &Action) -> bool
    ensures { result ≡ reaches_out action.now }
{
    match action {
        Action::Create { .. } => true,
        Action::End => true,
        _ => false,
    }
}

// Whether both numbers are there, and equal.
fn same_number(first: Option<u32>, second: Option<u32>) -> bool
    ensures { result ≡ same_number first second }
{
    match (first, second) {
        (Some(first), Some(second)) => first == second,
        _ => false,
    }
}

// Whether both actions read or write one cell.
fn same_cell(first: &Action, second: &Action) -> bool
    ensures { result ≡ same_number (cell_of first.now) (cell_of second.now) }
{
    same_number(cell_of(first), cell_of(second))
}

// Whether both events are actions of one thread.
fn same_thread(first: &Event, second: &Event) -> bool
    ensures { result ≡ same_thread first.now second.now }
{
    match (*first, *second) {
        (Event::At { handle: first, .. }, Event::At { handle: second, .. }) => first == second,
        _ => false,
    }
}

// Whether the action creates the thread of which the node is a Start.
fn creates(action: &Action, node: &Node) -> bool
    ensures { result ≡ creates action.now node.now }
{
    match *action {
        Action::Create { handle, .. } => handle == node.handle && is_start(&node.action),
        _ => false,
    }
}

// Whether the node is an End of the thread for which the action waits.
fn ends(node: &Node, action: &Action) -> bool
    ensures { result ≡ ends node.now action.now }
{
    match *action {
        Action::Join { handle } => node.handle == handle && is_end(&node.action),
        _ => false,
    }
}

impl Relation {
    /// Whether an action is related to a later one of the list of all actions; for `Across`, to any.
    pub fn links(self, first: &Node, second: &Node) -> bool
        ensures { result ≡ links self first.now second.now }
    {
        match self {
            Relation::Cell => first.handle == second.handle
                && same_cell(&first.action, &second.action),
            Relation::Kept(model) => first.handle == second.handle
                && model.keeps(&first.action, &second.action),
            Relation::Section => first.block == second.block,
            Relation::Across => creates(&first.action, second) || ends(first, &second.action),
        }
    }

    /// Whether no pair of the first with an action behind the second is needed: the second is of
    /// another thread, or what is behind the first is behind the second too.
    pub fn stops(self, first: &Node, second: &Node) -> bool
        ensures { result ≡ stops self first.now second.now }
    {
        match self {
            Relation::Cell => first.handle != second.handle
                || same_cell(&first.action, &second.action),
            Relation::Kept(model) => first.handle != second.handle
                || (model.keeps(&first.action, &second.action)
                    && (!is_write(&second.action) || is_write(&first.action))),
            Relation::Section => true,
            Relation::Across => false,
        }
    }
}

impl Condition {
    /// Whether the pair counts: under TSO and PSO the global condition passes over sources in the
    /// reader's own thread.
    pub fn sees(self, pair: &RfPair) -> bool
        ensures { result ≡ sees self pair.now }
    {
        match self {
            Condition::Local => true,
            Condition::Global(MemoryModel::Sc) => true,
            Condition::Global(MemoryModel::Tso) => !same_thread(&pair.source, &pair.reader),
            Condition::Global(MemoryModel::Pso) => !same_thread(&pair.source, &pair.reader),
        }
    }
}
