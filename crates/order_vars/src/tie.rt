//! How two events are tied.

ghost use Rattle.std.specs.Prelude.{◌≡◌, ◌<◌, length};
ghost use Rattle.order_vars.specs.Links.{is_initial as is_first_write};
ghost use Rattle.order_vars.specs.Ties.{tie_of, source_tie, order_tie, wait_tie};

use memory_models::{StaticEvent, StaticKind};

/// How an event is tied to a later one, or to one that it may reach from another thread.
#[derive(Debug, Clone, Copy, PartialEq, Eq, Drop)]
pub(crate) enum Tie {
    /// Not at all.
    Apart,
    /// A write, of which the other may read.
    Source,
    /// The initial write, behind which the other comes.
    Initial,
    /// An earlier write of the cell.
    Rival,
    /// An end, for which the other may wait.
    End,
}

/// Whether the event is the initial write of a cell.
pub(crate) fn is_initial(kind: StaticKind) -> bool
    ensures { result ≡ is_first_write kind }
{
    matches!(kind, StaticKind::Initial)
}

// How a write of the read's cell is tied to it.
fn source(kind: StaticKind) -> Tie
    ensures { result ≡ source_tie kind }
{
    match kind {
        StaticKind::Initial | StaticKind::Write => Tie::Source,
        _ => Tie::Apart,
    }
}

// How an event of the write's cell is tied to it.
fn order(kind: StaticKind, is_earlier: bool) -> Tie
    ensures { result ≡ order_tie kind is_earlier }
{
    match kind {
        StaticKind::Initial => Tie::Initial,
        StaticKind::Write if is_earlier => Tie::Rival,
        _ => Tie::Apart,
    }
}

// How an event is tied to a join.
fn wait(kind: StaticKind) -> Tie
    ensures { result ≡ wait_tie kind }
{
    match kind {
        StaticKind::End => Tie::End,
        _ => Tie::Apart,
    }
}

/// How the first event is tied to the second.
pub(crate) fn how_tied(first: &StaticEvent, second: &StaticEvent, is_earlier: bool) -> Tie
    ensures { result ≡ tie_of first.now second.now is_earlier }
{
    let one_cell = first.cell == second.cell;
    match second.kind {
        StaticKind::Read if one_cell => source(first.kind),
        StaticKind::Write if one_cell => order(first.kind, is_earlier),
        StaticKind::Join => wait(first.kind),
        _ => Tie::Apart,
    }
}
