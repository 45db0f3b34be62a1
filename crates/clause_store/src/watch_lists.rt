// The visit of the clauses that watch a literal which became false.
ghost use Rattle.std.specs.Prelude.{◌≡◌, ◌≢◌, ◌<◌, ◌≤◌, ◌+◌, ◌/◌, ◌++◌, Contains, length, is_some};
ghost use Rattle.cnf_problem.specs.Literals.{negated as negation};
ghost use Rattle.trail_state.specs.Forcing.{AddsForced};
ghost use Rattle.clause_store.specs.Linked.{end_of_list};
ghost use Rattle.clause_store.specs.NewWatch.{AreOver};
ghost use Rattle.clause_store.specs.Visiting.{IsAt, IsDone, IsOwing, IsPlaced, IsRefuted, IsVisiting};
ghost use Rattle.clause_store.specs.Watching.{IsRoomy, clause_of, twin as twin_of, watched};

use crate::clause_list::clause_at;
use crate::links::{END, Links};
use crate::new_watch::{Seen, look};
use cnf_problem::{Clauses, negated};
use dg_base::Lit;
use trail_state::{ClauseId, Trail};

/// What was done at a link: the literal that it watches now, and whether its clause is false.
#[derive(Clone, Copy, Debug, Drop)]
pub struct Visit {
    pub watch: Lit,
    pub refuted: bool,
}

/// The other link of the same clause.
#[tactic(auto, unfolding(crate::specs::Watching::twin))]
pub fn twin(link: u32) -> u32
    requires { link < 4294967294 }
    ensures { result ≡ twin_of link }
{
    if link % 2 == 0 { link + 1 } else { link - 1 }
}

/// Looks at the clause of a link whose literal became false, and makes its other watched literal
/// true where that is the last one.
pub fn visit_clause(trail: &mut Trail, clause: &[Lit], id: u32, here: Lit, other: Lit) -> Visit
    requires over { AreOver trail.old.vars clause.now }
    requires listed { Contains clause.now other }
    ensures done { IsDone clause.now trail.old.entries id here other trail.new.entries result.watch result.refuted }
    ensures taken { trail.new.taken ≡ trail.old.taken }
    ensures vars { trail.new.vars ≡ trail.old.vars }
{
    match look(trail, clause, other) {
        Seen::Satisfied => Visit {
            watch: here,
            refuted: false,
        },
        Seen::Moved(watch) => Visit {
            watch,
            refuted: false,
        },
        Seen::Unit => {
            trail.assign(other, ClauseId(id));
            Visit {
                watch: here,
                refuted: false,
            }
        }
        Seen::False => Visit {
            watch: here,
            refuted: true,
        },
    }
}

// Looks at the clause of a link whose literal became false.
fn visit_next(
    first: &Clauses,
    added: &Clauses,
    trail: &mut Trail,
    links: &Links,
    link: u32,
) -> Visit
    requires { IsPlaced (first.now ++ added.now) trail.old.vars links.now.next links.now.heads links.now.owner_of link }
    ensures done { IsDone (clause_of (first.now ++ added.now) link) trail.old.entries (link / 2) (watched links.now.owner_of link) (watched links.now.owner_of (twin_of link)) trail.new.entries result.watch result.refuted }
    ensures taken { trail.new.taken ≡ trail.old.taken }
    ensures vars { trail.new.vars ≡ trail.old.vars }
{
    let here = Lit(links.owner(link));
    let other = Lit(links.owner(twin(link)));
    let id = link / 2;
    visit_clause(trail, clause_at(first, added, id as usize), id, here, other)
}

// Visits the next link, and answers the one behind it, and a clause that is false.
fn visit_link(
    first: &Clauses,
    added: &Clauses,
    trail: &mut Trail,
    links: &mut Links,
    p: Lit,
    link: u32,
    left: usize,
    conflict: Option<u32>,
) -> (u32, Option<u32>)
    requires roomy { IsRoomy (first.now ++ added.now) trail.old.vars links.old.next links.old.heads }
    requires at { IsAt trail.old.entries trail.old.taken p }
    requires more { link ≢ end_of_list }
    requires room { left < 4294967296 }
    requires visiting { IsVisiting (first.now ++ added.now) trail.old.entries trail.old.taken p links.old.next links.old.heads links.old.owner_of link (left + 1) (is_some conflict) }
    requires refuted { IsRefuted (first.now ++ added.now) trail.old.entries conflict }
    ensures roomy { IsRoomy (first.now ++ added.now) trail.new.vars links.new.next links.new.heads }
    ensures at { IsAt trail.new.entries trail.new.taken p }
    ensures visiting { IsVisiting (first.now ++ added.now) trail.new.entries trail.new.taken p links.new.next links.new.heads links.new.owner_of result.0 left (is_some result.1) }
    ensures refuted { IsRefuted (first.now ++ added.now) trail.new.entries result.1 }
    ensures forced { AddsForced (first.now ++ added.now) trail.old.entries trail.new.entries }
    ensures taken { trail.new.taken ≡ trail.old.taken }
    ensures vars { trail.new.vars ≡ trail.old.vars }
    ensures long { length links.new.next ≡ length links.old.next }
{
    let _ = (p, left);
    if conflict.is_some() {
        let owner = links.owner(link);
        (links.put_back(link, owner), conflict)
    } else {
        let visit = visit_next(first, added, trail, links, link);
        let after = links.put_back(link, visit.watch.0);
        if visit.refuted {
            (after, Some(link / 2))
        } else {
            (after, None)
        }
    }
}

/// Visits the clauses that watch the negation of a literal, once the literal was made true and
/// taken. Answers a clause that is false, if there is one. The time is a look at each of these
/// clauses: once none is left the loop ends.
pub fn visit_all(
    first: &Clauses,
    added: &Clauses,
    trail: &mut Trail,
    links: &mut Links,
    p: Lit,
) -> Option<u32>
    requires roomy { IsRoomy (first.now ++ added.now) trail.old.vars links.old.next links.old.heads }
    requires at { IsAt trail.old.entries trail.old.taken p }
    requires head { (negation p).0 < length links.old.heads }
    requires owing { IsOwing (first.now ++ added.now) trail.old.entries trail.old.taken p links.old.next links.old.heads links.old.owner_of }
    ensures roomy { IsRoomy (first.now ++ added.now) trail.new.vars links.new.next links.new.heads }
    ensures at { IsAt trail.new.entries trail.new.taken p }
    ensures visiting { IsVisiting (first.now ++ added.now) trail.new.entries trail.new.taken p links.new.next links.new.heads links.new.owner_of end_of_list (length links.new.next) (is_some result) }
    ensures refuted { IsRefuted (first.now ++ added.now) trail.new.entries result }
    ensures forced { AddsForced (first.now ++ added.now) trail.old.entries trail.new.entries }
    ensures taken { trail.new.taken ≡ trail.old.taken }
    ensures vars { trail.new.vars ≡ trail.old.vars }
{
    let mut link = links.take_out(negated(p).0);
    let mut conflict: Option<u32> = None;
    let count = links.len();
    for i in 0..count {
        if link == END {
            break;
        }
        let left = count - i - 1;
        let (after, found) = visit_link(first, added, trail, links, p, link, left, conflict);
        link = after;
        conflict = found;
    }
    conflict
}
