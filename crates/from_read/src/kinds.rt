ghost use Rattle.std.specs.Prelude.{◌≡◌, ◌<◌, ◌≤◌, ◌-◌, ◌∷◌, ◌++◌, [], if◌then◌else◌, true, take, length, vec_capacity};
ghost use Rattle.from_read.specs.Parts.{is_read, is_order};

use cnf_problem::AtomKind;

/// Puts an atom on the stack of its kind, if that has one.
pub fn push_atom(kind: AtomKind, atom: u32, reads: &mut Vec<u32>, orders: &mut Vec<u32>)
    requires reads { length reads.old.items < vec_capacity reads.old }
    requires orders { length orders.old.items < vec_capacity orders.old }
    ensures reads { reads.new.items ≡ (if is_read kind then reads.old.items ++ atom ∷ [] else reads.old.items) }
    ensures orders { orders.new.items ≡ (if is_order kind then orders.old.items ++ atom ∷ [] else orders.old.items) }
    ensures room { (vec_capacity reads.new ≡ vec_capacity reads.old) × (vec_capacity orders.new ≡ vec_capacity orders.old) }
{
    match kind {
        AtomKind::ReadFrom { .. } => reads.push_reserved(atom),
        AtomKind::WriteOrder { .. } => orders.push_reserved(atom),
        AtomKind::Plain => {}
    }
}

/// Takes the newest atom of this kind off its stack, if the kind has one.
pub fn pop_atom(kind: AtomKind, reads: &mut Vec<u32>, orders: &mut Vec<u32>)
    requires reads { is_read kind ≡ true → 0 < length reads.old.items }
    requires orders { is_order kind ≡ true → 0 < length orders.old.items }
    ensures reads { reads.new.items ≡ (if is_read kind then take (length reads.old.items - 1) reads.old.items else reads.old.items) }
    ensures orders { orders.new.items ≡ (if is_order kind then take (length orders.old.items - 1) orders.old.items else orders.old.items) }
    ensures room { (vec_capacity reads.new ≡ vec_capacity reads.old) × (vec_capacity orders.new ≡ vec_capacity orders.old) }
{
    match kind {
        AtomKind::ReadFrom { .. } => reads.truncate(reads.len() - 1),
        AtomKind::WriteOrder { .. } => orders.truncate(orders.len() - 1),
        AtomKind::Plain => {}
    }
}
