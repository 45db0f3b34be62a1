// The limits of a program.
ghost use Rattle.std.specs.Prelude.{◌≡◌, map, cond, nat_lt};
ghost use Rattle.c_rules.specs.Names.{or_else};
ghost use Rattle.c_rules.specs.Walk as walk;
ghost use Rattle.c_tree.specs.Level.{capped};
ghost use Rattle.c_check.specs.declared.counts.Counts.{Counts as counts_type};
ghost use Rattle.c_check.specs.Capped.{capped_counts};
ghost use Rattle.c_check.specs.Limits as limits;

use crate::counts::Counts;
use c_tree::{Declarator, Expr, Item, Start, Stmt, constant_value};
use dg_base::LimitKind;

/// A limit that is exceeded, and the count; a count above 4294967295 is that number.
#[derive(Clone, Copy, Drop)]
pub struct Exceeded {
    /// What is counted.
    pub kind: LimitKind,
    /// How many there are.
    pub count: u32,
}

// The first of two numbers that are there.
fn first(one: Option<u32>, other: Option<u32>) -> Option<u32>
    ensures { result ≡ or_else one other }
{
    one.or(other)
}

fn cells_of(size: &Option<Expr>) -> Option<u32>
    ensures { result ≡ walk.cells_of_size size.now }
{
    match size {
        None => None,
        Some(size) => Some(constant_value(size)),
    }
}

fn too_large(cells: Option<u32>) -> Option<u32>
    ensures { result ≡ limits.too_large cells }
{
    match cells {
        None => None,
        Some(cells) => { if cells > 32 { Some(cells) } else { None } }
    }
}

// The cells of the first of these arrays that is too large.
fn first_large(declarators: &[Declarator]) -> Option<u32>
    ensures { result ≡ limits.first_large declarators.now }
{
    let mut found = None;
    for declarator in declarators {
        found = first(found, too_large(cells_of(&declarator.size)));
    }
    found
}

fn large_in_for(start: &Start) -> Option<u32>
    ensures { result ≡ limits.large_in_for start.now }
{
    match start {
        Start::Nothing => None,
        Start::Expr(_) => None,
        Start::Declare(decl) => first_large(decl.declarators.as_slice()),
    }
}

#[cycle(large)]
fn large_in(stmt: &Stmt) -> Option<u32>
    ensures { result ≡ limits.large_in_stmt stmt.now }
{
    match stmt {
        Stmt::Empty { .. } => None,
        Stmt::Expr { .. } => None,
        Stmt::Declare(decl) => first_large(decl.declarators.as_slice()),
        Stmt::Block { body, .. } => large_in_all(body.as_slice()),
        Stmt::Label { body, .. } => large_in(body.get()),
        Stmt::If { yes, no, .. } => {
            let other = match no {
                None => None,
                Some(no) => large_in(no.get()),
            };
            first(large_in(yes.get()), other)
        }
        Stmt::While { body, .. } => large_in(body.get()),
        Stmt::DoWhile { body, .. } => large_in(body.get()),
        Stmt::For { start, body, .. } => first(large_in_for(start), large_in(body.get())),
        Stmt::Return { .. } => None,
        Stmt::Break { .. } => None,
        Stmt::Continue { .. } => None,
    }
}

#[cycle(large)]
fn large_in_all(stmts: &[Stmt]) -> Option<u32>
    ensures { result ≡ limits.large_in_all (map limits.large_in_stmt stmts.now) }
{
    let mut found = None;
    for stmt in stmts {
        found = first(found, large_in(stmt));
    }
    found
}

// The cells of the first array of the text that is too large.
fn first_large_array(items: &[Item]) -> Option<u32>
    ensures { result ≡ limits.large_in_items items.now }
{
    let mut found = None;
    for item in items {
        match item {
            Item::Function(function) => {
                found = first(found, large_in_all(function.body.as_slice()));
            }
            Item::Prototype { .. } => {}
            Item::Shared(decl) => found = first(found, first_large(decl.declarators.as_slice())),
        }
    }
    found
}

fn cell_count(declarator: &Declarator) -> u32
    ensures { result ≡ limits.cell_count declarator.now }
{
    match &declarator.size {
        None => 1,
        Some(size) => constant_value(size),
    }
}

fn cells_of_all(declarators: &[Declarator]) -> u32
    ensures { result ≡ capped (limits.cells_of_all declarators.now) }
{
    let mut cells: u32 = 0;
    for declarator in declarators {
        cells = cells.saturating_add(cell_count(declarator));
    }
    cells
}

// The shared cells, mutexes among them.
fn shared_cells(items: &[Item]) -> u32
    ensures { result ≡ capped (limits.shared_cells items.now) }
{
    let mut cells: u32 = 0;
    for item in items {
        match item {
            Item::Function(_) => {}
            Item::Prototype { .. } => {}
            Item::Shared(decl) => {
                cells = cells.saturating_add(cells_of_all(decl.declarators.as_slice()));
            }
        }
    }
    cells
}

// A limit, if its count exceeds it, else what is exceeded behind it.
fn over(kind: LimitKind, limit: u32, count: u32, behind: Option<Exceeded>) -> Option<Exceeded>
    ensures { result ≡ cond (nat_lt limit count) (Some (record { kind = kind; count = count })) behind }
{
    if count > limit {
        Some(Exceeded { kind, count })
    } else {
        behind
    }
}

// The first limit on the threads that is exceeded.
#[tactic(auto, using(crate::proofs::Limiting::limit))]
fn exceeded_by(counts: Counts) -> Option<Exceeded>
    ensures { (n : counts_type) → counts ≡ capped_counts n → result ≡ limits.told (limits.first_exceeded (limits.limits_on n)) }
{
    let weight = over(LimitKind::Weight, 32768, counts.weight, None);
    let accesses = over(LimitKind::Accesses, 1024, counts.accesses, weight);
    let depth = over(LimitKind::Depth, 4, counts.depth, accesses);
    let threads = counts.threads.saturating_add(1);
    let threads = over(LimitKind::Threads, 64, threads, depth);
    let creates = counts.creates.max(counts.most);
    over(LimitKind::Creates, 63, creates, threads)
}

/// The first limit that a program exceeds, by what its threads come to.
#[tactic(auto, using(crate::proofs::Limiting::limit))]
pub(crate) fn first_exceeded(items: &[Item], counts: Counts) -> Option<Exceeded>
    ensures { (n : counts_type) → counts ≡ capped_counts n → result ≡ limits.told (limits.first_exceeded (limits.limits_by items.now n)) }
{
    let globals = over(
        LimitKind::Globals,
        1024,
        shared_cells(items),
        exceeded_by(counts),
    );
    let cells = first_large_array(items).unwrap_or(0);
    over(LimitKind::Cells, 32, cells, globals)
}
