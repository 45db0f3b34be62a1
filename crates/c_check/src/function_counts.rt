// What each function comes to, callees before their callers.
ghost use Rattle.std.specs.Prelude.{◌≡◌, ◌≤◌, ◌++◌, ◌∷◌, [], OnOk, IfOk, take, replicate, length, codes};
ghost use Rattle.c_rules.specs.Walk as walk;
ghost use Rattle.c_rules.specs.Passes.{Extends};
ghost use Rattle.c_check.specs.Counts as counts;
ghost use Rattle.c_check.specs.Capped.{capped_counts, capped_sums, table_named, table_walk};
ghost use Rattle.c_check.specs.Ordering.{IsCallOrder, Holds};

use crate::counter::Counter;
use crate::counts::Counts;
use c_rules::Scopes;
use c_tree::{Function, Item, Param};
use dg_base::{List, OutOfMemory};
use sqlite_items::at;
use std::alloc::Global;

impl<'a> Counter<'a> {
    // Declares an item at the top of the program.
    fn declare_item(&self, scope: &mut Scopes, item: &Item) -> Result<(), OutOfMemory>
        ensures { OnOk result (scope.new ≡ walk.behind_item item.now scope.old) }
    {
        match item {
            Item::Function(function) => Ok(scope.declare_function(self.alloc, function)?),
            Item::Prototype { .. } => Ok(()),
            Item::Shared(decl) => {
                self.declare(scope, decl.word, decl.declarators.as_slice())?;
                Ok(())
            }
        }
    }

    // The top of the program behind these items.
    fn top_behind(&self, items: &[Item]) -> Result<Scopes, OutOfMemory>
        ensures { IfOk result (λ s. s ≡ counts.behind_items items.now walk.top_scope) }
    {
        let mut scope = Scopes::new(self.alloc);
        for item in items {
            self.declare_item(&mut scope, item)?;
        }
        Ok(scope)
    }

    // Declares a parameter.
    #[tactic(auto, using(c_rules::proofs::Growing::one_more))]
    fn parameter(&self, scope: &mut Scopes, param: &Param) -> Result<(), OutOfMemory>
        ensures scope { OnOk result (scope.new ≡ record scope.old { entries = scope.old.entries ++ (walk.param_entries (param.now ∷ [])) }) }
        ensures grown { OnOk result (Extends scope.old scope.new) }
    {
        Ok(scope.declare_parameter(self.alloc, param)?)
    }

    // Declares a function's parameters.
    #[tactic(auto, using(c_rules::proofs::Growing::same, c_rules::proofs::Growing::further))]
    fn parameters(&self, scope: &mut Scopes, params: &[Param]) -> Result<(), OutOfMemory>
        ensures scope { OnOk result (scope.new ≡ record scope.old { entries = scope.old.entries ++ walk.param_entries params.now }) }
        ensures grown { OnOk result (Extends scope.old scope.new) }
    {
        for param in params {
            self.parameter(scope, param)?;
        }
        Ok(())
    }

    // What the body of a function comes to, behind what the top of the program has declared before it.
    fn function(&self, mut scope: Scopes, function: &Function) -> Result<Counts, OutOfMemory>
        ensures { IfOk result (λ c. c ≡ walk.walk_body (table_walk self.now.k self.now.items.now self.now.table.now) scope.entries function.now) }
    {
        let _outer = scope.enter_function(function.word);
        self.parameters(&mut scope, function.params.as_slice())?;
        self.sequence(&mut scope, function.body.as_slice())
    }

    // What the item of a number comes to.
    fn item(&self, number: usize) -> Result<Counts, OutOfMemory>
        ensures { IfOk result (λ c. c ≡ counts.counts_at capped_sums self.now.k (table_named self.now.items.now self.now.table.now) self.now.items.now number) }
    {
        match at(self.items, number) {
            None => Ok(Counts::none()),
            Some(Item::Prototype { .. }) => Ok(Counts::none()),
            Some(Item::Shared(_)) => Ok(Counts::none()),
            Some(Item::Function(function)) => {
                let scope = self.top_behind(first_items(self.items, number))?;
                self.function(scope, function)
            }
        }
    }
}

fn first_items(items: &[Item], count: usize) -> &[Item]
    ensures { result.now ≡ take count items.now }
{
    if count < items.len() {
        &items[..count]
    } else {
        items
    }
}

// A table that knows nothing yet.
fn no_table(alloc: Global, count: usize) -> Result<List<Counts>, OutOfMemory>
    ensures { IfOk result (λ l. l ≡ replicate count counts.no_counts) }
{
    Ok(List::from_vec(vec![in alloc; Counts::none(); count]?))
}

// What each item comes to, capped.
fn fill(alloc: Global, k: u32, items: &[Item], order: &[u32]) -> Result<List<Counts>, OutOfMemory>
    requires small { k ≤ 64 }
    requires order { IsCallOrder items.now order.now }
    ensures { IfOk result (λ t. Holds k items.now order.now t 0) }
{
    let mut table = no_table(alloc, items.len())?;
    let mut left = order.len();
    while left > 0 {
        left -= 1;
        let number = order[left] as usize;
        let counter = Counter {
            alloc,
            k,
            items,
            table: table.as_slice(),
        };
        let counts = counter.item(number)?;
        table.set(number, counts);
    }
    Ok(table)
}

/// What the main thread comes to, with all threads below it.
#[tactic(auto, using(crate::proofs::Tables::table_right))]
pub(crate) fn main_counts(
    alloc: Global,
    k: u32,
    items: &[Item],
    order: &[u32],
) -> Result<Counts, OutOfMemory>
    requires small { k ≤ 64 }
    requires order { IsCallOrder items.now order.now }
    ensures { IfOk result (λ c. c ≡ capped_counts (counts.counts_named (counts.counts_within (length items.now) k items.now) items.now (codes "main"))) }
{
    let table = fill(alloc, k, items, order)?;
    let counter = Counter {
        alloc,
        k,
        items,
        table: table.as_slice(),
    };
    Ok(counter.body(b"main".as_slice()))
}
