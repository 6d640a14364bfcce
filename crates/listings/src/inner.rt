// All cheapest sentences below the public calls: what is due, the working tables, and the answers from them.
ghost use Rattle.grammar.specs.Lent.{flat_of, outcome_of};
ghost use Rattle.std.specs.Prelude.{◌≡◌};
ghost use Rattle.engine.specs.Cost.{costs_of};
ghost use Rattle.listings.specs.Calls.{due_by, Counts, Numbers};
ghost use Rattle.listings.specs.Working.{Workable, Worked, CountReady, NumberReady};

use crate::{COUNT_MANY, COUNT_MAX};
use costs::inner::entry_due;
use engine::inner::cost::entry_at;
use grammar::inner::links;
use grammar::{Grammar, Refusal};
use sentences::LENGTH_MAX;
use sentences::inner::expansion::NOT_WRITTEN;

pub mod counts;
pub mod numbers;

use crate::inner::counts::count_fill;
use crate::inner::numbers::{length_rule, write_rule};

// What is due before a table is filled, by the lengths of the lent tables: 1 to 6, 7, 9.
pub fn due(
    g: &Grammar,
    rule: usize,
    cost: usize,
    lengths: usize,
    counts: usize,
) -> Result<(), Refusal>
    ensures { outcome_of result ≡ due_by (flat_of g.now) rule cost lengths counts }
{
    grammar::check(g)?;
    let n = usize::from(g.rules);
    if (cost != n) | ((lengths != n) | (counts != n)) {
        return Err(Refusal::Length);
    }
    if n <= rule {
        return Err(Refusal::Rule);
    }
    Ok(())
}

// Leaves the three working tables, the links and the first choices.
pub fn work(
    g: &Grammar,
    cost: &mut [u32],
    next: &mut [u16; 4096],
    choice: &mut [u16; 512],
    lengths: &mut [u32],
    counts: &mut [u32],
)
    requires { Workable (flat_of g.now) cost.old next.old choice.old lengths.old counts.old }
    ensures { Worked (flat_of g.now) cost.new next.new choice.new lengths.new counts.new }
{
    sentences::inner::work(g, cost, choice, lengths);
    let mut head = [4096; 512];
    links(g.owners, &mut head, next);
    count_fill(g, next, cost, choice, counts);
}

// The count from finished tables: 12 to 14, 16, or how many.
pub fn count_answer(g: &Grammar, r: usize, cost: &[u32], counts: &[u32]) -> Result<u32, Refusal>
    requires { CountReady (flat_of g.now) r cost.now counts.now }
    ensures { Counts (flat_of g.now) (costs_of cost.now) r (outcome_of result) }
{
    entry_due(entry_at(cost, r))?;
    let many = entry_at(counts, r);
    if COUNT_MANY < many {
        return Err(Refusal::Circular);
    }
    if COUNT_MAX < many {
        return Err(Refusal::Many);
    }
    Ok(many)
}

// Number k from finished tables: 12 to 14, 16, 15, or the sentence.
pub fn number_answer(
    g: &Grammar,
    r: usize,
    k: u32,
    cost: &[u32],
    next: &[u16; 4096],
    choice: &[u16; 512],
    lengths: &[u32],
    counts: &[u32],
    out: &mut [u16],
) -> Result<u32, Refusal>
    requires { NumberReady (flat_of g.now) r cost.now next.now choice.now lengths.now counts.now }
    ensures { Numbers (flat_of g.now) (costs_of cost.now) r k out.old (outcome_of result) out.new }
{
    let many = count_answer(g, r, cost, counts)?;
    if many <= k {
        return Err(Refusal::Many);
    }
    let n = usize::from(g.rules);
    let long = length_rule(g, next, cost, choice, lengths, counts, n, r, k);
    if (long <= LENGTH_MAX) & (long as usize <= out.len()) {
        let mut begun = [NOT_WRITTEN; 512];
        write_rule(
            g, next, cost, choice, lengths, counts, n, r, k, 0, &mut begun, out,
        );
        return Ok(long);
    }
    Err(Refusal::Long)
}
