// Counts: a rule asks for the counts of the rules inside it, each with one level less.
ghost use Rattle.grammar.specs.Lent.{flat_of};
ghost use Rattle.std.specs.Prelude.{◌≡◌, ◌*◌, ◌≤◌, min};
ghost use Rattle.theory.specs.Entries.{count_many};
ghost use Rattle.engine.specs.Cost.{costs_of};
ghost use Rattle.listings.specs.Calls.{CountsDefined};
ghost use Rattle.listings.specs.Counting.{CountFillable, RuleCountable, RuleCounts, ProductionCountable, ProductionCounts};

use crate::{COUNT_MANY, COUNT_MAX, COUNT_NONE};
use costs::inner::add;
use engine::inner::cost::entry_at;
use grammar::Grammar;
use grammar::inner::start_at;
use sentences::inner::choices::cheapest_from;

// A product of two counts, many if it is above 65535.
fn times(n: u32, x: u32) -> u32
    requires { (n ≤ count_many) × (x ≤ count_many) }
    ensures { result ≡ min (n * x) count_many }
{
    let product = (n as u64) * (x as u64);
    if product <= COUNT_MAX as u64 {
        return product as u32;
    }
    COUNT_MANY
}

// The count of the symbols from a up to e, none if some rule has none within the levels.
#[cycle(count_production_count_rule)]
fn count_production(
    g: &Grammar,
    next: &[u16; 4096],
    cost: &[u32],
    choice: &[u16; 512],
    levels: usize,
    a: usize,
    e: usize,
    counts: &mut [u32],
    shallow: &mut [u16; 512],
) -> u32
    requires { ProductionCountable (flat_of g.now) next.now cost.now choice.now levels a e counts.old shallow.old }
    ensures { ProductionCounts (flat_of g.now) cost.now levels a e counts.old result counts.new shallow.new }
{
    let mut n: u32 = 1;
    for &s in &g.symbols[a..e] {
        if s < 32768 {
            continue;
        }
        let r = usize::from(s - 32768);
        let x = count_rule(g, next, cost, choice, levels, r, counts, shallow);
        if COUNT_MANY < x {
            return COUNT_NONE;
        }
        n = times(n, x);
    }
    n
}

// The count of rule r, none if it has none within the levels. What is found is kept: a count in `counts`, and in
// `shallow` how many levels are not enough.
#[cycle(count_production_count_rule)]
fn count_rule(
    g: &Grammar,
    next: &[u16; 4096],
    cost: &[u32],
    choice: &[u16; 512],
    levels: usize,
    r: usize,
    counts: &mut [u32],
    shallow: &mut [u16; 512],
) -> u32
    requires { RuleCountable (flat_of g.now) next.now cost.now choice.now levels r counts.old shallow.old }
    ensures { RuleCounts (flat_of g.now) cost.now levels r counts.old result counts.new shallow.new }
{
    let known = entry_at(counts, r);
    if known <= COUNT_MANY {
        return known;
    }
    let mut p = usize::from(choice[r]);
    if (4096 <= p) | (levels <= usize::from(shallow[r])) {
        return COUNT_NONE;
    }
    let mut total: u32 = 0;
    while p < g.owners.len() {
        let x = count_production(
            g,
            next,
            cost,
            choice,
            levels - 1,
            start_at(g.starts, p),
            start_at(g.starts, p + 1),
            counts,
            shallow,
        );
        if COUNT_MANY < x {
            shallow[r] = levels as u16;
            return COUNT_NONE;
        }
        total = add(total, x);
        p = cheapest_from(g, next, cost, r, usize::from(next[p]));
    }
    counts[r] = total;
    total
}

// Leaves the counts in numbers of their count.
pub fn count_fill(
    g: &Grammar,
    next: &[u16; 4096],
    cost: &[u32],
    choice: &[u16; 512],
    counts: &mut [u32],
)
    requires { CountFillable (flat_of g.now) next.now cost.now choice.now counts.old }
    ensures { CountsDefined (flat_of g.now) (costs_of cost.now) counts.new }
{
    rows::inner::clear(counts, COUNT_NONE);
    let n = usize::from(g.rules);
    let mut shallow = [0; 512];
    for r in 0..n {
        count_rule(g, next, cost, choice, n, r, counts, &mut shallow);
    }
}
