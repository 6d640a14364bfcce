// The dearest costs below the public call: rounds in which entries rise from 0. After R rounds a rule that still rises is
// without bound, so from then on each rise goes there at once.
ghost use Rattle.grammar.specs.Lent.{flat_of};
ghost use Rattle.std.specs.Prelude.{cond, ◌≡◌, ◌≤◌, ◌<◌};
ghost use Rattle.theory.specs.DearestVisits.{no_bound, add_up, ends_as};
ghost use Rattle.grammar.specs.Flat.{form};
ghost use Rattle.tables.specs.Call.{Stepped};
ghost use Rattle.engine.specs.Cost.{SymbolPriced};
ghost use Rattle.dearest.specs.Step.{part_of, Summable, sum_of, DearestReady, DearestBecame};
ghost use Rattle.dearest.specs.Rounds.{DearestBegun, DearestRounds, DearestFound, Finishes};
ghost use Rattle.dearest.specs.Defined.{DearestFillable, DearestCleared, DearestDefined};

use crate::{DEAREST_ABOVE, DEAREST_MAX, DEAREST_NONE, DEAREST_UNBOUNDED};
use engine::inner::cost::{entry_at, token_cost};
use grammar::Grammar;
use grammar::inner::prod_at;
use tables::inner::turn_at;

// While the entries rise: 0 for none known, one more than a cost up to 65534, more for a cost above, and this for no bound.
const NO_BOUND: u32 = 16777216;

// Two entries that are known, added up: their costs' sum, but above 65534 no more than one beyond the larger. So a part
// that costs something always tells, and the numbers stay small.
fn add_up(x: u32, y: u32) -> u32
    requires { (0 < x) × (0 < y) × (x ≤ 33554432) × (y ≤ 33554432) }
    ensures { result ≡ add_up x y }
{
    (x + y - 1).min(x.max(y).max(DEAREST_MAX + 1) + 1)
}

// What symbol s adds to a sum: a token one more than its cost, a rule its entry.
fn symbol_part(costs: &[u8], dearest: &[u32], s: u16) -> u32
    requires { SymbolPriced costs.now dearest.now s }
    ensures { result ≡ part_of costs.now dearest.now s }
{
    if s < 32768 {
        return token_cost(costs, usize::from(s)) + 1;
    }
    entry_at(dearest, usize::from(s - 32768))
}

// The sum of the symbols from a up to e, from the right, at most no bound; 0 if a part is not known.
fn sum(symbols: &[u16], costs: &[u8], a: usize, e: usize, dearest: &[u32]) -> u32
    requires { Summable symbols.now costs.now a e dearest.now }
    ensures { result ≡ sum_of costs.now dearest.now (form symbols.now a e) }
{
    let mut n: u32 = 1;
    for &s in symbols[a..e].iter().rev() {
        let x = symbol_part(costs, dearest, s);
        if x == 0 {
            return 0;
        }
        n = add_up(x, n);
    }
    n.min(NO_BOUND)
}

// What an entry becomes that the sum s exceeds.
fn lift(beyond: bool, s: u32) -> u32
    ensures { result ≡ cond beyond no_bound s }
{
    if beyond { NO_BOUND } else { s }
}

// Production p's step: its owner's entry becomes the sum, if that exceeds it, or no bound beyond R rounds.
fn step(g: &Grammar, beyond: bool, p: usize, dearest: &mut [u32]) -> bool
    requires { DearestReady (flat_of g.now) p dearest.old }
    ensures { Stepped (DearestBecame (flat_of g.now) beyond p dearest.old) dearest.old result dearest.new }
{
    let q = prod_at(g, p);
    let owner = q.owner;
    let s = sum(g.symbols, g.costs, q.from, q.to, dearest);
    if s <= entry_at(dearest, owner) {
        return false;
    }
    dearest[owner] = lift(beyond, s);
    true
}

// One round, each production once; whether something changed.
fn round(g: &Grammar, beyond: bool, down: bool, dearest: &mut [u32]) -> bool
    requires { DearestBegun (flat_of g.now) dearest.old }
    ensures { DearestRounds (flat_of g.now) beyond down dearest.old result dearest.new }
{
    let mut changed = false;
    for i in 0..g.owners.len() {
        let p = turn_at(down, g.owners.len(), i);
        changed |= step(g, beyond, p, dearest);
    }
    changed
}

// Rounds until one changes nothing: one up, the next down; R of them, then rounds beyond.
fn settle(g: &Grammar, dearest: &mut [u32])
    requires { DearestCleared (flat_of g.now) dearest.old }
    ensures { DearestFound (flat_of g.now) dearest.new }
{
    let n = usize::from(g.rules);
    let mut i: usize = 0;
    let mut down = false;
    let mut changed = true;
    while changed {
        changed = round(g, n <= i, down, dearest);
        i = (i + 1).min(n);
        down = !down;
    }
}

// What an entry is in the table at the end.
fn ends_as(x: u32) -> u32
    ensures { result ≡ ends_as x }
{
    if x == 0 {
        return DEAREST_NONE;
    }
    if x - 1 <= DEAREST_MAX {
        return x - 1;
    }
    if NO_BOUND <= x {
        return DEAREST_UNBOUNDED;
    }
    DEAREST_ABOVE
}

// Each entry becomes what it is at the end.
fn finish(dearest: &mut [u32])
    ensures { Finishes dearest.old dearest.new }
{
    for x in dearest.iter_mut() {
        *x = ends_as(*x);
    }
}

// Leaves the dearest costs in numbers of their length.
pub fn dearest_fill(g: &Grammar, dearest: &mut [u32])
    requires { DearestFillable (flat_of g.now) dearest.old }
    ensures { DearestDefined (flat_of g.now) dearest.new }
{
    rows::inner::clear(dearest, 0);
    settle(g, dearest);
    finish(dearest);
}
