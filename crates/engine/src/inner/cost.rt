// COST: one production's step.
ghost use Rattle.grammar.specs.Lent.{flat_of};
ghost use Rattle.std.specs.Prelude.{not, ◌&&◌, ◌≡◌, ◌+◌, ◌<◌, min, length};
ghost use Rattle.theory.specs.Entries.{cost_unknown};
ghost use Rattle.grammar.specs.Flat.{at, form};
ghost use Rattle.engine.specs.Cost.{Readable, ReadsCost, Summable, ReadsSum, Lowerable, Lowers};
ghost use Rattle.engine.specs.Kinds.{cost};

use crate::inner::{Moved, Table};
use grammar::Grammar;
use grammar::inner::{Prod, prod_at};

// The entry of a rule that has sentences, none of which costs 65535 or less.
const COST_DEAR: u32 = 65536;

// The entry of a rule of which none is known.
const COST_UNKNOWN: u32 = 65537;

pub fn entry_at(numbers: &[u32], i: usize) -> u32
    requires { i < length numbers.now }
    ensures { result ≡ at numbers.now i }
{
    numbers[i]
}

fn byte(x: u8) -> u32
    ensures { (result ≡ x) × (result < 256) }
{
    x as u32
}

pub fn token_cost(costs: &[u8], t: usize) -> u32
    requires { t < length costs.now }
    ensures { (result ≡ at costs.now t) × (result < 256) }
{
    byte(costs[t])
}

// What symbol s adds to a sum; a rule is marked as read.
fn read_cost(g: &Grammar, cost: &[u32], s: u16, read: &mut [bool; 512]) -> u32
    requires { Readable g.now.costs.now cost.now s read.old }
    ensures { ReadsCost g.now.costs.now cost.now s read.old result read.new }
{
    if s < 32768 {
        return token_cost(g.costs, usize::from(s));
    }
    let r = usize::from(s - 32768);
    read[r] = true;
    entry_at(cost, r)
}

// The sum of the symbols of production q, or `top`, the owner's entry, where it comes to that, as one with an unknown part
// does: then no further symbol is read. Where `top` is unknown every part is looked at, since an unknown one may come after
// a dear total.
fn sum_to(g: &Grammar, q: Prod, cost: &[u32], top: u32, read: &mut [bool; 512]) -> u32
    requires { Summable g.now.symbols.now g.now.costs.now q.from q.to cost.now top read.old }
    ensures { ReadsSum top g.now.costs.now cost.now (form g.now.symbols.now q.from q.to) read.old result read.new }
{
    let mut n: u32 = 0;
    for &s in &g.symbols[q.from..q.to] {
        let x = read_cost(g, cost, s, read);
        if x < top - n {
            n += x;
            continue;
        }
        if top <= COST_DEAR {
            return top;
        }
        if COST_DEAR < x {
            return top;
        }
        n = COST_DEAR;
    }
    n
}

// An entry; a larger number counts as unknown.
fn capped(entry: u32) -> u32
    ensures { result ≡ min entry cost_unknown }
{
    if entry < COST_UNKNOWN {
        return entry;
    }
    COST_UNKNOWN
}

// Production p's step of COST: its owner's entry becomes the smaller of itself and the sum, if that is known.
// The symbols are added up only until the sum comes to the entry; `read` tells the rules that were read so far.
pub fn step(g: &Grammar, p: usize, read: &mut [bool; 512], cost: &mut [u32]) -> Moved
    requires { Lowerable (flat_of g.now) p cost.old read.old }
    ensures { Lowers (flat_of g.now) p cost.old read.old result.changed (result.changed && not result.early) cost.new read.new }
{
    let q = prod_at(g, p);
    let owner = q.owner;
    let top = capped(entry_at(cost, owner));
    if top == 0 {
        return Moved {
            changed: false,
            early: false,
        };
    }
    let s = sum_to(g, q, cost, top, read);
    if s < top {
        cost[owner] = s;
        return Moved {
            changed: true,
            early: !read[owner],
        };
    }
    Moved {
        changed: false,
        early: false,
    }
}

// COST, as the rounds see it.
#[derive(Clone, Copy)]
pub struct Cost;

impl Table for Cost {
    ghost kind = { λ _. cost };

    fn step(
        &self,
        g: &Grammar,
        again: bool,
        p: usize,
        table: &mut [u32],
        row: &mut [u32],
        read: &mut [bool; 512],
    ) -> Moved {
        step(g, p, read, table)
    }
}
