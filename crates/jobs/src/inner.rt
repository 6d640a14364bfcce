// A job below the public call: one production's step of a kind, where the job stands after it, visits one after another.
ghost use Rattle.grammar.specs.Lent.{flat_of};
ghost use Rattle.std.specs.Prelude.{false, ◌≡◌, ◌<◌, ◌≤◌, length};
ghost use Rattle.theory.specs.Slices.{after, Slice};
ghost use Rattle.jobs.specs.Kinds.{tables, kind_of, kind_wrong, kind_number, Visit, Ready};
ghost use Rattle.jobs.specs.Calls.{progress, stands, Workable};

use crate::Kind;
use crate::Kind::{Cost, First, Follow, Productive};
use grammar::Grammar;
use tables::inner::{numbers_wrong, row_wrong, table_wrong};

// Production p's step in the tables of the kind.
#[inline(always)]
fn step(
    kind: Kind,
    g: &Grammar,
    p: usize,
    first: &mut [u32],
    empty: &mut [u32],
    follow: &mut [u32],
    productive: &mut [u32],
    cost: &mut [u32],
    reached: &[u32],
) -> bool
    requires { Ready (kind_of (kind_number kind) (tables first.old empty.old follow.old productive.old cost.old reached.now)) (flat_of g.now) p (tables first.old empty.old follow.old productive.old cost.old reached.now) }
    ensures { Visit (kind_of (kind_number kind) (tables first.old empty.old follow.old productive.old cost.old reached.now)) (flat_of g.now) p (tables first.old empty.old follow.old productive.old cost.old reached.now) result (tables first.new empty.new follow.new productive.new cost.new reached.now) }
{
    match kind {
        First => engine::inner::first::step(g, p, first, empty),
        Follow => engine::inner::follow::step(g, false, p, follow, first, empty, reached),
        Productive => engine::inner::productive::step(g, p, productive),
        Cost => {
            let mut read = [false; 512];
            engine::inner::cost::step(g, p, &mut read, cost).changed
        }
    }
}

// Where a job stands: the next production, whether this round changed anything, and whether it is done.
#[derive(Clone, Copy)]
pub struct Stand {
    pub next: u16,
    pub changed: bool,
    pub done: bool,
}

// Where it stands after a visit of its next production.
fn moved(prods: usize, at: Stand, got: bool) -> Stand
    requires { (at.next < prods) × (prods ≤ 4096) }
    ensures { stands result ≡ after prods got (progress at.next at.changed false) }
{
    let changed = at.changed | got;
    if usize::from(at.next) + 1 == prods {
        return Stand {
            next: 0,
            changed: false,
            done: !changed,
        };
    }
    Stand {
        next: at.next + 1,
        changed,
        done: false,
    }
}

// At most n visits of a kind, in rising order from where the job stands, starting again at 0; fewer only when the job is or
// becomes done. Where it stands then, and how many visits they were. It is compiled into `work` for each kind by itself, so
// that a visit need not ask for its kind, and goes by a copy of the grammar, as engine's `settle` does.
#[inline(always)]
fn visits(
    kind: Kind,
    g: &Grammar,
    from: Stand,
    n: u32,
    first: &mut [u32],
    empty: &mut [u32],
    follow: &mut [u32],
    productive: &mut [u32],
    cost: &mut [u32],
    reached: &[u32],
) -> (Stand, u32)
    requires { Workable (kind_of (kind_number kind) (tables first.old empty.old follow.old productive.old cost.old reached.now)) (flat_of g.now) from.next (tables first.old empty.old follow.old productive.old cost.old reached.now) }
    ensures { Slice (Visit (kind_of (kind_number kind) (tables first.old empty.old follow.old productive.old cost.old reached.now)) (flat_of g.now)) (length g.now.owners.now) n (stands from) (tables first.old empty.old follow.old productive.old cost.old reached.now) result.1 (stands result.0) (tables first.new empty.new follow.new productive.new cost.new reached.now) }
{
    let own = *g;
    let mut at = from;
    for made in 0..n {
        if at.done {
            return (at, made);
        }
        let got = step(
            kind,
            &own,
            usize::from(at.next),
            first,
            empty,
            follow,
            productive,
            cost,
            reached,
        );
        at = moved(g.owners.len(), at, got);
    }
    (at, n)
}

// The visits of a kind by its number. A number that is no kind's is taken for COST's. It is a call of its own, so that the
// loops have the registers to themselves.
#[inline(never)]
pub fn work(
    kind: u16,
    g: &Grammar,
    from: Stand,
    n: u32,
    first: &mut [u32],
    empty: &mut [u32],
    follow: &mut [u32],
    productive: &mut [u32],
    cost: &mut [u32],
    reached: &[u32],
) -> (Stand, u32)
    requires { Workable (kind_of kind (tables first.old empty.old follow.old productive.old cost.old reached.now)) (flat_of g.now) from.next (tables first.old empty.old follow.old productive.old cost.old reached.now) }
    ensures { Slice (Visit (kind_of kind (tables first.old empty.old follow.old productive.old cost.old reached.now)) (flat_of g.now)) (length g.now.owners.now) n (stands from) (tables first.old empty.old follow.old productive.old cost.old reached.now) result.1 (stands result.0) (tables first.new empty.new follow.new productive.new cost.new reached.now) }
{
    match Kind::try_from(kind).unwrap_or(Cost) {
        First => visits(
            First, g, from, n, first, empty, follow, productive, cost, reached,
        ),
        Follow => visits(
            Follow, g, from, n, first, empty, follow, productive, cost, reached,
        ),
        Productive => visits(
            Productive, g, from, n, first, empty, follow, productive, cost, reached,
        ),
        Cost => visits(
            Cost, g, from, n, first, empty, follow, productive, cost, reached,
        ),
    }
}

// Refusal 7: a table of the kind is not of its exact length. The others are not looked at.
pub fn wrong(
    kind: Kind,
    rules: u16,
    tokens: usize,
    first: &[u32],
    empty: &[u32],
    follow: &[u32],
    productive: &[u32],
    cost: &[u32],
    reached: &[u32],
) -> bool
    requires { (rules ≤ 512) × (tokens ≤ 512) }
    ensures { result ≡ kind_wrong (kind_of (kind_number kind) (tables first.now empty.now follow.now productive.now cost.now reached.now)) rules tokens (tables first.now empty.now follow.now productive.now cost.now reached.now) }
{
    match kind {
        First => table_wrong(rules, tokens, first.len()) | row_wrong(rules, empty.len()),
        Follow => follows::inner::wrong(
            rules,
            tokens,
            follow.len(),
            first.len(),
            empty.len(),
            reached.len(),
        ),
        Productive => row_wrong(rules, productive.len()),
        Cost => numbers_wrong(rules, cost.len()),
    }
}
