// FOLLOW: the walk from the right, and one production's step.
ghost use Rattle.grammar.specs.Lent.{flat_of};
ghost use Rattle.std.specs.Prelude.{◌&&◌, ◌||◌, ◌-◌, ◌<◌, length};
ghost use Rattle.theory.specs.Visits.{follow_back};
ghost use Rattle.grammar.specs.Flat.{form};
ghost use Rattle.rows.specs.Marks.{mark, marked, Raised};
ghost use Rattle.rows.specs.Tables.{row_view};
ghost use Rattle.tables.specs.Call.{Stepped};
ghost use Rattle.tables.specs.Sizes.{words};
ghost use Rattle.engine.specs.First.{lent as firsts, marks_of};
ghost use Rattle.engine.specs.Follow.{reads, table_of, Grown, Puts, Kept, Passable, Passes, Turnable, Turns, Walkable, FollowBecame, tail_back, Tailed, StepReady};
ghost use Rattle.engine.specs.Kinds.{follow};

use crate::inner::{Moved, Table, told};
use grammar::Grammar;
use grammar::inner::{Prod, prod_at};
use tables::inner::{row_width, table_width, turn_at};

// Joins to rule r's row the owner's, if all that follows vanishes, and then what was carried along.
fn put(g: &Grammar, owner: usize, r: usize, null: bool, ahead: &[u32], follow: &mut [u32]) -> bool
    requires { Puts (length g.now.costs.now) owner r ahead.now follow.old }
    ensures { Raised (length g.now.costs.now) (words (length g.now.costs.now)) follow.old follow.new r (λ t. (null && mark (words (length g.now.costs.now)) follow.old owner t) || mark (words (length g.now.costs.now)) ahead.now 0 t) result }
{
    let width = table_width(g);
    if null {
        let got = rows::inner::join(follow, width, g.costs.len(), owner, r);
        let also = rows::inner::join_from(follow, width, g.costs.len(), ahead, 0, r);
        return got | also;
    }
    rows::inner::join_from(follow, width, g.costs.len(), ahead, 0, r)
}

// Sets a row to zero, unless it is to be kept.
fn keep(row: &mut [u32], kept: bool)
    ensures { Kept row.old kept row.new }
{
    if kept {
        return;
    }
    rows::inner::clear(row, 0);
}

// Carries the row past rule r: its FIRST, and what lies after it only if r is marked EMPTY. Whether it
// is.
fn pass(g: &Grammar, r: usize, first: &[u32], empty: &[u32], ahead: &mut [u32]) -> bool
    requires { Passable g.now.rules (length g.now.costs.now) r (firsts first.now empty.now) ahead.old }
    ensures { Passes (length g.now.costs.now) (marks_of g.now.rules (length g.now.costs.now) (firsts first.now empty.now)) r ahead.old result ahead.new }
{
    let vanishes = rows::inner::is_set(empty, row_width(g), 0, r);
    keep(ahead, vanishes);
    rows::inner::join_from(ahead, table_width(g), g.costs.len(), first, r, 0);
    vanishes
}

// What a symbol's turn found: whether a mark is new, and whether all from it on vanishes.
#[derive(Clone, Copy)]
pub struct Passed {
    pub new: bool,
    pub null: bool,
}

// One symbol's turn: a rule gets what lies ahead of it, and the row is carried past the symbol.
fn one(
    g: &Grammar,
    owner: usize,
    s: u16,
    null: bool,
    first: &[u32],
    empty: &[u32],
    ahead: &mut [u32],
    follow: &mut [u32],
) -> Passed
    requires { Turnable g.now.rules (length g.now.costs.now) owner s (firsts first.now empty.now) ahead.old follow.old }
    ensures { Turns g.now.rules (length g.now.costs.now) owner (marks_of g.now.rules (length g.now.costs.now) (firsts first.now empty.now)) s null ahead.old follow.old result.new result.null ahead.new follow.new }
{
    if s < 32768 {
        rows::inner::clear(ahead, 0);
        rows::inner::set(ahead, table_width(g), 0, usize::from(s));
        return Passed {
            new: false,
            null: false,
        };
    }
    let r = usize::from(s - 32768);
    let got = put(g, owner, r, null, ahead, follow);
    let vanishes = pass(g, r, first, empty, ahead);
    Passed {
        new: got,
        null: vanishes & null,
    }
}

// The symbols of production q, from the right; `ahead` is the row that is carried along.
fn walk(
    g: &Grammar,
    q: Prod,
    first: &[u32],
    empty: &[u32],
    ahead: &mut [u32],
    follow: &mut [u32],
) -> bool
    requires { Walkable g.now.rules (length g.now.costs.now) g.now.symbols.now q.from q.to q.owner (firsts first.now empty.now) ahead.old follow.old }
    ensures { Grown g.now.rules (length g.now.costs.now) (words (length g.now.costs.now)) follow.old follow.new (follow_back (marks_of g.now.rules (length g.now.costs.now) (firsts first.now empty.now)) q.owner (form g.now.symbols.now q.from q.to) (table_of g.now.rules (length g.now.costs.now) follow.old)) result }
{
    let n = q.to - q.from;
    let mut new = false;
    let mut null = true;
    for i in 0..n {
        let s = g.symbols[q.from + turn_at(true, n, i)];
        let x = one(g, q.owner, s, null, first, empty, ahead, follow);
        new |= x.new;
        null = x.null;
    }
    new
}

// Joins the owner's row to the rules at the end of production q, from the right and as long as they
// vanish. Whether a mark is new.
fn tail(g: &Grammar, q: Prod, empty: &[u32], follow: &mut [u32]) -> bool
    requires { Tailed g.now.rules (length g.now.costs.now) g.now.symbols.now q.from q.to q.owner empty.now follow.old }
    ensures { Grown g.now.rules (length g.now.costs.now) (words (length g.now.costs.now)) follow.old follow.new (tail_back (row_view g.now.rules (words g.now.rules) empty.now) q.owner (form g.now.symbols.now q.from q.to) (table_of g.now.rules (length g.now.costs.now) follow.old)) result }
{
    let width = table_width(g);
    let row = row_width(g);
    let mut new = false;
    for &s in g.symbols[q.from..q.to].iter().rev() {
        if s < 32768 {
            return new;
        }
        let r = usize::from(s - 32768);
        let got = rows::inner::join(follow, width, g.costs.len(), q.owner, r);
        new |= got;
        if !rows::inner::is_set(empty, row, 0, r) {
            return new;
        }
    }
    new
}

// Production p's step, if its owner is marked reached: its symbols, from the right; where it is `fed`, so
// that each of its rules holds what lies ahead of it, only the owner's row at its end.
pub fn step(
    g: &Grammar,
    fed: bool,
    p: usize,
    follow: &mut [u32],
    first: &[u32],
    empty: &[u32],
    reached: &[u32],
) -> bool
    requires { StepReady (flat_of g.now) p fed (reads (firsts first.now empty.now) reached.now) follow.old }
    ensures { Stepped (FollowBecame (flat_of g.now) (reads (firsts first.now empty.now) reached.now) p follow.old) follow.old result follow.new }
{
    let q = prod_at(g, p);
    if !rows::inner::is_set(reached, row_width(g), 0, q.owner) {
        return false;
    }
    if fed {
        return tail(g, q, empty, follow);
    }
    let width = table_width(g);
    let mut ahead: [u32; 16] = [0; 16];
    walk(g, q, first, empty, &mut ahead[..width], follow)
}

// FOLLOW, as the rounds see it, with what its steps read.
#[derive(Clone, Copy)]
pub struct Follow<'a> {
    pub first: &'a [u32],
    pub empty: &'a [u32],
    pub reached: &'a [u32],
}

impl<'a> Table for Follow<'a> {
    ghost kind = { λ f. follow (reads (firsts f.first.now f.empty.now) f.reached.now) };

    fn step(
        &self,
        g: &Grammar,
        again: bool,
        p: usize,
        table: &mut [u32],
        row: &mut [u32],
        read: &mut [bool; 512],
    ) -> Moved {
        told(step(g, again, p, table, self.first, self.empty, self.reached))
    }
}
