// The profile below the public call: what each production may start with, the least clash.
ghost use Rattle.grammar.specs.Lent.{flat_of};
ghost use Rattle.std.specs.Prelude.{Some, ◌&&◌, ◌≡◌, ◌≤◌, ◌<◌, ltb, length};
ghost use Rattle.theory.specs.Below.{FirstBelow};
ghost use Rattle.theory.specs.Clashes.{pair_of};
ghost use Rattle.grammar.specs.Flat.{denoted};
ghost use Rattle.rows.specs.Marks.{mark};
ghost use Rattle.engine.specs.First.{lent as firsts, marks_of};
ghost use Rattle.engine.specs.Follow.{table_of};
ghost use Rattle.profiles.specs.Rows.{row_words, Walkable, Walked, Readable, Rowable, RowIs, LeastIs, Turnable, Turns, Pairable, LeastShared};
ghost use Rattle.profiles.specs.Calls.{Judgeable, Clashing, Judging};

use crate::Clash;
use grammar::inner::{prod_at, start_at};
use grammar::{Grammar, PIdx, RIdx, TIdx};
use tables::inner::words_for;

// The words of a production's row: a mark for each of 512 tokens, and one for the place of T.
const ROW: usize = 17;

// The words of 512 rows.
const ROWS: usize = 8704;

// Walks the symbols from a up to e from the left: marks a token in the row and stops, joins a rule's FIRST
// and goes on only if that rule is marked EMPTY. Whether it passed the end.
fn walk(
    rules: usize,
    tokens: usize,
    symbols: &[u16],
    a: usize,
    e: usize,
    first: &[u32],
    empty: &[u32],
    row: &mut [u32; ROW],
) -> bool
    requires { Walkable rules tokens symbols.now a e (firsts first.now empty.now) row.old }
    ensures { Walked rules tokens symbols.now a e (firsts first.now empty.now) row.old result row.new }
{
    let width = words_for(tokens);
    let line = words_for(rules);
    for &s in &symbols[a..e] {
        if s < 32768 {
            rows::inner::set(row, width, 0, usize::from(s));
            return false;
        }
        let r = usize::from(s - 32768);
        rows::inner::join_from(row, width, tokens, first, r, 0);
        if !rows::inner::is_set(empty, line, 0, r) {
            return false;
        }
    }
    true
}

// Production p's row: what it may start with, FOLLOW of its owner added where it can vanish, and in the place
// of T whether it can.
fn starts_row(g: &Grammar, p: usize, follow: &[u32], first: &[u32], empty: &[u32]) -> [u32; ROW]
    requires { Rowable (flat_of g.now) (firsts first.now empty.now) follow.now p }
    ensures { RowIs (flat_of g.now) (firsts first.now empty.now) follow.now p result }
{
    let n = usize::from(g.rules);
    let t = g.costs.len();
    let q = prod_at(g, p);
    let mut row: [u32; ROW] = [0; ROW];
    if !walk(n, t, g.symbols, q.from, q.to, first, empty, &mut row) {
        return row;
    }
    rows::inner::join_from(&mut row, words_for(t), t, follow, q.owner, 0);
    rows::inner::set(&mut row, ROW, 0, t);
    row
}

// A rule that has a clash, and its lowest production that has one.
#[derive(Clone, Copy)]
pub struct Low {
    pub rule: usize,
    pub lower: usize,
}

// Production p's turn, going down: whether its row shares a mark with what stands above it of its rule, to
// which the row is then joined; and the least clash so far, None before the first.
fn turn(
    g: &Grammar,
    p: usize,
    low: Option<Low>,
    follow: &[u32],
    first: &[u32],
    empty: &[u32],
    above: &mut [u32; ROWS],
) -> Option<Low>
    requires { Turnable (flat_of g.now) (firsts first.now empty.now) follow.now p low above.old }
    ensures { Turns (flat_of g.now) (firsts first.now empty.now) follow.now p result above.new }
{
    let r = start_at(g.owners, p);
    let row = starts_row(g, p, follow, first, empty);
    let hit = rows::inner::meets(&row, 0, above, r, ROW);
    rows::inner::join_from(above, ROW, g.costs.len() + 1, &row, 0, r);
    if hit & low.is_none_or(|least| r <= least.rule) {
        return Some(Low { rule: r, lower: p });
    }
    low
}

// The least rule and lower production of a clash, None where there is none: the productions from the last down, so
// that the last one found is the lowest.
fn lowest(g: &Grammar, follow: &[u32], first: &[u32], empty: &[u32]) -> Option<Low>
    requires { Readable (flat_of g.now) (firsts first.now empty.now) follow.now }
    ensures { LeastIs (flat_of g.now) (firsts first.now empty.now) follow.now 0 result }
{
    let mut above: [u32; ROWS] = [0; ROWS];
    let mut low = None;
    for p in (0..g.owners.len()).rev() {
        low = turn(g, p, low, follow, first, empty, &mut above);
    }
    low
}

// Whether production q, above p, is one of p's rule and clashes with p, which has this row.
fn pairs(
    g: &Grammar,
    p: usize,
    row: &[u32; ROW],
    q: usize,
    follow: &[u32],
    first: &[u32],
    empty: &[u32],
) -> bool
    requires { Pairable (flat_of g.now) (firsts first.now empty.now) follow.now p row.now q }
    ensures { result ≡ pair_of (denoted (flat_of g.now)) (marks_of g.now.rules (length g.now.costs.now) (firsts first.now empty.now)) (table_of g.now.rules (length g.now.costs.now) follow.now) p q }
{
    if g.owners[q] != g.owners[p] {
        return false;
    }
    let other = starts_row(g, q, follow, first, empty);
    rows::inner::meets(row, 0, &other, 0, ROW)
}

// The lowest production above p that clashes with it; P where there is none.
fn higher(g: &Grammar, p: usize, follow: &[u32], first: &[u32], empty: &[u32]) -> usize
    requires { Rowable (flat_of g.now) (firsts first.now empty.now) follow.now p }
    ensures { FirstBelow (pair_of (denoted (flat_of g.now)) (marks_of g.now.rules (length g.now.costs.now) (firsts first.now empty.now)) (table_of g.now.rules (length g.now.costs.now) follow.now) p) (length g.now.owners.now) (ltb result (length g.now.owners.now)) result }
{
    let row = starts_row(g, p, follow, first, empty);
    for q in p + 1..g.owners.len() {
        if pairs(g, p, &row, q, follow, first, empty) {
            return q;
        }
    }
    g.owners.len()
}

// The least token that two rows share; T where there is none.
fn least_shared(tokens: usize, one: &[u32; ROW], other: &[u32; ROW]) -> usize
    requires { tokens ≤ 512 }
    ensures upto { result ≤ tokens }
    ensures first { FirstBelow (λ t. mark row_words one.now 0 t && mark row_words other.now 0 t) tokens (ltb result tokens) result }
{
    for t in 0..tokens {
        if rows::inner::is_set(one, ROW, 0, t) & rows::inner::is_set(other, ROW, 0, t) {
            return t;
        }
    }
    tokens
}

// The least token that productions p and q may both start with; T where there is none.
fn shared(g: &Grammar, p: usize, q: usize, follow: &[u32], first: &[u32], empty: &[u32]) -> usize
    requires { Rowable (flat_of g.now) (firsts first.now empty.now) follow.now p × Rowable (flat_of g.now) (firsts first.now empty.now) follow.now q }
    ensures { LeastShared (flat_of g.now) (firsts first.now empty.now) follow.now p q result }
{
    let row = starts_row(g, p, follow, first, empty);
    let other = starts_row(g, q, follow, first, empty);
    least_shared(g.costs.len(), &row, &other)
}

// The least clash, whose rule and lower production are found.
fn clash(g: &Grammar, low: Low, follow: &[u32], first: &[u32], empty: &[u32]) -> Clash
    requires { Clashing (flat_of g.now) (firsts first.now empty.now) follow.now low.rule low.lower }
    ensures { Judging (flat_of g.now) (Some result) }
{
    let q = higher(g, low.lower, follow, first, empty);
    let t = shared(g, low.lower, q, follow, first, empty);
    Clash {
        rule: RIdx(low.rule as u16),
        lower: PIdx(low.lower as u16),
        higher: PIdx(q as u16),
        token: TIdx(t as u16),
    }
}

// The verdict by finished tables: None where the grammar passes.
pub fn judge(g: &Grammar, follow: &[u32], first: &[u32], empty: &[u32]) -> Option<Clash>
    requires { Judgeable (flat_of g.now) (firsts first.now empty.now) follow.now }
    ensures { Judging (flat_of g.now) result }
{
    let low = lowest(g, follow, first, empty)?;
    Some(clash(g, low, follow, first, empty))
}
