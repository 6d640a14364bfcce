// FIRST and EMPTY: the walk, and one production's step.
ghost use Rattle.grammar.specs.Lent.{flat_of};
ghost use Rattle.std.specs.Prelude.{◌≡◌, ◌+◌, length};
ghost use Rattle.grammar.specs.Flat.{at, form};
ghost use Rattle.tables.specs.Call.{Stepped};
ghost use Rattle.engine.specs.First.{lent, Walkable, Walks, Ready, FirstBecame, plain, Stretches};
ghost use Rattle.engine.specs.Kinds.{first};

use crate::inner::{Moved, Table, told};
use grammar::Grammar;
use grammar::inner::{Prod, prod_at, start_at};
use tables::inner::{row_width, table_width};

// What a walk found: whether a mark is new, and whether it passed the end.
#[derive(Clone, Copy)]
pub struct Walked {
    pub new: bool,
    pub past: bool,
}

// Walks the symbols of production q from the left: marks a token for the owner and stops, joins a rule's
// marks and goes on only if that rule is marked EMPTY.
fn walk(g: &Grammar, q: Prod, first: &mut [u32], empty: &[u32]) -> Walked
    requires { Walkable g.now.rules (length g.now.costs.now) g.now.symbols.now q.from q.to q.owner (lent first.old empty.now) }
    ensures { Walks g.now.rules (length g.now.costs.now) g.now.symbols.now q.from q.to q.owner (lent first.old empty.now) first.old result.new result.past first.new }
{
    let width = table_width(g);
    let row = row_width(g);
    let mut new = false;
    for &s in &g.symbols[q.from..q.to] {
        if s < 32768 {
            let got = rows::inner::set(first, width, q.owner, usize::from(s));
            return Walked {
                new: new | got,
                past: false,
            };
        }
        let r = usize::from(s - 32768);
        let got = rows::inner::join(first, width, g.costs.len(), r, q.owner);
        new |= got;
        if !rows::inner::is_set(empty, row, 0, r) {
            return Walked { new, past: false };
        }
    }
    Walked { new, past: true }
}

// Production p's step: its walk for its owner, which is marked EMPTY past the end. Slices, which make it at each turn of their
// loop, take up to half as long again where it is a call.
#[inline(always)]
pub fn step(g: &Grammar, p: usize, first: &mut [u32], empty: &mut [u32]) -> bool
    requires { Ready (flat_of g.now) p (lent first.old empty.old) }
    ensures { Stepped (FirstBecame (flat_of g.now) p (lent first.old empty.old)) (lent first.old empty.old) result (lent first.new empty.new) }
{
    let q = prod_at(g, p);
    let w = walk(g, q, first, empty);
    if w.past {
        let got = rows::inner::set(empty, row_width(g), 0, q.owner);
        return w.new | got;
    }
    w.new
}

// Whether production p is empty or begins with a token: its step reads no mark, and once made changes
// nothing again.
pub fn is_plain(g: &Grammar, p: usize) -> bool
    requires { Stretches g.now.starts.now g.now.symbols.now p }
    ensures { result ≡ plain (form g.now.symbols.now (at g.now.starts.now p) (at g.now.starts.now (p + 1))) }
{
    let a = start_at(g.starts, p);
    let e = start_at(g.starts, p + 1);
    if e <= a {
        return true;
    }
    g.symbols[a] < 32768
}

// FIRST and EMPTY, as the rounds see them.
#[derive(Clone, Copy)]
pub struct First;

impl Table for First {
    ghost kind = { λ _. first };

    fn step(
        &self,
        g: &Grammar,
        again: bool,
        p: usize,
        table: &mut [u32],
        row: &mut [u32],
        read: &mut [bool; 512],
    ) -> Moved {
        if again && is_plain(g, p) {
            return told(false);
        }
        told(step(g, p, table, row))
    }
}
