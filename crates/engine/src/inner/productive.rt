// PRODUCTIVE: one production's step.
ghost use Rattle.grammar.specs.Lent.{flat_of};
ghost use Rattle.std.specs.Prelude.{◌≡◌, ◌+◌, ◌<◌, length};
ghost use Rattle.theory.specs.Visits.{all_marked};
ghost use Rattle.grammar.specs.Flat.{form};
ghost use Rattle.tables.specs.Call.{Stepped};
ghost use Rattle.engine.specs.Productive.{row_of, symbol_marked, SymbolReady, Marking, RowReady, ProductiveBecame};
ghost use Rattle.engine.specs.Kinds.{productive};

use crate::inner::{Moved, Table, told};
use grammar::Grammar;
use grammar::inner::{Prod, prod_at};
use tables::inner::row_width;

// Whether symbol s is a token or a rule that is marked.
fn symbol_marked(g: &Grammar, productive: &[u32], s: u16) -> bool
    requires { SymbolReady g.now.rules productive.now s }
    ensures { result ≡ symbol_marked g.now.rules productive.now s }
{
    if s < 32768 {
        return true;
    }
    rows::inner::is_set(productive, row_width(g), 0, usize::from(s - 32768))
}

// Whether every rule in production q is marked.
fn all_marked(g: &Grammar, q: Prod, productive: &[u32]) -> bool
    requires { Marking g.now.rules (length g.now.costs.now) g.now.symbols.now q.from q.to productive.now }
    ensures { result ≡ all_marked (row_of g.now.rules productive.now) (form g.now.symbols.now q.from q.to) }
{
    g.symbols[q.from..q.to]
        .iter()
        .all(|&s| symbol_marked(g, productive, s))
}

// Production p's step of PRODUCTIVE: the owner is marked if every rule in the production is.
pub fn step(g: &Grammar, p: usize, productive: &mut [u32]) -> bool
    requires { RowReady (flat_of g.now) p productive.old }
    ensures { Stepped (ProductiveBecame (flat_of g.now) p productive.old) productive.old result productive.new }
{
    let q = prod_at(g, p);
    if !all_marked(g, q, productive) {
        return false;
    }
    rows::inner::set(productive, row_width(g), 0, q.owner)
}

// PRODUCTIVE, as the rounds see it.
#[derive(Clone, Copy)]
pub struct Productive;

impl Table for Productive {
    ghost kind = { λ _. productive };

    fn step(
        &self,
        g: &Grammar,
        again: bool,
        p: usize,
        table: &mut [u32],
        row: &mut [u32],
        read: &mut [bool; 512],
    ) -> Moved {
        told(step(g, p, table))
    }
}
