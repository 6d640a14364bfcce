// Lengths: the token count of each rule's sentence, by rounds over the rules until one changes nothing.
ghost use Rattle.grammar.specs.Lent.{flat_of};
ghost use Rattle.std.specs.Prelude.{◌≡◌};
ghost use Rattle.grammar.specs.Flat.{form};
ghost use Rattle.tables.specs.Call.{Stepped};
ghost use Rattle.engine.specs.Cost.{Part};
ghost use Rattle.sentences.specs.Lent.{lengths_of};
ghost use Rattle.sentences.specs.Measuring.{count_of, SymbolCounted, Countable, LengthReady, LengthBecame, LengthBegun, LengthRounds, LengthSettled, LengthFillable, LengthsBy};

use crate::{LENGTH_LONG, LENGTH_NONE};
use costs::inner::add;
use engine::inner::cost::entry_at;
use grammar::Grammar;
use grammar::inner::start_at;
use tables::inner::turn_at;

// What symbol s adds: a token 1, a rule its entry.
fn symbol_length(lengths: &[u32], s: u16) -> u32
    requires { SymbolCounted lengths.now s }
    ensures { Part (λ t. 1) (lengths_of lengths.now) s result }
{
    if s < 32768 {
        return 1;
    }
    entry_at(lengths, usize::from(s - 32768))
}

// The token count of the symbols from a up to e, long if above 65535, none if some rule's is not known.
fn count(symbols: &[u16], a: usize, e: usize, lengths: &[u32]) -> u32
    requires { Countable symbols.now a e lengths.now }
    ensures { result ≡ count_of lengths.now (form symbols.now a e) }
{
    let mut n: u32 = 0;
    for &s in &symbols[a..e] {
        let x = symbol_length(lengths, s);
        if LENGTH_LONG < x {
            return LENGTH_NONE;
        }
        n = add(n, x);
    }
    n
}

// Rule r's step: its entry becomes the count of its first choice, if that is known.
fn length_step(g: &Grammar, choice: &[u16; 512], r: usize, lengths: &mut [u32]) -> bool
    requires { LengthReady (flat_of g.now) choice.now r lengths.old }
    ensures { Stepped (LengthBecame (flat_of g.now) choice.now r lengths.old) lengths.old result lengths.new }
{
    let p = usize::from(choice[r]);
    if 4096 <= p {
        return false;
    }
    let n = count(
        g.symbols,
        start_at(g.starts, p),
        start_at(g.starts, p + 1),
        lengths,
    );
    let old = entry_at(lengths, r);
    if (n <= LENGTH_LONG) & (n != old) {
        lengths[r] = n;
        return true;
    }
    false
}

// One round, each rule once; whether something changed.
fn length_round(g: &Grammar, choice: &[u16; 512], down: bool, lengths: &mut [u32]) -> bool
    requires { LengthBegun (flat_of g.now) choice.now lengths.old }
    ensures { LengthRounds (flat_of g.now) choice.now down lengths.old result lengths.new }
{
    let n = usize::from(g.rules);
    let mut changed = false;
    for i in 0..n {
        let r = turn_at(down, n, i);
        changed |= length_step(g, choice, r, lengths);
    }
    changed
}

// Rounds until one changes nothing: one up, the next down.
fn length_settle(g: &Grammar, choice: &[u16; 512], lengths: &mut [u32])
    requires { LengthBegun (flat_of g.now) choice.now lengths.old }
    ensures { LengthSettled (flat_of g.now) choice.now lengths.old lengths.new }
{
    let mut down = false;
    let mut changed = true;
    while changed {
        changed = length_round(g, choice, down, lengths);
        down = !down;
    }
}

// Leaves the lengths in numbers of their count.
pub fn length_fill(g: &Grammar, choice: &[u16; 512], lengths: &mut [u32])
    requires { LengthFillable (flat_of g.now) choice.now lengths.old }
    ensures { LengthsBy (flat_of g.now) choice.now lengths.new }
{
    rows::inner::clear(lengths, LENGTH_NONE);
    length_settle(g, choice, lengths);
}
