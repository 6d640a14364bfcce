// Number k of a rule: found by turning the places of its cheapest productions, measured, and written.
ghost use Rattle.grammar.specs.Lent.{flat_of};
ghost use Rattle.std.specs.Prelude.{◌≡◌, min, length};
ghost use Rattle.theory.specs.Entries.{length_long};
ghost use Rattle.sentences.specs.Expanding.{Wrote};
ghost use Rattle.listings.specs.Numbers.{PlacesReady, Places, NumberReady, Finds, RuleMeasurable, ProductionMeasurable, RuleWritable, ProductionWritable, rule_words, production_words};

use costs::inner::add;
use engine::inner::cost::entry_at;
use grammar::Grammar;
use grammar::inner::start_at;
use odometer::inner::show;
use sentences::inner::choices::cheapest_from;
use sentences::inner::expansion::expand_rule;

// The places of the symbols from a up to e that have a choice: how many, and in `bases` how many choices each has.
fn places(symbols: &[u16], a: usize, e: usize, counts: &[u32], bases: &mut [u32; 16]) -> usize
    requires { PlacesReady symbols.now a e counts.now bases.old }
    ensures { Places symbols.now a e counts.now result bases.new }
{
    let mut m: usize = 0;
    for &s in &symbols[a..e] {
        if s < 32768 {
            continue;
        }
        let n = entry_at(counts, usize::from(s - 32768));
        if n == 1 {
            continue;
        }
        bases[m] = n;
        m += 1;
    }
    m
}

// Number k of rule r: the cheapest production that has it, and in `todo` its choice for each place that has one.
fn find(
    g: &Grammar,
    next: &[u16; 4096],
    cost: &[u32],
    choice: &[u16; 512],
    counts: &[u32],
    levels: usize,
    r: usize,
    k: u32,
    todo: &mut [u32; 16],
) -> usize
    requires { NumberReady (flat_of g.now) next.now cost.now choice.now counts.now levels r k todo.old }
    ensures { Finds (flat_of g.now) cost.now counts.now levels r k result todo.new }
{
    let mut p = usize::from(choice[r]);
    let mut left = k;
    loop {
        let mut bases = [1; 16];
        let a = start_at(g.starts, p);
        let e = start_at(g.starts, p + 1);
        let m = places(g.symbols, a, e, counts, &mut bases);
        let Some(rest) = show(&bases, m, left, todo) else {
            return p;
        };
        left = rest;
        let after = usize::from(next[p]);
        p = cheapest_from(g, next, cost, r, after);
    }
}

// The token count of what the symbols from a up to e stand for with the choices `todo`, long if above 65535.
#[cycle(length_production_length_rule)]
fn length_production(
    g: &Grammar,
    next: &[u16; 4096],
    cost: &[u32],
    choice: &[u16; 512],
    lengths: &[u32],
    counts: &[u32],
    levels: usize,
    a: usize,
    e: usize,
    todo: &[u32; 16],
) -> u32
    requires { ProductionMeasurable (flat_of g.now) next.now cost.now choice.now lengths.now counts.now levels a e todo.now }
    ensures { result ≡ min (length (production_words (flat_of g.now) cost.now counts.now levels a e todo.now)) length_long }
{
    let mut n: u32 = 0;
    let mut j: usize = 0;
    for &s in &g.symbols[a..e] {
        if s < 32768 {
            n = add(n, 1);
            continue;
        }
        let r = usize::from(s - 32768);
        if entry_at(counts, r) == 1 {
            n = add(n, entry_at(lengths, r));
            continue;
        }
        let x = length_rule(g, next, cost, choice, lengths, counts, levels, r, todo[j]);
        n = add(n, x);
        j += 1;
    }
    n
}

// The token count of number k of rule r, long if above 65535.
#[cycle(length_production_length_rule)]
pub fn length_rule(
    g: &Grammar,
    next: &[u16; 4096],
    cost: &[u32],
    choice: &[u16; 512],
    lengths: &[u32],
    counts: &[u32],
    levels: usize,
    r: usize,
    k: u32,
) -> u32
    requires { RuleMeasurable (flat_of g.now) next.now cost.now choice.now lengths.now counts.now levels r k }
    ensures { result ≡ min (length (rule_words (flat_of g.now) cost.now levels r k)) length_long }
{
    if k == 0 {
        return entry_at(lengths, r);
    }
    let mut todo = [0; 16];
    let p = find(g, next, cost, choice, counts, levels - 1, r, k, &mut todo);
    let a = start_at(g.starts, p);
    let e = start_at(g.starts, p + 1);
    length_production(
        g,
        next,
        cost,
        choice,
        lengths,
        counts,
        levels - 1,
        a,
        e,
        &todo,
    )
}

// Writes what the symbols from a up to e stand for with the choices `todo`, from place `at` on; the place after it. By
// `begun` sentences that were written are copied.
#[cycle(write_production_write_rule)]
fn write_production(
    g: &Grammar,
    next: &[u16; 4096],
    cost: &[u32],
    choice: &[u16; 512],
    lengths: &[u32],
    counts: &[u32],
    levels: usize,
    a: usize,
    e: usize,
    todo: &[u32; 16],
    at: usize,
    begun: &mut [usize; 512],
    out: &mut [u16],
) -> usize
    requires { ProductionWritable (flat_of g.now) next.now cost.now choice.now lengths.now counts.now levels a e todo.now at begun.old out.old }
    ensures { Wrote (flat_of g.now) choice.now out.old at (production_words (flat_of g.now) cost.now counts.now levels a e todo.now) begun.new out.new result }
{
    let mut to = at;
    let mut j: usize = 0;
    for &s in &g.symbols[a..e] {
        if s < 32768 {
            out[to] = s;
            to += 1;
            continue;
        }
        let r = usize::from(s - 32768);
        if entry_at(counts, r) == 1 {
            to = expand_rule(g, choice, lengths, levels, r, to, begun, out);
            continue;
        }
        to = write_rule(
            g, next, cost, choice, lengths, counts, levels, r, todo[j], to, begun, out,
        );
        j += 1;
    }
    to
}

// Writes number k of rule r from place `at` on; the place after it. Number 0 is the sentence by first choices.
#[cycle(write_production_write_rule)]
pub fn write_rule(
    g: &Grammar,
    next: &[u16; 4096],
    cost: &[u32],
    choice: &[u16; 512],
    lengths: &[u32],
    counts: &[u32],
    levels: usize,
    r: usize,
    k: u32,
    at: usize,
    begun: &mut [usize; 512],
    out: &mut [u16],
) -> usize
    requires { RuleWritable (flat_of g.now) next.now cost.now choice.now lengths.now counts.now levels r k at begun.old out.old }
    ensures { Wrote (flat_of g.now) choice.now out.old at (rule_words (flat_of g.now) cost.now levels r k) begun.new out.new result }
{
    if k == 0 {
        return expand_rule(g, choice, lengths, levels, r, at, begun, out);
    }
    let mut todo = [0; 16];
    let p = find(g, next, cost, choice, counts, levels - 1, r, k, &mut todo);
    let a = start_at(g.starts, p);
    let e = start_at(g.starts, p + 1);
    write_production(
        g,
        next,
        cost,
        choice,
        lengths,
        counts,
        levels - 1,
        a,
        e,
        &todo,
        at,
        begun,
        out,
    )
}
