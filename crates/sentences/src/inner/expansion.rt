// Expansion: a rule expands its first choice, which expands the rules in it in turn; the grounded levels left fall. Each
// rule is expanded once: where its sentence has been written already, it is copied from there.
ghost use Rattle.grammar.specs.Lent.{flat_of};
ghost use Rattle.std.specs.Prelude.{◌+◌};
ghost use Rattle.std.proofs.Math.Seq.{slice};
ghost use Rattle.theory.specs.Levels.{filled, expanded};
ghost use Rattle.grammar.specs.Flat.{denoted, form};
ghost use Rattle.sentences.specs.Lent.{choices_of};
ghost use Rattle.tables.specs.Append.{Appended};
ghost use Rattle.sentences.specs.Expanding.{Copyable, RuleReady, ProductionReady, Wrote};

use engine::inner::cost::entry_at;
use grammar::Grammar;
use grammar::inner::start_at;

// In the list of where each rule's sentence begins: it is not written yet.
pub const NOT_WRITTEN: usize = 65535;

// Copies n tokens from place `from` on, all before place `at`, to place `at` on; the place after them.
fn copy(from: usize, n: usize, at: usize, out: &mut [u16]) -> usize
    requires { Copyable from n at out.old }
    ensures { Appended out.old at (slice from (from + n) out.old) out.new result }
{
    out.copy_within(from..from + n, at);
    at + n
}

// Writes rule r's sentence from place `at` on; the place after it. A rule with an empty sentence is passed over; one that
// has been written, by `begun`, is copied.
#[cycle(expand_production_expand_rule)]
pub fn expand_rule(
    g: &Grammar,
    choice: &[u16; 512],
    lengths: &[u32],
    levels: usize,
    r: usize,
    at: usize,
    begun: &mut [usize; 512],
    out: &mut [u16],
) -> usize
    requires { RuleReady (flat_of g.now) choice.now lengths.now levels r at begun.old out.old }
    ensures { Wrote (flat_of g.now) choice.now out.old at (expanded (denoted (flat_of g.now)) (choices_of choice.now) levels r) begun.new out.new result }
{
    let n = entry_at(lengths, r);
    if n == 0 {
        return at;
    }
    let from = begun[r];
    if from < NOT_WRITTEN {
        return copy(from, n as usize, at, out);
    }
    let p = usize::from(choice[r]);
    let a = start_at(g.starts, p);
    let e = start_at(g.starts, p + 1);
    let next = expand_production(g, choice, lengths, levels - 1, a, e, at, begun, out);
    begun[r] = at;
    next
}

// Writes what the symbols from a up to e stand for, left to right.
#[cycle(expand_production_expand_rule)]
fn expand_production(
    g: &Grammar,
    choice: &[u16; 512],
    lengths: &[u32],
    levels: usize,
    a: usize,
    e: usize,
    at: usize,
    begun: &mut [usize; 512],
    out: &mut [u16],
) -> usize
    requires { ProductionReady (flat_of g.now) choice.now lengths.now levels a e at begun.old out.old }
    ensures { Wrote (flat_of g.now) choice.now out.old at (filled (expanded (denoted (flat_of g.now)) (choices_of choice.now) levels) (form g.now.symbols.now a e)) begun.new out.new result }
{
    let mut next = at;
    for &s in &g.symbols[a..e] {
        if s < 32768 {
            out[next] = s;
            next += 1;
            continue;
        }
        let r = usize::from(s - 32768);
        next = expand_rule(g, choice, lengths, levels, r, next, begun, out);
    }
    next
}
