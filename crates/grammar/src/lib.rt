// The flat grammar: its check, and its productions by number. From grammar.rs and idxnewtype.rs.
#![tactic(auto)]

pub mod inner;
mod lists;
mod refusal;

ghost use Rattle.std.specs.Prelude.{◌≡◌, false, ◌&&◌, ◌||◌, ℕ, ◌+◌, ◌≤◌, ◌<◌, leb, ltb, length, get_or};
ghost use Rattle.grammar.specs.Flat.{flat, at};
ghost use Rattle.grammar.specs.Refusals.{falls, starts_wrong, owner_out, owns, rule_unowned, symbols_out, one_rule, start_long, start_held, start_wrong};
ghost use Rattle.grammar.specs.Well.{Laid};
ghost use Rattle.grammar.specs.Production.{check_of, production_of, length_of, Front, Produces};
ghost use Rattle.grammar.specs.Lent.{flat_of, outcome_of};

use crate::inner::{sizes_out, start_at};
pub use lists::Grammar;
pub use refusal::Refusal;

// A rule's, a production's and a token's number, as the source keeps them apart.
#[derive(Clone, Copy)]
pub struct RIdx(pub u16);

#[derive(Clone, Copy)]
pub struct PIdx(pub u16);

#[derive(Clone, Copy)]
pub struct TIdx(pub u16);

fn starts_fall(starts: &[u16], prods: usize) -> bool
    requires { prods < length starts.now }
    ensures { result ≡ falls prods starts.now }
{
    let mut falls = false;
    for p in 0..prods {
        falls |= starts[p + 1] < starts[p];
    }
    falls
}

// Refusal 2. The starts may be any list, the empty one included.
fn starts_wrong(starts: &[u16], prods: usize, symbols: usize) -> bool
    requires { prods ≤ 4096 }
    ensures { result ≡ starts_wrong prods symbols starts.now }
{
    if starts.len() != prods + 1 {
        return true;
    }
    if starts[0] != 0 {
        return true;
    }
    if start_at(starts, prods) != symbols {
        return true;
    }
    starts_fall(starts, prods)
}

// Refusal 3.
fn owner_out(rules: u16, owners: &[u16]) -> bool
    ensures { result ≡ owner_out rules owners.now }
{
    let mut out = false;
    for owner in owners {
        out |= rules <= *owner;
    }
    out
}

// Which rules own a production: one pass, so that refusal 4 needs no scan of all productions for
// each rule.
fn owned_rules(owners: &[u16]) -> [bool; 512]
    requires { owner_out 512 owners.now ≡ false }
    ensures { (k : ℕ) → k < 512 → get_or result k false ≡ owns owners.now k }
{
    let mut owned = [false; 512];
    for owner in owners {
        owned[usize::from(*owner)] = true;
    }
    owned
}

// Refusal 4, once 1 and 3 are not due.
fn rule_unowned(rules: u16, owners: &[u16]) -> bool
    requires { (rules ≤ 512) × (owner_out rules owners.now ≡ false) }
    ensures { result ≡ rule_unowned rules owners.now }
{
    let owned = owned_rules(owners);
    for r in 0..rules as usize {
        if !owned[r] {
            return true;
        }
    }
    false
}

// Whether a symbol is a token from `eof` on or a rule from `top` on.
fn symbol_out(eof: u16, top: u16, symbol: u16) -> bool
    ensures { result ≡ (leb top symbol || (leb eof symbol && ltb symbol 32768)) }
{
    (top <= symbol) | ((eof <= symbol) & (symbol < 32768))
}

// Refusal 5, once 1 is not due.
fn symbols_out(rules: u16, tokens: usize, symbols: &[u16]) -> bool
    requires { (rules ≤ 512) × (0 < tokens) × (tokens ≤ 512) }
    ensures { result ≡ symbols_out rules tokens symbols.now }
{
    let eof = (tokens - 1) as u16;
    let top = 32768 + rules;
    let mut out = false;
    for symbol in symbols {
        out |= symbol_out(eof, top, *symbol);
    }
    out
}

// Whether production p is one rule symbol.
fn one_rule(starts: &[u16], symbols: &[u16], p: usize) -> bool
    requires { (p + 1 < length starts.now) × (at starts.now (p + 1) ≤ length symbols.now) }
    ensures { result ≡ one_rule starts.now symbols.now p }
{
    let a = start_at(starts, p);
    let e = start_at(starts, p + 1);
    if e != a + 1 {
        return false;
    }
    32768 <= symbols[a]
}

fn start_long(owners: &[u16], starts: &[u16], symbols: &[u16]) -> bool
    requires { Laid (length owners.now) (length symbols.now) starts.now }
    ensures { result ≡ start_long owners.now starts.now symbols.now }
{
    for (p, owner) in owners.iter().enumerate() {
        if *owner == 0 && !one_rule(starts, symbols, p) {
            return true;
        }
    }
    false
}

fn start_held(symbols: &[u16]) -> bool
    ensures { result ≡ start_held symbols.now }
{
    symbols.contains(&32768)
}

// Refusal 6, once 2 is not due.
fn start_wrong(owners: &[u16], starts: &[u16], symbols: &[u16]) -> bool
    requires { Laid (length owners.now) (length symbols.now) starts.now }
    ensures { result ≡ start_wrong owners.now starts.now symbols.now }
{
    if start_long(owners, starts, symbols) {
        return true;
    }
    start_held(symbols)
}

// The check of the lists, which come one by one: so the compiler sees all that it reads, and a loop that makes the check of
// one grammar at each turn makes it once.
#[inline(never)]
fn check_lists(
    rules: u16,
    owners: &[u16],
    starts: &[u16],
    symbols: &[u16],
    costs: &[u8],
) -> Result<(), Refusal>
    ensures { outcome_of result ≡ check_of (flat rules owners.now starts.now symbols.now costs.now) }
{
    if sizes_out(rules as usize, costs.len(), owners.len(), symbols.len()) {
        return Err(Refusal::Sizes);
    }
    if starts_wrong(starts, owners.len(), symbols.len()) {
        return Err(Refusal::Starts);
    }
    if owner_out(rules, owners) {
        return Err(Refusal::Owner);
    }
    if rule_unowned(rules, owners) {
        return Err(Refusal::Unowned);
    }
    if symbols_out(rules, costs.len(), symbols) {
        return Err(Refusal::Symbol);
    }
    if start_wrong(owners, starts, symbols) {
        return Err(Refusal::Start);
    }
    Ok(())
}

// The lowest refusal due of 1 to 6, or that the grammar is well-formed. Each list is passed a few times, none once for each rule.
#[inline(always)]
pub fn check(g: &Grammar) -> Result<(), Refusal>
    ensures { outcome_of result ≡ check_of (flat_of g.now) }
{
    check_lists(g.rules, g.owners, g.starts, g.symbols, g.costs)
}

// The list's empty start.
fn empty_start<'a>(symbols: &'a [u16]) -> &'a [u16]
    ensures { Front symbols.entry.ref_ptr result.ref_ptr result.now }
{
    &symbols[..0]
}

// Production `prod` as a part of the caller's own symbol list; its empty start where `production_len` refuses.
pub fn production<'a, 's>(g: &Grammar<'a, 's>, prod: PIdx) -> &'s [u16]
    ensures { Produces (flat_of g.now) prod.0 g.now.symbols.ref_ptr result.ref_ptr result.now }
{
    let Ok(()) = check(g) else {
        return empty_start(g.symbols);
    };
    let p = usize::from(prod.0);
    if g.owners.len() <= p {
        return empty_start(g.symbols);
    }
    let a = start_at(g.starts, p);
    let e = start_at(g.starts, p + 1);
    &g.symbols[a..e]
}

// The length of production `prod`, or the refusal: 1 to 6, 11.
pub fn production_len(g: &Grammar, prod: PIdx) -> Result<usize, Refusal>
    ensures { outcome_of result ≡ length_of (production_of (flat_of g.now) prod.0) }
{
    check(g)?;
    let p = usize::from(prod.0);
    if g.owners.len() <= p {
        return Err(Refusal::Prod);
    }
    let a = start_at(g.starts, p);
    let e = start_at(g.starts, p + 1);
    Ok(e - a)
}
