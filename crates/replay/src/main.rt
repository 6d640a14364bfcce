// Replays stored answers of the Rust. Standard input has grammars as decimal numbers, each with one byte behind it:
// how many there are; then of each
//
//     R T P N, P owners, P+1 starts, N symbols, T token costs, R numbers: what is asked of each rule
//
// where 1 asks for the rule's cost too, 2 for its cost and its sentence, and 3 for its sentence alone, which the Rust
// may give where its costs never return. What is printed of them is held to the answers that the Rust gave, in the file
// `stdout`; tools/replay.py made both files, and says how.
#![tactic(auto)]

ghost use Rattle.std.specs.Prelude.{◌≤◌, length};

use grammar::{Grammar, PIdx, RIdx, Refusal, TIdx};
use std::io;
use std::io::Read;
use tables::inner::{table_words, words_for};

// The limits of a grammar: R and T, P, N.
const RULES: usize = 512;

const TOKENS: usize = 512;

const PRODS: usize = 4096;

const SYMBOLS: usize = 16384;

// The words of a row by rule and of FIRST, at the limits.
const ROW: usize = 16;

const ROWS: usize = 512 * 16;

// Room for a sentence.
const SENTENCE: usize = 1024;

// The next byte, 0 at the end.
fn byte(input: &mut impl Read) -> io::Result<u8> {
    input.by_ref().bytes().next().unwrap_or(Ok(0))
}

// The next number: its digits, five at most, and the byte behind them.
fn number(input: &mut impl Read) -> io::Result<u16> {
    let mut n: u16 = 0;
    for _ in 0..6 {
        let b = byte(input)?;
        if b < b'0' {
            break;
        }
        n = n.wrapping_mul(10).wrapping_add(u16::from(b - b'0'));
    }
    Ok(n)
}

fn narrow(n: usize) -> u16 {
    u16::try_from(n).unwrap_or(u16::MAX)
}

fn read_numbers(input: &mut impl Read, list: &mut [u16]) -> io::Result<()> {
    for x in list.iter_mut() {
        *x = number(input)?;
    }
    Ok(())
}

fn read_bytes(input: &mut impl Read, list: &mut [u8]) -> io::Result<()> {
    for x in list.iter_mut() {
        *x = (number(input)? % 256) as u8;
    }
    Ok(())
}

// The number, if the answer is yes, with a space before it if there was one already; whether there was one.
fn say_if(rt: &impl Print, answer: Result<bool, Refusal>, gap: bool, n: u16) -> io::Result<bool> {
    match answer {
        Ok(true) => {
            if gap {
                print!(rt; " ")?;
            }
            print!(rt; "{n}")?;
            Ok(true)
        }
        Ok(false) => Ok(gap),
        Err(refusal) => {
            print!(rt; "{refusal}")?;
            Ok(gap)
        }
    }
}

// The numbers of which the answer is yes.
fn say_all(rt: &impl Print, answers: &[Result<bool, Refusal>]) -> io::Result<()> {
    let mut gap = false;
    for (n, &answer) in answers.iter().enumerate() {
        gap = say_if(rt, answer, gap, narrow(n))?;
    }
    Ok(())
}

// The tokens that are marked for the rule. All are asked before one is printed, here and for paths and productions: each
// call checks the grammar, and in a loop that prints nothing the compiler makes the check once.
fn say_marks(rt: &impl Print, g: &Grammar, table: &[u32], rule: u16) -> io::Result<()> {
    let n = g.costs.len().min(TOKENS);
    let mut answers = [Ok(false); TOKENS];
    for (t, answer) in answers[..n].iter_mut().enumerate() {
        *answer = tables::is_set(g, table, RIdx(rule), TIdx(narrow(t)));
    }
    say_all(rt, &answers[..n])
}

// 1 for a rule that is marked, else 0.
fn say_empty(rt: &impl Print, g: &Grammar, empty: &[u32], rule: u16) -> io::Result<()> {
    match tables::is_rule_set(g, empty, RIdx(rule)) {
        Ok(set) => print!(rt; "{}", u8::from(set)),
        Err(refusal) => print!(rt; "{refusal}"),
    }
}

// The rules to which there is a path.
fn say_paths(rt: &impl Print, g: &Grammar, rule: u16) -> io::Result<()> {
    let n = usize::from(g.rules).min(RULES);
    let mut answers = [Ok(false); RULES];
    for (to, answer) in answers[..n].iter_mut().enumerate() {
        *answer = paths::has_path(g, RIdx(rule), RIdx(narrow(to)));
    }
    say_all(rt, &answers[..n])
}

fn say_cost(
    rt: &impl Print,
    g: &Grammar,
    rule: u16,
    asked: u16,
    cost: &mut [u32],
) -> io::Result<()> {
    if !matches!(asked, 1..=2) {
        return Ok(());
    }
    match costs::min_sentence_cost(g, RIdx(rule), cost) {
        Ok(least) => print!(rt; "{least}"),
        Err(refusal) => print!(rt; "{refusal}"),
    }
}

fn say_tokens(rt: &impl Print, tokens: &[u16]) -> io::Result<()> {
    for (i, t) in tokens.iter().enumerate() {
        if i > 0 {
            print!(rt; " ")?;
        }
        print!(rt; "{t}")?;
    }
    Ok(())
}

fn say_sentence(
    rt: &impl Print,
    g: &Grammar,
    rule: u16,
    asked: u16,
    cost: &mut [u32],
    lengths: &mut [u32],
    out: &mut [u16],
) -> io::Result<()> {
    if asked < 2 {
        return Ok(());
    }
    match sentences::min_sentence(g, RIdx(rule), cost, lengths, out) {
        Ok(n) => say_tokens(rt, &out[..n as usize]),
        Err(refusal) => print!(rt; "{refusal}"),
    }
}

// A rule's line: its number, EMPTY, FIRST, paths, and where they are asked for its cost and its sentence.
fn say_rule(
    rt: &impl Print,
    g: &Grammar,
    rule: u16,
    asked: u16,
    empty: &[u32],
    first: &[u32],
    cost: &mut [u32],
    lengths: &mut [u32],
    out: &mut [u16],
) -> io::Result<()> {
    print!(rt; "{rule},")?;
    say_empty(rt, g, empty, rule)?;
    print!(rt; ",")?;
    say_marks(rt, g, first, rule)?;
    print!(rt; ",")?;
    say_paths(rt, g, rule)?;
    print!(rt; ",")?;
    say_cost(rt, g, rule, asked, cost)?;
    print!(rt; ",")?;
    say_sentence(rt, g, rule, asked, cost, lengths, out)?;
    println!(rt)
}

// A line for each rule, with what is asked of it.
fn say_rules(
    rt: &impl Print,
    g: &Grammar,
    asked: &[u16],
    empty: &[u32],
    first: &[u32],
    cost: &mut [u32],
    lengths: &mut [u32],
) -> io::Result<()> {
    let mut out = [0; SENTENCE];
    for (rule, &what) in (0..g.rules).zip(asked) {
        say_rule(rt, g, rule, what, empty, first, cost, lengths, &mut out)?;
    }
    Ok(())
}

// Each production's symbols, as the stretch of the list that `production` lends.
fn stretches<'a, 's>(g: &Grammar<'a, 's>) -> [&'s [u16]; PRODS] {
    let n = g.owners.len().min(PRODS);
    let mut all = [g.symbols; PRODS];
    for (prod, stretch) in all[..n].iter_mut().enumerate() {
        *stretch = grammar::production(g, PIdx(narrow(prod)));
    }
    all
}

// A production's line: its number and its symbols.
fn say_prod(rt: &impl Print, prod: u16, stretch: &[u16]) -> io::Result<()> {
    print!(rt; "prod {prod},")?;
    say_tokens(rt, stretch)?;
    println!(rt)
}

// A line for each production.
fn say_prods(rt: &impl Print, g: &Grammar) -> io::Result<()> {
    let all = stretches(g);
    for (prod, stretch) in (0..narrow(g.owners.len())).zip(all.iter()) {
        say_prod(rt, prod, stretch)?;
    }
    Ok(())
}

// Fills FIRST and EMPTY, and prints a line for each rule.
fn fill_and_say(
    rt: &impl Print,
    g: &Grammar,
    asked: &[u16],
    empty: &mut [u32],
    first: &mut [u32],
    cost: &mut [u32],
    lengths: &mut [u32],
) -> io::Result<()> {
    if let Err(refusal) = firsts::fill(g, first, empty) {
        print!(rt; "{refusal}")?;
    }
    say_rules(rt, g, asked, empty, first, cost, lengths)
}

// A grammar's answers, with tables of their exact lengths. Of each rule one number is asked.
fn replay(rt: &impl Print, g: &Grammar, asked: &[u16]) -> io::Result<()>
    requires { (length asked.now ≤ 512) × (length g.now.costs.now ≤ 512) }
{
    let n = asked.len();
    let w = words_for(n);
    let k = table_words(n, g.costs.len());
    let mut empty = [0; ROW];
    let mut first = [0; ROWS];
    let mut cost = [0; RULES];
    let mut lengths = [0; RULES];
    say_prods(rt, g)?;
    fill_and_say(
        rt,
        g,
        asked,
        &mut empty[..w],
        &mut first[..k],
        &mut cost[..n],
        &mut lengths[..n],
    )
}

// Reads a grammar into the lists, and what is asked of its rules, and replays it.
fn read_and_replay(
    rt: &impl Print,
    input: &mut impl Read,
    owners: &mut [u16],
    starts: &mut [u16],
    symbols: &mut [u16],
    costs: &mut [u8],
    asked: &mut [u16],
) -> io::Result<()>
    requires { (length asked.old ≤ 512) × (length costs.old ≤ 512) }
{
    read_numbers(input, owners)?;
    read_numbers(input, starts)?;
    read_numbers(input, symbols)?;
    read_bytes(input, costs)?;
    read_numbers(input, asked)?;
    let g = Grammar {
        rules: narrow(asked.len()),
        owners,
        starts,
        symbols,
        costs,
    };
    replay(rt, &g, asked)
}

// The next grammar, in lists of the lengths that it gives, at the limits at most.
fn next(rt: &impl Print, input: &mut impl Read) -> io::Result<()> {
    let r = usize::from(number(input)?).min(RULES);
    let t = usize::from(number(input)?).min(TOKENS);
    let p = usize::from(number(input)?).min(PRODS);
    let n = usize::from(number(input)?).min(SYMBOLS);
    let mut owners = [0; PRODS];
    let mut starts = [0; PRODS + 1];
    let mut symbols = [0; SYMBOLS];
    let mut costs = [0; TOKENS];
    let mut asked = [0; RULES];
    read_and_replay(
        rt,
        input,
        &mut owners[..p],
        &mut starts[..p + 1],
        &mut symbols[..n],
        &mut costs[..t],
        &mut asked[..r],
    )
}

fn main(rt: HostRuntime) -> io::Result<()> {
    println!(rt; "rule,empty,first,paths,cost,sentence")?;
    let mut input = rt.reader();
    let grammars = number(&mut input)?;
    for _ in 0..grammars {
        next(&rt, &mut input)?;
    }
    Ok(())
}
