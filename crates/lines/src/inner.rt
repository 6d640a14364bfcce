// Below the public calls: each appends its bytes from place `at` of a lent buffer on, and answers the place after them.
ghost use Rattle.std.specs.Prelude.{◌≡◌, ◌∷◌, [], ◌≤◌, ◌<◌};
ghost use Rattle.lines.specs.Text.{decimal, spaced, digit as digit_of};
ghost use Rattle.lines.specs.Line.{flag as flag_of, price_of, priced, line_of};
ghost use Rattle.tables.specs.Append.{Appended};
ghost use Rattle.lines.specs.Append.{Room, added, Row, row_of, front_of, row_with, sets_of, back_of};
ghost use Rattle.lines.specs.Lent.{tables, tables_wrong, out_wrong, entry_of, Ready};

use costs::{COST_DEAR, COST_MAX};
use engine::inner::cost::entry_at;
use grammar::Refusal;
use rows::inner::is_set;
use tables::inner::{numbers_wrong, row_wrong, table_wrong, words_for};

fn put(byte: u8, out: &mut [u8], at: usize) -> usize
    requires { Room out.old at (byte ∷ []) }
    ensures { Appended out.old at (byte ∷ []) out.new result }
{
    out[at] = byte;
    at + 1
}

pub fn copy(text: &[u8], out: &mut [u8], at: usize) -> usize
    requires { Room out.old at text.now }
    ensures { Appended out.old at text.now out.new result }
{
    let next = at + text.len();
    out[at..next].copy_from_slice(text);
    next
}

fn digit(n: usize) -> u8
    requires { n < 10 }
    ensures { result ≡ digit_of n }
{
    n as u8 + 48
}

// A number in decimal.
pub fn number(n: usize, out: &mut [u8], at: usize) -> usize
    requires { Room out.old at (decimal n) }
    ensures { Appended out.old at (decimal n) out.new result }
{
    if n < 10 {
        return put(digit(n), out, at);
    }
    let next = number(n / 10, out, at);
    put(digit(n % 10), out, next)
}

// Number t of a set if it is `on`, after a space unless it is the first.
fn member(t: usize, on: bool, some: bool, out: &mut [u8], at: usize) -> usize
    requires { Room out.old at (added on some t) }
    ensures { Appended out.old at (added on some t) out.new result }
{
    if !on {
        return at;
    }
    if !some {
        return number(t, out, at);
    }
    let next = put(b' ', out, at);
    number(t, out, next)
}

// The tokens marked in row r, rising, with one space between.
fn set(table: &[u32], width: usize, r: usize, tokens: usize, out: &mut [u8], at: usize) -> usize
    requires row { Row tokens width table.now r }
    requires room { Room out.old at (spaced (row_of tokens width table.now r)) }
    ensures { Appended out.old at (spaced (row_of tokens width table.now r)) out.new result }
{
    let mut next = at;
    let mut some = false;
    for t in 0..tokens {
        let on = is_set(table, width, r, t);
        next = member(t, on, some, out, next);
        some |= on;
    }
    next
}

// The same, and a comma.
fn row(table: &[u32], width: usize, r: usize, tokens: usize, out: &mut [u8], at: usize) -> usize
    requires row { Row tokens width table.now r }
    requires room { Room out.old at (row_with (row_of tokens width table.now r)) }
    ensures { Appended out.old at (row_with (row_of tokens width table.now r)) out.new result }
{
    let next = set(table, width, r, tokens, out, at);
    copy(b",", out, next)
}

// FIRST and FOLLOW of rule r, each with its comma.
fn sets(
    first: &[u32],
    follow: &[u32],
    width: usize,
    r: usize,
    tokens: usize,
    out: &mut [u8],
    at: usize,
) -> usize
    requires first { Row tokens width first.now r }
    requires follow { Row tokens width follow.now r }
    requires room { Room out.old at (sets_of (row_of tokens width first.now r) (row_of tokens width follow.now r)) }
    ensures { Appended out.old at (sets_of (row_of tokens width first.now r) (row_of tokens width follow.now r)) out.new result }
{
    let next = row(first, width, r, tokens, out, at);
    row(follow, width, r, tokens, out, next)
}

fn flag(on: bool) -> u8
    ensures { result ≡ flag_of on }
{
    if on {
        return b'1';
    }
    b'0'
}

// The rule's number and EMPTY as 0 or 1, each with its comma.
fn front(r: usize, empty: bool, out: &mut [u8], at: usize) -> usize
    requires { Room out.old at (front_of r empty) }
    ensures { Appended out.old at (front_of r empty) out.new result }
{
    let a = number(r, out, at);
    let b = copy(b",", out, a);
    let c = put(flag(empty), out, b);
    copy(b",", out, c)
}

fn price(entry: u32, out: &mut [u8], at: usize) -> usize
    requires { Room out.old at (priced (price_of entry)) }
    ensures { Appended out.old at (priced (price_of entry)) out.new result }
{
    if entry <= COST_MAX {
        return number(entry as usize, out, at);
    }
    if entry <= COST_DEAR {
        return copy(b"dear", out, at);
    }
    copy(b"none", out, at)
}

// The cost, `dear` or `none`, and the line feed.
fn back(entry: u32, out: &mut [u8], at: usize) -> usize
    requires { Room out.old at (back_of (price_of entry)) }
    ensures { Appended out.old at (back_of (price_of entry)) out.new result }
{
    let next = price(entry, out, at);
    copy(b"\n", out, next)
}

// The line of rule r.
pub fn write(
    rules: usize,
    tokens: usize,
    r: usize,
    empty: &[u32],
    first: &[u32],
    follow: &[u32],
    cost: &[u32],
    out: &mut [u8],
) -> usize
    requires { Ready rules tokens r (tables empty.now first.now follow.now cost.now) out.old }
    ensures { Appended out.old 0 (line_of (entry_of rules tokens r (tables empty.now first.now follow.now cost.now))) out.new result }
{
    let a = front(r, is_set(empty, words_for(rules), 0, r), out, 0);
    let b = sets(first, follow, words_for(tokens), r, tokens, out, a);
    back(entry_at(cost, r), out, b)
}

// Refusal 7 for the four tables.
pub fn tables_wrong(
    rules: u16,
    tokens: usize,
    empty: &[u32],
    first: &[u32],
    follow: &[u32],
    cost: &[u32],
) -> bool
    requires { (rules ≤ 512) × (tokens ≤ 512) }
    ensures { result ≡ tables_wrong rules tokens (tables empty.now first.now follow.now cost.now) }
{
    row_wrong(rules, empty.len())
        | (table_wrong(rules, tokens, first.len())
            | (table_wrong(rules, tokens, follow.len()) | numbers_wrong(rules, cost.len())))
}

// Refusal 7 for the room.
pub fn out_wrong(out: &[u8]) -> bool
    ensures { result ≡ out_wrong out.now }
{
    out.len() != 4096
}

pub fn count(n: usize) -> u16
    requires { n ≤ 4096 }
    ensures { result ≡ n }
{
    n as u16
}
