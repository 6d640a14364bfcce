// The search below `has_path`: links of each rule's productions, then turn by turn the rules that it comes to.
ghost use Rattle.grammar.specs.Lent.{flat_of};
ghost use Rattle.std.specs.Prelude.{List, ℕ, ◌≤◌, length, replicate};
ghost use Rattle.paths.specs.Lists.{work, Is, Among, Holds, Goes};
ghost use Rattle.paths.specs.Search.{Markable, Walkable, Ready, Begun, Findable, Searchable, Finds};
ghost use Rattle.paths.specs.Reached.{Copied, Fillable, ReachedDefined};

use grammar::Grammar;
use grammar::inner::{links, start_at};

// One symbol: a rule that is not seen is seen from now on and enters the list, which holds n. The number
// modulo 512 is a rule's; a token's is looked up too, so that tokens and rules seen are passed by one test.
fn symbol(s: u16, n: usize, list: &mut [u16], seen: &mut [u32; 16]) -> usize
    requires { Markable s (work n list.old seen.old) }
    ensures { Goes (Is s) (work n list.old seen.old) (work result list.new seen.new) }
{
    let r = usize::from(s % 512);
    if (s < 32768) | rows::inner::is_set(seen, 16, 0, r) {
        return n;
    }
    rows::inner::set(seen, 16, 0, r);
    list[n] = s % 512;
    n + 1
}

// The symbols from a up to e.
fn prod(
    symbols: &[u16],
    a: usize,
    e: usize,
    n: usize,
    list: &mut [u16],
    seen: &mut [u32; 16],
) -> usize
    requires { Walkable symbols.now a e (work n list.old seen.old) }
    ensures { Goes (Among symbols.now a e) (work n list.old seen.old) (work result list.new seen.new) }
{
    let mut m = n;
    for s in &symbols[a..e] {
        m = symbol(*s, m, list, seen);
    }
    m
}

// The productions of rule r, by their links.
fn rule(
    g: &Grammar,
    head: &[u16],
    next: &[u16],
    r: usize,
    n: usize,
    list: &mut [u16],
    seen: &mut [u32; 16],
) -> usize
    requires { Ready g.now.owners.now g.now.starts.now g.now.symbols.now head.now next.now r (work n list.old seen.old) }
    ensures { Goes (Holds g.now.owners.now g.now.starts.now g.now.symbols.now r) (work n list.old seen.old) (work result list.new seen.new) }
{
    let mut m = n;
    let mut p = usize::from(head[r]);
    while p < g.owners.len() {
        let a = start_at(g.starts, p);
        let e = start_at(g.starts, p + 1);
        m = prod(g.symbols, a, e, m, list, seen);
        p = usize::from(next[p]);
    }
    m
}

// First `from` has its turn, not seen since no step has led to it, then each rule of the list, until `to` is
// seen or none is left.
fn turns(
    g: &Grammar,
    head: &[u16],
    next: &[u16],
    from: usize,
    to: usize,
    list: &mut [u16],
    seen: &mut [u32; 16],
) -> bool
    requires { Begun g.now.owners.now g.now.starts.now g.now.symbols.now head.now next.now from to (work 0 list.old seen.old) }
    ensures { Finds g.now.owners.now g.now.starts.now g.now.symbols.now from to result seen.new }
{
    let mut r = from;
    let mut n: usize = 0;
    let mut done: usize = 0;
    loop {
        n = rule(g, head, next, r, n, list, seen);
        if rows::inner::is_set(seen, 16, 0, to) {
            return true;
        }
        if n <= done {
            return false;
        }
        r = usize::from(list[done]);
        done += 1;
    }
}

// Links the productions and searches, in lists that have room for the grammar.
fn find(
    g: &Grammar,
    from: usize,
    to: usize,
    head: &mut [u16],
    next: &mut [u16],
    list: &mut [u16],
    seen: &mut [u32; 16],
) -> bool
    requires { Findable g.now.owners.now g.now.starts.now g.now.symbols.now from to head.old next.old list.old seen.old }
    ensures { Finds g.now.owners.now g.now.starts.now g.now.symbols.now from to result seen.new }
{
    links(g.owners, head, next);
    turns(g, head, next, from, to, list, seen)
}

// Whether a step or more lead from `from` to `to`; if not, `seen` has all rules to which they lead. A small
// grammar has short lists: to set long ones would take longer than to search it.
pub fn search(g: &Grammar, from: usize, to: usize, seen: &mut [u32; 16]) -> bool
    requires { Searchable g.now.rules g.now.owners.now g.now.starts.now g.now.symbols.now from to seen.old }
    ensures { Finds g.now.owners.now g.now.starts.now g.now.symbols.now from to result seen.new }
{
    if (g.rules <= 64) & (g.owners.len() <= 64) {
        return find(
            g,
            from,
            to,
            &mut [4096; 64],
            &mut [0; 64],
            &mut [0; 64],
            seen,
        );
    }
    find(
        g,
        from,
        to,
        &mut [4096; 512],
        &mut [0; 4096],
        &mut [0; 512],
        seen,
    )
}

// The same in a row of its own. It writes nothing that is lent: so the compiler lets a loop that asks for paths of one grammar
// check it once.
#[inline(never)]
pub fn leads(g: &Grammar, from: usize, to: usize) -> bool
    requires { Searchable g.now.rules g.now.owners.now g.now.starts.now g.now.symbols.now from to (replicate 16 0) }
    ensures { (seen : List ℕ) × Finds g.now.owners.now g.now.starts.now g.now.symbols.now from to result seen }
{
    let mut seen = [0; 16];
    search(g, from, to, &mut seen)
}

// Leaves the first words of `seen` in a row of at most 16.
fn copy(seen: &[u32; 16], row: &mut [u32])
    requires { length row.old ≤ 16 }
    ensures { Copied seen.now row.old row.new }
{
    row.copy_from_slice(&seen[..row.len()]);
}

// Leaves the reached rules in a row of its length: rule 0, and those that a search from it sees. It looks for
// rule 0 itself, which stands in no production, so that it never ends early.
pub fn reach(g: &Grammar, reached: &mut [u32])
    requires { Fillable (flat_of g.now) reached.old }
    ensures { ReachedDefined (flat_of g.now) reached.new }
{
    let mut seen = [0; 16];
    search(g, 0, 0, &mut seen);
    rows::inner::set(&mut seen, 16, 0, 0);
    copy(&seen, reached);
}
