// First choices: a rule's cost, and then its productions, going up, to the first that has it.
ghost use Rattle.grammar.specs.Lent.{flat_of};
ghost use Rattle.sentences.specs.Choosing.{FromReady, CheapestFrom, Choosable, FirstChoices};

use costs::COST_MAX;
use costs::inner::sum;
use engine::inner::cost::entry_at;
use grammar::Grammar;
use grammar::inner::{links, prod_at};

// Finds the cost of rule r, then goes up its productions from p on to the first that has it; 4096 where none has.
pub fn cheapest_from(g: &Grammar, next: &[u16; 4096], cost: &[u32], r: usize, p: usize) -> usize
    requires { FromReady (flat_of g.now) next.now cost.now r p }
    ensures { CheapestFrom (flat_of g.now) cost.now r p result }
{
    let least = entry_at(cost, r);
    if COST_MAX < least {
        return 4096;
    }
    let mut q = p;
    while q < g.owners.len() {
        let x = prod_at(g, q);
        let s = sum(g.symbols, g.costs, x.from, x.to, cost);
        if s == least {
            return q;
        }
        q = usize::from(next[q]);
    }
    4096
}

// Leaves each rule's first choice, 4096 for a rule without one.
pub fn choices(g: &Grammar, cost: &[u32], choice: &mut [u16; 512])
    requires { Choosable (flat_of g.now) cost.now choice.old }
    ensures { FirstChoices (flat_of g.now) cost.now choice.new }
{
    let mut head = [4096; 512];
    let mut next = [4096; 4096];
    links(g.owners, &mut head, &mut next);
    for r in 0..usize::from(g.rules) {
        let p = usize::from(head[r]);
        let x = cheapest_from(g, &next, cost, r, p);
        choice[r] = x as u16;
    }
}
