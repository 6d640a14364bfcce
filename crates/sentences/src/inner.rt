// The sentence below the public call: its working tables, and the answer from them.
ghost use Rattle.grammar.specs.Lent.{flat_of, outcome_of};
ghost use Rattle.engine.specs.Cost.{costs_of};
ghost use Rattle.sentences.specs.Query.{Says};
ghost use Rattle.sentences.specs.Working.{Workable, Worked, Finished};

use crate::{LENGTH_LONG, LENGTH_MAX};
use costs::inner::{cost_fill, entry_due};
use engine::inner::cost::entry_at;
use grammar::{Grammar, Refusal};

pub mod choices;
pub mod expansion;
pub mod lengths;

use crate::inner::choices::choices;
use crate::inner::expansion::{NOT_WRITTEN, expand_rule};
use crate::inner::lengths::length_fill;

// Leaves COST, the first choices and the lengths.
pub fn work(g: &Grammar, cost: &mut [u32], choice: &mut [u16; 512], lengths: &mut [u32])
    requires { Workable (flat_of g.now) cost.old choice.old lengths.old }
    ensures { Worked (flat_of g.now) cost.new choice.new lengths.new }
{
    cost_fill(g, cost);
    choices(g, cost, choice);
    length_fill(g, choice, lengths);
}

// The answer from finished tables: 12 to 15, or the sentence.
pub fn answer(
    g: &Grammar,
    r: usize,
    cost: &[u32],
    choice: &[u16; 512],
    lengths: &[u32],
    out: &mut [u16],
) -> Result<u32, Refusal>
    requires { Finished (flat_of g.now) r cost.now choice.now lengths.now }
    ensures { Says (flat_of g.now) (costs_of cost.now) r out.old (outcome_of result) out.new }
{
    entry_due(entry_at(cost, r))?;
    let long = entry_at(lengths, r);
    if LENGTH_LONG < long {
        return Err(Refusal::Circular);
    }
    if (long <= LENGTH_MAX) & (long as usize <= out.len()) {
        let mut begun = [NOT_WRITTEN; 512];
        expand_rule(
            g,
            choice,
            lengths,
            usize::from(g.rules),
            r,
            0,
            &mut begun,
            out,
        );
        return Ok(long);
    }
    Err(Refusal::Long)
}
