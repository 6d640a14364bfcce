// The cheapest sentence of a rule of a flat grammar: the port of `min_sentence` of grammar.rs, with bounded expansion
// where the source has a stack.
#![tactic(auto)]

ghost use Rattle.grammar.specs.Lent.{flat_of};
ghost use Rattle.sentences.specs.Query.{MinSentence};

use grammar::inner::refuse_if;
use grammar::{Grammar, RIdx, Refusal};
use tables::inner::{numbers_due, numbers_wrong};

pub mod inner;

// Lengths: an entry up to this is the token count of the rule's sentence.
pub const LENGTH_MAX: u32 = 65535;

// Lengths: the sentence is longer than 65535.
pub const LENGTH_LONG: u32 = 65536;

// Lengths: the rule is ungrounded or has no cost.
pub const LENGTH_NONE: u32 = 65537;

// Writes the cheapest sentence of `rule` to the front of `out`; its length. Fills both tables.
// Refusals 1 to 7, 9, and once the tables are final 12 to 15.
pub fn min_sentence(
    g: &Grammar,
    rule: RIdx,
    cost: &mut [u32],
    lengths: &mut [u32],
    out: &mut [u16],
) -> Result<u32, Refusal>
    ensures { MinSentence (flat_of g.now) rule.0 cost.old lengths.old out.old result cost.new lengths.new out.new }
{
    let r = usize::from(rule.0);
    numbers_due(g, cost.len())?;
    refuse_if(numbers_wrong(g.rules, lengths.len()), Refusal::Length)?;
    refuse_if(g.rules <= rule.0, Refusal::Rule)?;
    let mut choice = [4096; 512];
    inner::work(g, cost, &mut choice, lengths);
    inner::answer(g, r, cost, &choice, lengths, out)
}
