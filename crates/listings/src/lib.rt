// All cheapest sentences of a rule of a flat grammar: how many there are, and number k of them. The port of
// `min_sentences` of grammar.rs, which builds the whole list.
#![tactic(auto)]

ghost use Rattle.grammar.specs.Lent.{flat_of};
ghost use Rattle.listings.specs.Calls.{CountMinSentences, MinSentenceAt};

use grammar::{Grammar, RIdx, Refusal};

pub mod inner;

// Counts: an entry up to this is how many cheapest sentences the rule has.
pub const COUNT_MAX: u32 = 65535;

// Counts: there are more than 65535.
pub const COUNT_MANY: u32 = 65536;

// Counts: the rule is circular or has no cost.
pub const COUNT_NONE: u32 = 65537;

// How many cheapest sentences `rule` has, each as often as it is derived. Fills the three tables.
// Refusals 1 to 7, 9, and once the tables are final 12 to 14, 16.
pub fn count_min_sentences(
    g: &Grammar,
    rule: RIdx,
    cost: &mut [u32],
    lengths: &mut [u32],
    counts: &mut [u32],
) -> Result<u32, Refusal>
    ensures { CountMinSentences (flat_of g.now) rule.0 cost.old lengths.old counts.old result cost.new lengths.new counts.new }
{
    let r = usize::from(rule.0);
    inner::due(g, r, cost.len(), lengths.len(), counts.len())?;
    let mut next = [4096; 4096];
    let mut choice = [4096; 512];
    inner::work(g, cost, &mut next, &mut choice, lengths, counts);
    inner::count_answer(g, r, cost, counts)
}

// Writes number `k`, from 0, of the cheapest sentences of `rule` to the front of `out`; its length. Fills the three tables.
// Refusals 1 to 7, 9, and once the tables are final 12 to 14, 16, 15.
pub fn min_sentence_at(
    g: &Grammar,
    rule: RIdx,
    k: u32,
    cost: &mut [u32],
    lengths: &mut [u32],
    counts: &mut [u32],
    out: &mut [u16],
) -> Result<u32, Refusal>
    ensures { MinSentenceAt (flat_of g.now) rule.0 k cost.old lengths.old counts.old out.old result cost.new lengths.new counts.new out.new }
{
    let r = usize::from(rule.0);
    inner::due(g, r, cost.len(), lengths.len(), counts.len())?;
    let mut next = [4096; 4096];
    let mut choice = [4096; 512];
    inner::work(g, cost, &mut next, &mut choice, lengths, counts);
    inner::number_answer(g, r, k, cost, &next, &choice, lengths, counts, out)
}
