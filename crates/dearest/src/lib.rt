// The dearest sentences of a flat grammar: each rule's greatest cost, in lent numbers. The port of `rule_max_costs` of
// grammar.rs, with true answers where the source settles too soon.
#![tactic(auto)]

ghost use Rattle.grammar.specs.Lent.{flat_of};
ghost use Rattle.dearest.specs.Calls.{Fill};

use grammar::{Grammar, Refusal};
use tables::inner::numbers_due;

pub mod inner;

// dearest: an entry up to this is a greatest cost.
pub const DEAREST_MAX: u32 = 65534;

// dearest: costs without bound.
pub const DEAREST_UNBOUNDED: u32 = 65535;

// dearest: no sentence.
pub const DEAREST_NONE: u32 = 65536;

// dearest: a greatest cost above 65534.
pub const DEAREST_ABOVE: u32 = 65537;

// Leaves the dearest costs in the lent numbers, whatever was there before. Refusals 1 to 7.
pub fn fill(g: &Grammar, dearest: &mut [u32]) -> Result<(), Refusal>
    ensures { Fill (flat_of g.now) dearest.old result dearest.new }
{
    numbers_due(g, dearest.len())?;
    inner::dearest_fill(g, dearest);
    Ok(())
}
