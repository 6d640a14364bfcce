// The one-token profile of a flat grammar: it passes, or has a least clash of two productions.
#![tactic(auto)]

ghost use Rattle.grammar.specs.Lent.{flat_of};
ghost use Rattle.profiles.specs.Calls.{Profile};

use grammar::{Grammar, PIdx, RIdx, Refusal, TIdx};

pub mod inner;

// Two productions of a rule and a token that both may start with; token T where both can vanish and share none.
#[derive(Clone, Copy)]
pub struct Clash {
    pub rule: RIdx,
    pub lower: PIdx,
    pub higher: PIdx,
    pub token: TIdx,
}

// Whether a reader can choose each production by the next token: None where it can, else the least clash by rule, lower
// production, higher production, token. Leaves FOLLOW, FIRST, EMPTY and the
// reached row in the lent tables. Refusals 1 to 7.
pub fn profile(
    g: &Grammar,
    follow: &mut [u32],
    first: &mut [u32],
    empty: &mut [u32],
    reached: &mut [u32],
) -> Result<Option<Clash>, Refusal>
    ensures { Profile (flat_of g.now) follow.old first.old empty.old reached.old result follow.new first.new empty.new reached.new }
{
    follows::inner::due(g, follow.len(), first.len(), empty.len(), reached.len())?;
    follows::inner::fill(g, follow, first, empty, reached);
    Ok(inner::judge(g, follow, first, empty))
}
