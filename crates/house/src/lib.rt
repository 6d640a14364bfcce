// The house grammar, built in: its check, FIRST, costs and one cheapest row, without a grammar to give.
#![tactic(auto)]

ghost use Rattle.grammar.specs.Lent.{flat_of, outcome_of};
ghost use Rattle.std.specs.Prelude.{◌≡◌};
ghost use Rattle.grammar.specs.Outcome.{answers};
ghost use Rattle.house.specs.Table.{house};
ghost use Rattle.house.specs.Calls.{FillFirst, is_first_of, is_empty_of, FillCost, MinCost, CheapestRow};

use grammar::{Grammar, RIdx, Refusal, TIdx};

// The table; house/specs/Table has it as its productions.
const RULES: u16 = 58;

const OWNERS: [u16; 96] = [
    0, 1, 2, 3, 4, 5, 6, 7, 8, 9, 10, 11, 12, 13, 14, 14, 15, 15, 16, 16, 17, 17, 18, 18, 19, 19,
    20, 20, 21, 21, 22, 22, 23, 23, 24, 24, 25, 25, 26, 26, 27, 27, 28, 28, 29, 29, 30, 30, 31, 31,
    32, 32, 33, 33, 34, 34, 35, 35, 36, 36, 37, 37, 38, 38, 39, 39, 40, 40, 41, 41, 42, 42, 43, 43,
    44, 44, 45, 45, 46, 46, 47, 47, 48, 48, 49, 49, 50, 51, 52, 53, 54, 55, 56, 56, 57, 57,
];

const STARTS: [u16; 97] = [
    0, 1, 15, 21, 27, 33, 39, 45, 51, 57, 63, 69, 75, 81, 87, 88, 88, 89, 89, 90, 90, 91, 91, 92,
    92, 93, 93, 94, 94, 95, 95, 96, 96, 97, 97, 98, 98, 99, 99, 100, 100, 101, 101, 102, 102, 103,
    103, 104, 104, 105, 105, 106, 106, 107, 107, 108, 108, 109, 109, 110, 110, 111, 111, 112, 112,
    113, 113, 114, 114, 115, 115, 116, 116, 117, 117, 118, 118, 119, 119, 120, 120, 121, 121, 122,
    122, 123, 123, 126, 131, 134, 137, 139, 140, 141, 141, 143, 143,
];

const SYMBOLS: [u16; 143] = [
    32769, 32818, 32770, 32771, 32772, 32773, 32774, 32775, 32776, 32777, 32778, 32779, 32780,
    32781, 6, 2, 32782, 2, 32783, 2, 32784, 2, 32785, 2, 32786, 2, 32787, 2, 32788, 2, 32789, 2,
    32790, 2, 32791, 2, 32792, 2, 32793, 2, 32794, 2, 32795, 2, 32796, 2, 32797, 2, 32798, 2,
    32799, 2, 32800, 2, 32801, 2, 32802, 2, 32803, 2, 32804, 2, 32805, 2, 32806, 2, 32807, 2,
    32808, 2, 32809, 2, 32810, 2, 32811, 2, 32812, 2, 32813, 2, 32814, 2, 32815, 2, 32816, 2,
    32817, 32821, 32822, 32823, 32821, 32822, 32823, 32821, 32822, 32823, 32821, 32822, 32823,
    32821, 32822, 32823, 32821, 32822, 32823, 32821, 32822, 32823, 32821, 32822, 32823, 32821,
    32822, 32823, 32821, 32822, 32823, 32821, 32822, 32823, 32821, 32822, 32823, 32819, 2, 32820,
    0, 4, 0, 4, 0, 0, 5, 0, 32824, 0, 32825, 0, 32825, 0, 3, 1, 0,
];

const COSTS: [u8; 8] = [1, 1, 1, 1, 1, 1, 1, 0];

// The house grammar, as the calls take it.
fn house() -> Grammar<'static, 'static>
    ensures { flat_of result ≡ house }
{
    Grammar {
        rules: RULES,
        owners: &OWNERS,
        starts: &STARTS,
        symbols: &SYMBOLS,
        costs: &COSTS,
    }
}

// Whether the house grammar is well-formed: it is.
pub fn check() -> Result<(), Refusal>
    ensures { outcome_of result ≡ answers tt }
{
    grammar::check(&house())
}

// Leaves FIRST and EMPTY of the house grammar in the lent tables. Refusal 7.
pub fn fill_first(first: &mut [u32], empty: &mut [u32]) -> Result<(), Refusal>
    ensures { FillFirst first.old empty.old result first.new empty.new }
{
    firsts::fill(&house(), first, empty)
}

// Whether a token is marked for a rule in the lent table. Refusals 7, 9, 10.
pub fn is_first(first: &[u32], rule: RIdx, token: TIdx) -> Result<bool, Refusal>
    ensures { outcome_of result ≡ is_first_of first.now rule.0 token.0 }
{
    tables::is_set(&house(), first, rule, token)
}

// Whether a rule is marked in the lent row. Refusals 7, 9.
pub fn is_empty(empty: &[u32], rule: RIdx) -> Result<bool, Refusal>
    ensures { outcome_of result ≡ is_empty_of empty.now rule.0 }
{
    tables::is_rule_set(&house(), empty, rule)
}

// Leaves COST of the house grammar in the lent table. Refusal 7.
pub fn fill_cost(cost: &mut [u32]) -> Result<(), Refusal>
    ensures { FillCost cost.old result cost.new }
{
    costs::fill(&house(), cost)
}

// The least cost of a sentence of a rule; leaves COST in the lent table. Refusals 7, 9.
pub fn min_cost(rule: RIdx, cost: &mut [u32]) -> Result<u32, Refusal>
    ensures { MinCost rule.0 cost.old result cost.new }
{
    costs::min_sentence_cost(&house(), rule, cost)
}

// Writes the cheapest row to the front of `out`; its length. Leaves COST and the lengths in the lent tables. Refusals 7,
// 15.
pub fn cheapest_row(cost: &mut [u32], lengths: &mut [u32], out: &mut [u16]) -> Result<u32, Refusal>
    ensures { CheapestRow cost.old lengths.old out.old result cost.new lengths.new out.new }
{
    sentences::min_sentence(&house(), RIdx(0), cost, lengths, out)
}
