// The exported calls for C: each is the call of the same name of `boltmarrow`.
#![tactic(auto)]

ghost use Rattle.std.specs.Prelude.{◌≡◌};
ghost use Rattle.grammar.specs.Flat.{flat};
ghost use Rattle.grammar.specs.Lent.{outcome_of};
ghost use Rattle.grammar.specs.Outcome.{answers};
ghost use Rattle.grammar.specs.Production.{check_of};
ghost use Rattle.tables.specs.Queries.{is_set_of, is_rule_set_of};
ghost use Rattle.firsts.specs.Calls.{Clear as FirstClear, Visit as FirstVisit, Fill as FirstFill};
ghost use Rattle.paths.specs.Calls.{HasPath};
ghost use Rattle.paths.specs.Reached.{FillReached};
ghost use Rattle.costs.specs.Calls.{ClearProductive, VisitProductive, FillProductive, Clear as CostClear, Visit as CostVisit, Fill as CostFill};
ghost use Rattle.costs.specs.Query.{MinSentenceCost};
ghost use Rattle.dearest.specs.Calls.{Fill as DearestFill};
ghost use Rattle.follows.specs.Calls.{Clear as FollowClear, Visit as FollowVisit, Fill as FollowFill};
ghost use Rattle.profiles.specs.Calls.{Profile};
ghost use Rattle.jobs.specs.Kinds.{tables};
ghost use Rattle.sentences.specs.Query.{MinSentence};
ghost use Rattle.listings.specs.Calls.{CountMinSentences, MinSentenceAt};
ghost use Rattle.blocks.specs.Reading.{lists, Read};
ghost use Rattle.blocks.specs.Writing.{Write};
ghost use Rattle.house.specs.Calls.{FillFirst as HouseFillFirst, is_first_of, is_empty_of, FillCost as HouseFillCost, MinCost, CheapestRow};
ghost use Rattle.boltmarrow.specs.Exports.{done_answer, test_answer, number_answer, stretch_of, counts_answer, verdict_answer, Says};
ghost use Rattle.boltmarrow.specs.Slices.{SliceSays};

use boltmarrow::{Answer, Counts, Job, Stretch, Verdict};
use grammar::Grammar;

// The lowest refusal due of 1 to 6.
#[unsafe(no_mangle)]
pub extern "C" fn boltmarrow_check(
    rules: u16,
    owners: &[u16],
    starts: &[u16],
    symbols: &[u16],
    costs: &[u8],
) -> Answer
    ensures { Says (λ a. outcome_of a ≡ check_of (flat rules owners.now starts.now symbols.now costs.now)) done_answer result }
{
    boltmarrow::boltmarrow_check(&Grammar {
        rules,
        owners,
        starts,
        symbols,
        costs,
    })
}

// Where a production's symbols stand in the symbol list, and how many they are. Refusals 1 to 6, 11.
#[unsafe(no_mangle)]
pub extern "C" fn boltmarrow_production(
    rules: u16,
    owners: &[u16],
    starts: &[u16],
    symbols: &[u16],
    costs: &[u8],
    prod: u16,
) -> Stretch
    ensures { result ≡ stretch_of (flat rules owners.now starts.now symbols.now costs.now) prod }
{
    boltmarrow::boltmarrow_production(
        &Grammar {
            rules,
            owners,
            starts,
            symbols,
            costs,
        },
        prod,
    )
}

// Whether a rule is marked for a token in a table of R rows. Refusals 1 to 7, 9, 10.
#[unsafe(no_mangle)]
pub extern "C" fn boltmarrow_mark(
    rules: u16,
    owners: &[u16],
    starts: &[u16],
    symbols: &[u16],
    costs: &[u8],
    table: &[u32],
    rule: u16,
    token: u16,
) -> Answer
    ensures { Says (λ a. outcome_of a ≡ is_set_of (flat rules owners.now starts.now symbols.now costs.now) table.now rule token) test_answer result }
{
    boltmarrow::boltmarrow_mark(
        &Grammar {
            rules,
            owners,
            starts,
            symbols,
            costs,
        },
        table,
        rule,
        token,
    )
}

// Whether a rule is marked in a table of one row. Refusals 1 to 7, 9.
#[unsafe(no_mangle)]
pub extern "C" fn boltmarrow_rule_mark(
    rules: u16,
    owners: &[u16],
    starts: &[u16],
    symbols: &[u16],
    costs: &[u8],
    table: &[u32],
    rule: u16,
) -> Answer
    ensures { Says (λ a. outcome_of a ≡ is_rule_set_of (flat rules owners.now starts.now symbols.now costs.now) table.now rule) test_answer result }
{
    boltmarrow::boltmarrow_rule_mark(
        &Grammar {
            rules,
            owners,
            starts,
            symbols,
            costs,
        },
        table,
        rule,
    )
}

// Sets FIRST and EMPTY to zero. Refusals 1 to 7.
#[unsafe(no_mangle)]
pub extern "C" fn boltmarrow_first_clear(
    rules: u16,
    owners: &[u16],
    starts: &[u16],
    symbols: &[u16],
    costs: &[u8],
    first: &mut [u32],
    empty: &mut [u32],
) -> Answer
    ensures { Says (λ a. FirstClear (flat rules owners.now starts.now symbols.now costs.now) first.old empty.old a first.new empty.new) done_answer result }
{
    boltmarrow::boltmarrow_first_clear(
        &Grammar {
            rules,
            owners,
            starts,
            symbols,
            costs,
        },
        first,
        empty,
    )
}

// One production's step of FIRST and EMPTY; whether a table changed. Refusals 1 to 7, 11.
#[unsafe(no_mangle)]
pub extern "C" fn boltmarrow_first_visit(
    rules: u16,
    owners: &[u16],
    starts: &[u16],
    symbols: &[u16],
    costs: &[u8],
    prod: u16,
    first: &mut [u32],
    empty: &mut [u32],
) -> Answer
    ensures { Says (λ a. FirstVisit (flat rules owners.now starts.now symbols.now costs.now) prod first.old empty.old a first.new empty.new) test_answer result }
{
    boltmarrow::boltmarrow_first_visit(
        &Grammar {
            rules,
            owners,
            starts,
            symbols,
            costs,
        },
        prod,
        first,
        empty,
    )
}

// Leaves FIRST and EMPTY. Refusals 1 to 7.
#[unsafe(no_mangle)]
pub extern "C" fn boltmarrow_first_fill(
    rules: u16,
    owners: &[u16],
    starts: &[u16],
    symbols: &[u16],
    costs: &[u8],
    first: &mut [u32],
    empty: &mut [u32],
) -> Answer
    ensures { Says (λ a. FirstFill (flat rules owners.now starts.now symbols.now costs.now) first.old empty.old a first.new empty.new) done_answer result }
{
    boltmarrow::boltmarrow_first_fill(
        &Grammar {
            rules,
            owners,
            starts,
            symbols,
            costs,
        },
        first,
        empty,
    )
}

// Whether there is a path from a rule to another. Refusals 1 to 6, 9.
#[unsafe(no_mangle)]
pub extern "C" fn boltmarrow_has_path(
    rules: u16,
    owners: &[u16],
    starts: &[u16],
    symbols: &[u16],
    costs: &[u8],
    from: u16,
    to: u16,
) -> Answer
    ensures { Says (λ a. HasPath (flat rules owners.now starts.now symbols.now costs.now) from to a) test_answer result }
{
    boltmarrow::boltmarrow_has_path(
        &Grammar {
            rules,
            owners,
            starts,
            symbols,
            costs,
        },
        from,
        to,
    )
}

// Sets PRODUCTIVE to zero. Refusals 1 to 7.
#[unsafe(no_mangle)]
pub extern "C" fn boltmarrow_productive_clear(
    rules: u16,
    owners: &[u16],
    starts: &[u16],
    symbols: &[u16],
    costs: &[u8],
    productive: &mut [u32],
) -> Answer
    ensures { Says (λ a. ClearProductive (flat rules owners.now starts.now symbols.now costs.now) productive.old a productive.new) done_answer result }
{
    boltmarrow::boltmarrow_productive_clear(
        &Grammar {
            rules,
            owners,
            starts,
            symbols,
            costs,
        },
        productive,
    )
}

// One production's step of PRODUCTIVE; whether the table changed. Refusals 1 to 7, 11.
#[unsafe(no_mangle)]
pub extern "C" fn boltmarrow_productive_visit(
    rules: u16,
    owners: &[u16],
    starts: &[u16],
    symbols: &[u16],
    costs: &[u8],
    prod: u16,
    productive: &mut [u32],
) -> Answer
    ensures { Says (λ a. VisitProductive (flat rules owners.now starts.now symbols.now costs.now) prod productive.old a productive.new) test_answer result }
{
    boltmarrow::boltmarrow_productive_visit(
        &Grammar {
            rules,
            owners,
            starts,
            symbols,
            costs,
        },
        prod,
        productive,
    )
}

// Leaves PRODUCTIVE. Refusals 1 to 7.
#[unsafe(no_mangle)]
pub extern "C" fn boltmarrow_productive_fill(
    rules: u16,
    owners: &[u16],
    starts: &[u16],
    symbols: &[u16],
    costs: &[u8],
    productive: &mut [u32],
) -> Answer
    ensures { Says (λ a. FillProductive (flat rules owners.now starts.now symbols.now costs.now) productive.old a productive.new) done_answer result }
{
    boltmarrow::boltmarrow_productive_fill(
        &Grammar {
            rules,
            owners,
            starts,
            symbols,
            costs,
        },
        productive,
    )
}

// Sets every entry of COST to 65537, none known. Refusals 1 to 7.
#[unsafe(no_mangle)]
pub extern "C" fn boltmarrow_cost_clear(
    rules: u16,
    owners: &[u16],
    starts: &[u16],
    symbols: &[u16],
    costs: &[u8],
    cost: &mut [u32],
) -> Answer
    ensures { Says (λ a. CostClear (flat rules owners.now starts.now symbols.now costs.now) cost.old a cost.new) done_answer result }
{
    boltmarrow::boltmarrow_cost_clear(
        &Grammar {
            rules,
            owners,
            starts,
            symbols,
            costs,
        },
        cost,
    )
}

// One production's step of COST; whether the table changed. Refusals 1 to 7, 11.
#[unsafe(no_mangle)]
pub extern "C" fn boltmarrow_cost_visit(
    rules: u16,
    owners: &[u16],
    starts: &[u16],
    symbols: &[u16],
    costs: &[u8],
    prod: u16,
    cost: &mut [u32],
) -> Answer
    ensures { Says (λ a. CostVisit (flat rules owners.now starts.now symbols.now costs.now) prod cost.old a cost.new) test_answer result }
{
    boltmarrow::boltmarrow_cost_visit(
        &Grammar {
            rules,
            owners,
            starts,
            symbols,
            costs,
        },
        prod,
        cost,
    )
}

// Leaves COST. Refusals 1 to 7.
#[unsafe(no_mangle)]
pub extern "C" fn boltmarrow_cost_fill(
    rules: u16,
    owners: &[u16],
    starts: &[u16],
    symbols: &[u16],
    costs: &[u8],
    cost: &mut [u32],
) -> Answer
    ensures { Says (λ a. CostFill (flat rules owners.now starts.now symbols.now costs.now) cost.old a cost.new) done_answer result }
{
    boltmarrow::boltmarrow_cost_fill(
        &Grammar {
            rules,
            owners,
            starts,
            symbols,
            costs,
        },
        cost,
    )
}

// The least cost of a sentence of a rule; fills COST. Refusals 1 to 7, 9, 12, 13.
#[unsafe(no_mangle)]
pub extern "C" fn boltmarrow_min_sentence_cost(
    rules: u16,
    owners: &[u16],
    starts: &[u16],
    symbols: &[u16],
    costs: &[u8],
    rule: u16,
    cost: &mut [u32],
) -> Answer
    ensures { Says (λ a. MinSentenceCost (flat rules owners.now starts.now symbols.now costs.now) rule cost.old a cost.new) number_answer result }
{
    boltmarrow::boltmarrow_min_sentence_cost(
        &Grammar {
            rules,
            owners,
            starts,
            symbols,
            costs,
        },
        rule,
        cost,
    )
}

// Leaves the dearest costs. Refusals 1 to 7.
#[unsafe(no_mangle)]
pub extern "C" fn boltmarrow_dearest_fill(
    rules: u16,
    owners: &[u16],
    starts: &[u16],
    symbols: &[u16],
    costs: &[u8],
    dearest: &mut [u32],
) -> Answer
    ensures { Says (λ a. DearestFill (flat rules owners.now starts.now symbols.now costs.now) dearest.old a dearest.new) done_answer result }
{
    boltmarrow::boltmarrow_dearest_fill(
        &Grammar {
            rules,
            owners,
            starts,
            symbols,
            costs,
        },
        dearest,
    )
}

// Leaves the reached rules: rule 0 and those that have a path from it. Refusals 1 to 7.
#[unsafe(no_mangle)]
pub extern "C" fn boltmarrow_reached_fill(
    rules: u16,
    owners: &[u16],
    starts: &[u16],
    symbols: &[u16],
    costs: &[u8],
    reached: &mut [u32],
) -> Answer
    ensures { Says (λ a. FillReached (flat rules owners.now starts.now symbols.now costs.now) reached.old a reached.new) done_answer result }
{
    boltmarrow::boltmarrow_reached_fill(
        &Grammar {
            rules,
            owners,
            starts,
            symbols,
            costs,
        },
        reached,
    )
}

// Clears FOLLOW: it holds rule 0 with eof, and nothing else. Refusals 1 to 7.
#[unsafe(no_mangle)]
pub extern "C" fn boltmarrow_follow_clear(
    rules: u16,
    owners: &[u16],
    starts: &[u16],
    symbols: &[u16],
    costs: &[u8],
    follow: &mut [u32],
) -> Answer
    ensures { Says (λ a. FollowClear (flat rules owners.now starts.now symbols.now costs.now) follow.old a follow.new) done_answer result }
{
    boltmarrow::boltmarrow_follow_clear(
        &Grammar {
            rules,
            owners,
            starts,
            symbols,
            costs,
        },
        follow,
    )
}

// One production's step of FOLLOW, over the rules marked reached, in mode 2, which alone is taken; whether the
// table changed. Refusals 1 to 8, 11.
#[unsafe(no_mangle)]
pub extern "C" fn boltmarrow_follow_visit(
    rules: u16,
    owners: &[u16],
    starts: &[u16],
    symbols: &[u16],
    costs: &[u8],
    mode: u16,
    prod: u16,
    follow: &mut [u32],
    first: &[u32],
    empty: &[u32],
    reached: &[u32],
) -> Answer
    ensures { Says (λ a. FollowVisit (flat rules owners.now starts.now symbols.now costs.now) mode prod follow.old first.now empty.now reached.now a follow.new) test_answer result }
{
    boltmarrow::boltmarrow_follow_visit(
        &Grammar {
            rules,
            owners,
            starts,
            symbols,
            costs,
        },
        mode,
        prod,
        follow,
        first,
        empty,
        reached,
    )
}

// Leaves FOLLOW, FIRST, EMPTY and the reached row, in mode 2, which alone is taken. Refusals 1 to 8.
#[unsafe(no_mangle)]
pub extern "C" fn boltmarrow_follow_fill(
    rules: u16,
    owners: &[u16],
    starts: &[u16],
    symbols: &[u16],
    costs: &[u8],
    mode: u16,
    follow: &mut [u32],
    first: &mut [u32],
    empty: &mut [u32],
    reached: &mut [u32],
) -> Answer
    ensures { Says (λ a. FollowFill (flat rules owners.now starts.now symbols.now costs.now) mode follow.old first.old empty.old reached.old a follow.new first.new empty.new reached.new) done_answer result }
{
    boltmarrow::boltmarrow_follow_fill(
        &Grammar {
            rules,
            owners,
            starts,
            symbols,
            costs,
        },
        mode,
        follow,
        first,
        empty,
        reached,
    )
}

// Whether a reader can choose each production by the next token, or the least clash. Leaves FOLLOW, FIRST,
// EMPTY and the reached row. Refusals 1 to 7.
#[unsafe(no_mangle)]
pub extern "C" fn boltmarrow_profile(
    rules: u16,
    owners: &[u16],
    starts: &[u16],
    symbols: &[u16],
    costs: &[u8],
    follow: &mut [u32],
    first: &mut [u32],
    empty: &mut [u32],
    reached: &mut [u32],
) -> Verdict
    ensures { Says (λ a. Profile (flat rules owners.now starts.now symbols.now costs.now) follow.old first.old empty.old reached.old a follow.new first.new empty.new reached.new) verdict_answer result }
{
    boltmarrow::boltmarrow_profile(
        &Grammar {
            rules,
            owners,
            starts,
            symbols,
            costs,
        },
        follow,
        first,
        empty,
        reached,
    )
}

// A slice of n visits of the job, which says where it stands afterwards; how many were made. Refusals 1 to 6, 17, and 7
// for the tables of the job's kind: the others may be of any length.
#[unsafe(no_mangle)]
pub extern "C" fn boltmarrow_slice(
    job: &mut Job,
    rules: u16,
    owners: &[u16],
    starts: &[u16],
    symbols: &[u16],
    costs: &[u8],
    n: u32,
    first: &mut [u32],
    empty: &mut [u32],
    follow: &mut [u32],
    productive: &mut [u32],
    cost: &mut [u32],
    reached: &[u32],
) -> Answer
    ensures { SliceSays (flat rules owners.now starts.now symbols.now costs.now) n job.old (tables first.old empty.old follow.old productive.old cost.old reached.now) result job.new (tables first.new empty.new follow.new productive.new cost.new reached.now) }
{
    boltmarrow::boltmarrow_slice(
        job,
        &Grammar {
            rules,
            owners,
            starts,
            symbols,
            costs,
        },
        n,
        first,
        empty,
        follow,
        productive,
        cost,
        reached,
    )
}

// Writes the cheapest sentence of a rule to the front of `out`; its length. Fills both tables. Refusals 1 to 7, 9, 12 to 15.
#[unsafe(no_mangle)]
pub extern "C" fn boltmarrow_min_sentence(
    rules: u16,
    owners: &[u16],
    starts: &[u16],
    symbols: &[u16],
    costs: &[u8],
    rule: u16,
    cost: &mut [u32],
    lengths: &mut [u32],
    out: &mut [u16],
) -> Answer
    ensures { Says (λ a. MinSentence (flat rules owners.now starts.now symbols.now costs.now) rule cost.old lengths.old out.old a cost.new lengths.new out.new) number_answer result }
{
    boltmarrow::boltmarrow_min_sentence(
        &Grammar {
            rules,
            owners,
            starts,
            symbols,
            costs,
        },
        rule,
        cost,
        lengths,
        out,
    )
}

// How many cheapest sentences `rule` has, each as often as it is derived. Refusals 1 to 7, 9, and once the tables are
// final 12 to 14, 16.
#[unsafe(no_mangle)]
pub extern "C" fn boltmarrow_count_min_sentences(
    rules: u16,
    owners: &[u16],
    starts: &[u16],
    symbols: &[u16],
    costs: &[u8],
    rule: u16,
    cost: &mut [u32],
    lengths: &mut [u32],
    counts: &mut [u32],
) -> Answer
    ensures { Says (λ a. CountMinSentences (flat rules owners.now starts.now symbols.now costs.now) rule cost.old lengths.old counts.old a cost.new lengths.new counts.new) number_answer result }
{
    boltmarrow::boltmarrow_count_min_sentences(
        &Grammar {
            rules,
            owners,
            starts,
            symbols,
            costs,
        },
        rule,
        cost,
        lengths,
        counts,
    )
}

// Writes number `k`, from 0, of the cheapest sentences of `rule` to the front of `out`; its length. Refusals 1 to 7, 9,
// and once the tables are final 12 to 14, 16, 15.
#[unsafe(no_mangle)]
pub extern "C" fn boltmarrow_min_sentence_at(
    rules: u16,
    owners: &[u16],
    starts: &[u16],
    symbols: &[u16],
    costs: &[u8],
    rule: u16,
    k: u32,
    cost: &mut [u32],
    lengths: &mut [u32],
    counts: &mut [u32],
    out: &mut [u16],
) -> Answer
    ensures { Says (λ a. MinSentenceAt (flat rules owners.now starts.now symbols.now costs.now) rule k cost.old lengths.old counts.old out.old a cost.new lengths.new counts.new out.new) number_answer result }
{
    boltmarrow::boltmarrow_min_sentence_at(
        &Grammar {
            rules,
            owners,
            starts,
            symbols,
            costs,
        },
        rule,
        k,
        cost,
        lengths,
        counts,
        out,
    )
}

// Reads a block file into lists of 4096, 4097, 16384 and 512; R, T, P, N and the version. Refusals 7, 20, 21, 22, 1,
// 23, 25, and once the lists' fronts are filled 2 to 6.
#[unsafe(no_mangle)]
pub extern "C" fn boltmarrow_read_blocks(
    file: &[u8],
    owners: &mut [u16],
    starts: &mut [u16],
    symbols: &mut [u16],
    costs: &mut [u8],
) -> Counts
    ensures { Says (λ a. Read file.now (lists owners.old starts.old symbols.old costs.old) a (lists owners.new starts.new symbols.new costs.new)) counts_answer result }
{
    boltmarrow::boltmarrow_read_blocks(file, owners, starts, symbols, costs)
}

// Writes the grammar's block file in version 1 or 2 to the front of `out`; how many bytes it has. Refusals 26, 1 to 6,
// 25, 24.
#[unsafe(no_mangle)]
pub extern "C" fn boltmarrow_write_blocks(
    rules: u16,
    owners: &[u16],
    starts: &[u16],
    symbols: &[u16],
    costs: &[u8],
    version: u16,
    out: &mut [u8],
) -> Answer
    ensures { Says (λ a. Write (flat rules owners.now starts.now symbols.now costs.now) version out.old a out.new) number_answer result }
{
    boltmarrow::boltmarrow_write_blocks(
        &Grammar {
            rules,
            owners,
            starts,
            symbols,
            costs,
        },
        version,
        out,
    )
}

// Whether the house grammar is well-formed: it is, and nothing is refused.
#[unsafe(no_mangle)]
pub extern "C" fn boltmarrow_house_check() -> Answer
    ensures { Says (λ c. outcome_of c ≡ answers tt) done_answer result }
{
    boltmarrow::boltmarrow_house_check()
}

// Leaves FIRST and EMPTY of the house grammar. Refusal 7.
#[unsafe(no_mangle)]
pub extern "C" fn boltmarrow_house_first_fill(first: &mut [u32], empty: &mut [u32]) -> Answer
    ensures { Says (λ a. HouseFillFirst first.old empty.old a first.new empty.new) done_answer result }
{
    boltmarrow::boltmarrow_house_first_fill(first, empty)
}

// Whether a token is marked for a rule of the house grammar. Refusals 7, 9, 10.
#[unsafe(no_mangle)]
pub extern "C" fn boltmarrow_house_first(first: &[u32], rule: u16, token: u16) -> Answer
    ensures { Says (λ a. outcome_of a ≡ is_first_of first.now rule token) test_answer result }
{
    boltmarrow::boltmarrow_house_first(first, rule, token)
}

// Whether a rule of the house grammar is marked. Refusals 7, 9.
#[unsafe(no_mangle)]
pub extern "C" fn boltmarrow_house_empty(empty: &[u32], rule: u16) -> Answer
    ensures { Says (λ a. outcome_of a ≡ is_empty_of empty.now rule) test_answer result }
{
    boltmarrow::boltmarrow_house_empty(empty, rule)
}

// Leaves COST of the house grammar. Refusal 7.
#[unsafe(no_mangle)]
pub extern "C" fn boltmarrow_house_cost_fill(cost: &mut [u32]) -> Answer
    ensures { Says (λ a. HouseFillCost cost.old a cost.new) done_answer result }
{
    boltmarrow::boltmarrow_house_cost_fill(cost)
}

// The cost of a rule of the house grammar; leaves COST. Refusals 7, 9.
#[unsafe(no_mangle)]
pub extern "C" fn boltmarrow_house_cost(rule: u16, cost: &mut [u32]) -> Answer
    ensures { Says (λ a. MinCost rule cost.old a cost.new) number_answer result }
{
    boltmarrow::boltmarrow_house_cost(rule, cost)
}

// Writes the cheapest row of the house grammar; its length. Leaves COST and the lengths. Refusals 7, 15.
#[unsafe(no_mangle)]
pub extern "C" fn boltmarrow_house_row(
    cost: &mut [u32],
    lengths: &mut [u32],
    out: &mut [u16],
) -> Answer
    ensures { Says (λ a. CheapestRow cost.old lengths.old out.old a cost.new lengths.new out.new) number_answer result }
{
    boltmarrow::boltmarrow_house_row(cost, lengths, out)
}
