// Work in slices: a job fills one table by a few visits at a time.
#![tactic(auto)]

ghost use Rattle.grammar.specs.Lent.{flat_of};
ghost use Rattle.jobs.specs.Kinds.{tables};
ghost use Rattle.jobs.specs.Calls.{SliceOf};

use grammar::inner::refuse_if;
use grammar::{Grammar, PIdx, Refusal};

pub mod inner;
mod kind;

use crate::inner::{Stand, work, wrong};
pub use kind::Kind;

// The kind of a job that fills FIRST and EMPTY.
pub const JOB_FIRST: u16 = 0;

// No job's kind. One that was saved with it has a half-filled table by another rule, and is refused.
pub const JOB_NONE: u16 = 1;

// The kind of one that fills FOLLOW.
pub const JOB_FOLLOW: u16 = 2;

// The kind of one that fills PRODUCTIVE.
pub const JOB_PRODUCTIVE: u16 = 3;

// The kind of one that fills COST; there is none above it.
pub const JOB_COST: u16 = 4;

// A job: its table, by the kinds above, the next production, whether this round changed anything, and whether it is
// done.
#[derive(Clone, Copy)]
pub struct Job {
    pub kind: u16,
    pub next: PIdx,
    pub changed: bool,
    pub done: bool,
}

// A slice of n: n visits in rising order from the job's next production, starting again at 0; fewer only when the job is
// or becomes done. The job says where it stands afterwards. Refusals 1 to 6, 17, and 7 for the tables of the job's kind
// (FOLLOW's are FOLLOW, FIRST, EMPTY and the reached row): the others are neither read nor written, and of any length.
pub fn slice(
    job: &mut Job,
    g: &Grammar,
    n: u32,
    first: &mut [u32],
    empty: &mut [u32],
    follow: &mut [u32],
    productive: &mut [u32],
    cost: &mut [u32],
    reached: &[u32],
) -> Result<u32, Refusal>
    ensures { SliceOf (flat_of g.now) n job.old (tables first.old empty.old follow.old productive.old cost.old reached.now) result job.new (tables first.new empty.new follow.new productive.new cost.new reached.now) }
{
    grammar::check(g)?;
    let kind = Kind::try_from(job.kind)?;
    let next = job.next.0;
    refuse_if(g.owners.len() <= usize::from(next), Refusal::Job)?;
    refuse_if(
        wrong(
            kind,
            g.rules,
            g.costs.len(),
            first,
            empty,
            follow,
            productive,
            cost,
            reached,
        ),
        Refusal::Length,
    )?;
    let from = Stand {
        next,
        changed: job.changed,
        done: job.done,
    };
    let (to, made) = work(
        job.kind, g, from, n, first, empty, follow, productive, cost, reached,
    );
    *job = Job {
        kind: job.kind,
        next: PIdx(to.next),
        changed: to.changed,
        done: to.done,
    };
    Ok(made)
}
