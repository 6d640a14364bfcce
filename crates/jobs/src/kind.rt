// The kinds of jobs by their names.
ghost use Rattle.std.specs.Prelude.{◌≡◌};
ghost use Rattle.grammar.specs.Outcome.{answers, unless};
ghost use Rattle.jobs.specs.Kinds.{kind_read, no_kind};

use crate::{JOB_COST, JOB_FIRST, JOB_FOLLOW, JOB_PRODUCTIVE};
use grammar::Refusal;

// What a job fills.
#[derive(Clone, Copy)]
pub enum Kind {
    First,
    Follow,
    Productive,
    Cost,
}

impl TryFrom<u16> for Kind {
    type Error = Refusal;

    ghost try_from_gives = { λ n r. kind_read r ≡ unless (no_kind n) 17 (answers n) };

    fn try_from(number: u16) -> Result<Kind, Refusal> {
        match number {
            JOB_FIRST => Ok(Kind::First),
            JOB_FOLLOW => Ok(Kind::Follow),
            JOB_PRODUCTIVE => Ok(Kind::Productive),
            JOB_COST => Ok(Kind::Cost),
            _ => Err(Refusal::Job),
        }
    }
}
