// One loop for every kind of table: rounds of its step, rounds until none is needed.
ghost use Rattle.grammar.specs.Lent.{flat_of};
ghost use Rattle.std.specs.Prelude.{false, not, ◌&&◌, ◌≡◌};
ghost use Rattle.engine.specs.First.{lent};
ghost use Rattle.engine.specs.Kinds.{Kind, Ready, Steps, Begun, RoundReady, Rounds, Settled};

use grammar::Grammar;
use tables::inner::turn_at;

pub mod cost;
pub mod first;
pub mod follow;
pub mod productive;

// What a step came to: whether it changed its table, and whether that was so early in the round that no further one is
// needed for it.
#[derive(Clone, Copy)]
pub struct Moved {
    pub changed: bool,
    pub early: bool,
}

// A step whose every change needs a further round.
fn told(changed: bool) -> Moved
    ensures { (result.changed ≡ changed) × (result.early ≡ false) }
{
    Moved {
        changed,
        early: false,
    }
}

// A kind of table, as the rounds see it. FIRST is `table` and EMPTY `row`; of the other kinds `table` is the one that is
// written, and `row` stays as it is.
pub trait Table {
    ghost kind: { Self → Kind };

    // Production p's step. `read` has the rules that steps of COST read so far. `again` if each production had its turn:
    // then FIRST passes over plain ones, and FOLLOW goes by what is fed.
    fn step(
        &self,
        g: &Grammar,
        again: bool,
        p: usize,
        table: &mut [u32],
        row: &mut [u32],
        read: &mut [bool; 512],
    ) -> Moved
        requires { Ready (kind self.now) (flat_of g.now) again p (lent table.old row.old) read.old }
        ensures { Steps (kind self.now) (flat_of g.now) p (lent table.old row.old) read.old result.changed (result.changed && not result.early) (lent table.new row.new) read.new };
}

// One round, each production once; whether a further one is needed.
fn round<T: Table>(
    kind: &T,
    g: &Grammar,
    again: bool,
    down: bool,
    table: &mut [u32],
    row: &mut [u32],
) -> bool
    requires { RoundReady (T.kind kind.now) (flat_of g.now) again (lent table.old row.old) }
    ensures { Rounds (T.kind kind.now) (flat_of g.now) down (lent table.old row.old) result (lent table.new row.new) }
{
    let mut read: [bool; 512] = [false; 512];
    let mut more = false;
    for i in 0..g.owners.len() {
        let p = turn_at(down, g.owners.len(), i);
        let got = kind.step(g, again, p, table, row, &mut read);
        more |= got.changed & !got.early;
    }
    more
}

// Rounds until no further one is needed: one up, the next down, so that a chain of rules settles in a few rounds either
// way. They go by a copy of the grammar: in one that is lent the compiler looks up the places of the lists again behind
// each word that is written, and in a copy it need not.
pub fn settle<T: Table>(kind: &T, g: &Grammar, table: &mut [u32], row: &mut [u32])
    requires { Begun (T.kind kind.now) (flat_of g.now) (lent table.old row.old) }
    ensures { Settled (T.kind kind.now) (flat_of g.now) (lent table.old row.old) (lent table.new row.new) }
{
    let own = *g;
    let mut again = false;
    let mut down = false;
    let mut more = true;
    while more {
        more = round(kind, &own, again, down, table, row);
        again = true;
        down = !down;
    }
}
