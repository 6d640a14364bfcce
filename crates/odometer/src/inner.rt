// The odometer over the choices of a production: the last place turns fastest.
ghost use Rattle.odometer.specs.Turning.{Turnable, Turns};

// Turns the first m places k times from all 0, the last place fastest. None where the choice is shown; else how many
// turns are left where the first place spilled.
fn turn(bases: &[u32; 16], m: usize, k: u32, todo: &mut [u32; 16]) -> Option<u32>
    requires { Turnable bases.now m todo.old }
    ensures { Turns bases.now m k todo.old result todo.new }
{
    let mut left = k;
    'turns: loop {
        if left == 0 {
            return None;
        }
        left -= 1;
        let mut j = m;
        loop {
            if j == 0 {
                break 'turns;
            }
            j -= 1;
            let d = todo[j];
            if d + 1 < bases[j] {
                todo[j] = d + 1;
                break;
            }
            todo[j] = 0;
        }
    }
    Some(left)
}

// The same, with the last place set at once: it takes k by its base, and those before it turn once for each whole round
// of it.
pub fn show(bases: &[u32; 16], m: usize, k: u32, todo: &mut [u32; 16]) -> Option<u32>
    requires { Turnable bases.now m todo.old }
    ensures { Turns bases.now m k todo.old result todo.new }
{
    if m == 0 {
        return turn(bases, m, k, todo);
    }
    let last = bases[m - 1];
    let Some(rounds) = turn(bases, m - 1, k / last, todo) else {
        todo[m - 1] = k % last;
        return None;
    };
    Some(rounds * last + k % last)
}
