// The remainders of a plan: what rounding took away from the value of each state's pick, under the values that the run left.
ghost use Rattle.std.specs.Prelude.{◌≡◌, ◌≤◌, length};
ghost use Rattle.model.specs.Limits.{max_states};
ghost use Rattle.model.specs.Rounds.{fill_to};
ghost use Rattle.programs.specs.Remainders.{PicksReady, RunReady, RemaindersTo, remainder_within, remainder_at};

use model::MAX_STATES;
use reading::layout::layout_of;
use reading::problem::Indexed;

// The remainder of a pick under `values`, 0 where it is none of the rows.
fn pick_remainder(problem: Indexed<'_>, values: &[u32], rows: usize, pick: u16) -> u16
    requires { PicksReady problem.file.now values.now rows }
    ensures { result ≡ remainder_within problem.entry.file.now values.now pick }
{
    let r = pick as usize;
    if rows <= r {
        return 0;
    }
    problem.row_value(values, r).remainder as u16
}

// Puts the remainder of the pick at each of the first n states at the front of `remainders`.
fn put_remainders(
    problem: Indexed<'_>,
    values: &[u32],
    picks: &[u16],
    rows: usize,
    n: usize,
    remainders: &mut [u16; MAX_STATES],
)
    requires { PicksReady problem.file.now values.now rows × (n ≤ length picks.now) × (n ≤ max_states) }
    ensures { remainders.new
        ≡ fill_to (remainder_at problem.entry.file.now values.now picks.now) remainders.old n }
{
    for s in 0..n {
        remainders[s] = pick_remainder(problem, values, rows, picks[s]);
    }
}

// The remainder of the pick at each of the n states of a run, and 0 for the states beyond; n is 0 where there was no run.
pub fn remainders_of(
    file: &[u8],
    index: &[u32],
    values: &[u32],
    picks: &[u16],
    n: usize,
) -> [u16; MAX_STATES]
    requires { RunReady file.now index.now values.now picks.now n }
    ensures { RemaindersTo file.now values.now picks.now n result }
{
    let mut remainders = [0u16; MAX_STATES];
    if n != 0 {
        let problem = Indexed { file, index };
        let rows = layout_of(file).rows;
        put_remainders(problem, values, picks, rows, n, &mut remainders);
    }
    remainders
}
