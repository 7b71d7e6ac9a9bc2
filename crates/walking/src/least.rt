// "C is the least of 1000 × c or 1000 × D over the picks at reached states that aren't goals."
ghost use Rattle.std.specs.Prelude.{◌≡◌, ◌+◌, ◌*◌, ◌<◌, ◌⊎◌, length, get_or};
ghost use Rattle.model.specs.Limits.{give_up};
ghost use Rattle.model.specs.Problem.{give_up_cost};
ghost use Rattle.model.specs.Sections.{problem_of};
ghost use Rattle.model.specs.Value.{by_state};
ghost use Rattle.model.specs.Walk.{least_to};
ghost use Rattle.guarantee.specs.Leasts.{least_over};
ghost use Rattle.reading.specs.Tests.{rows_base};
ghost use Rattle.walking.specs.Costs.{PickCosts, Costed, ListCosted, lower_to, no_cost};

use crate::walk::MARKS;
use reading::index::ROWS;
use reading::picks::Pick;
use reading::problem::Problem;

// What a pick costs: the limit where it gives up, else its row's cost in ticks.
// It asks for one entry of the index, and so for less than a `Problem`.
fn pick_cost(index: &[u32], pick: u16, limit: u32) -> u32
    requires { (pick ≡ give_up) ⊎ (rows_base + 2 * pick + 1 < length index.now) }
    ensures { PickCosts index.now pick limit result }
{
    match Pick::from(pick) {
        Pick::GiveUp => limit,
        Pick::Row(r) => index[ROWS + 2 * r + 1],
    }
}

// The lower of `least` and what the pick at s costs, where s is marked and no goal; else `least`.
fn lower(
    problem: Problem<'_>,
    picks: &[u16],
    marks: &[u8; MARKS],
    limit: u32,
    s: usize,
    least: u32,
) -> u32
    requires { Costed problem.file.now picks.now marks.now
        × (limit ≡ give_up_cost (problem_of problem.file.now)) × (s < (problem_of problem.file.now).states) }
    ensures { result ≡ lower_to problem.entry.file.now picks.now marks.now s least }
{
    if problem.is_goal(s) || marks[s] == 0 {
        return least;
    }
    least.min(pick_cost(problem.index, picks[s], limit))
}

// The least cost of the picks at the start and at the marked states, of the first n, that are no goals.
pub fn least_cost(problem: Problem<'_>, picks: &[u16], marks: &[u8; MARKS], n: usize) -> u32
    requires { Costed problem.file.now picks.now marks.now
        × (n ≡ (problem_of problem.file.now).states) × (get_or marks.now (problem_of problem.file.now).start 0 ≡ 1) }
    ensures { result ≡ least_to (problem_of problem.entry.file.now) (by_state picks.now) marks.now n }
{
    let limit = problem.give_up_cost();
    let mut least = pick_cost(problem.index, picks[problem.start()], limit);
    for s in 0..n {
        least = lower(problem, picks, marks, limit, s, least);
    }
    least
}

// The least cost of the picks at the states of a list; no pick costs as much as the greatest number.
pub fn least_listed(problem: Problem<'_>, picks: &[u16], list: &[u16]) -> u32
    requires { ListCosted problem.file.now problem.index.now picks.now list.now (length list.now) }
    ensures { result ≡ least_over (problem_of problem.entry.file.now) (by_state picks.now) list.now no_cost }
{
    let limit = problem.give_up_cost();
    let mut least = u32::MAX;
    for &s in list {
        let cost = pick_cost(problem.index, picks[s as usize], limit);
        least = least.min(cost);
    }
    least
}
