// Questions 16, 18 and 19 of each state in order, and the value of a pick.
ghost use Rattle.std.specs.Prelude.{◌≡◌, ◌*◌, ◌≤◌, ◌<◌, ◌⊎◌, eqb, length};
ghost use Rattle.model.specs.Audit.{open_state, own_pick, pick_value_on, unbounded_state, stray_state, slack_state};
ghost use Rattle.model.specs.Limits.{give_up, value_bound};
ghost use Rattle.model.specs.Problem.{give_up_cost};
ghost use Rattle.model.specs.Sections.{problem_of};
ghost use Rattle.model.specs.Value.{row_value, by_state};
ghost use Rattle.guarantee.specs.Found.{Found};
ghost use Rattle.walking.specs.Costs.{Costed};
ghost use Rattle.auditing.specs.Plans.{problem_in, values_in, picks_in};
ghost use Rattle.auditing.specs.StateTests.{bounded_at, close_at};

use crate::plan::Plan;
use reading::index::is_own;
use reading::picks::Pick;
use reading::problem::Problem;
use walking::walk::MARKS;

// The value of row r. It is less than twice what fits in 32 bits, whatever the table holds.
pub fn row_value(problem: Problem<'_>, values: &[u32], r: usize) -> u64
    requires { ((problem_of problem.file.now).states ≤ length values.now) × (r < (problem_of problem.file.now).rows) }
    ensures result_value { result ≡ row_value (problem_of problem.entry.file.now) (by_state values.now) r }
    ensures low { result < 2 * value_bound }
{
    problem.row_value(values, r).value
}

impl Plan<'_> {
    // Whether V is zero at a goal and at most `limit`, what giving up costs, elsewhere.
    fn is_bounded(self, limit: u32, s: usize) -> bool
        requires { (limit ≡ give_up_cost (problem_in self)) × (s < self.states) }
        ensures { result ≡ bounded_at (problem_in self.entry) (values_in self.entry) s }
    {
        if self.problem.is_goal(s) {
            self.values[s] == 0
        } else {
            self.values[s] <= limit
        }
    }

    // Question 16: the first state at which V is out of bounds, if there is one.
    pub(crate) fn unbounded_state(self) -> Option<usize>
        ensures { Found self.entry.states (unbounded_state (problem_in self.entry) (values_in self.entry)) result }
    {
        let limit = self.problem.give_up_cost();
        (0..self.states).find(|&s| !self.is_bounded(limit, s))
    }

    // Whether s is reached and no goal.
    fn is_open(self, marks: &[u8; MARKS], s: usize) -> bool
        requires { s < self.states }
        ensures { result ≡ open_state (problem_in self.entry) marks.now s }
    {
        !self.problem.is_goal(s) && marks[s] != 0
    }

    // Whether the pick at s gives up or is a row of s.
    fn is_own(self, s: usize) -> bool
        requires { s < self.states }
        ensures { result ≡ own_pick (problem_in self.entry) s (picks_in self.entry s) }
    {
        match Pick::from(self.picks[s]) {
            Pick::GiveUp => true,
            Pick::Row(r) => is_own(self.problem.index, s, r as u32),
        }
    }

    // Question 18: the first state that is reached and no goal and whose pick is neither its row nor giving up, if
    // there is one.
    pub(crate) fn stray_state(self, marks: &[u8; MARKS]) -> Option<usize>
        ensures { Found self.entry.states (stray_state (problem_in self.entry) (picks_in self.entry) marks.now) result }
    {
        (0..self.states).find(|&s| self.is_open(marks, s) && !self.is_own(s))
    }

    // The value of a pick: what giving up costs, or its row value.
    pub(crate) fn pick_value(self, pick: u16) -> u64
        requires { (pick ≡ give_up) ⊎ (pick < (problem_in self).rows) }
        ensures result_value { result
            ≡ pick_value_on (eqb pick give_up) (problem_in self.entry) (values_in self.entry) pick }
        ensures low { result < 2 * value_bound }
    {
        match Pick::from(pick) {
            Pick::GiveUp => self.problem.give_up_cost() as u64,
            Pick::Row(r) => row_value(self.problem, self.values, r),
        }
    }

    // Whether the value of the pick at s is at most V + e - 1, where s is reached and no goal.
    fn is_close(self, marks: &[u8; MARKS], tolerance: u32, s: usize) -> bool
        requires { Costed self.problem.file.now self.picks.now marks.now
            × (tolerance ≡ (problem_in self).tolerance) × (s < self.states) }
        ensures { result ≡ close_at (problem_in self.entry) (values_in self.entry) (picks_in self.entry) marks.now s }
    {
        !self.is_open(marks, s)
            || self.pick_value(self.picks[s]) <= (self.values[s] as u64) + (tolerance as u64) - 1
    }

    // Question 19: the first state that is reached and no goal and whose pick's value is above V + e - 1, if there is
    // one.
    pub(crate) fn slack_state(self, marks: &[u8; MARKS]) -> Option<usize>
        requires { Costed self.problem.file.now self.picks.now marks.now }
        ensures { Found self.entry.states
            (slack_state (problem_in self.entry) (values_in self.entry) (picks_in self.entry) marks.now) result }
    {
        let tolerance = self.problem.settings().tolerance;
        (0..self.states).find(|&s| !self.is_close(marks, tolerance, s))
    }
}
