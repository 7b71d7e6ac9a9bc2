// The lent tables: whether they are long enough, how they begin, and what the walk list gets.
// Entries beyond the file's states and rows are not touched.
ghost use Rattle.std.specs.Prelude.{◌≡◌, true, [], ◌≤◌, length, take};
ghost use Rattle.model.specs.Answers.{verdict_of};
ghost use Rattle.model.specs.Limits.{max_states};
ghost use Rattle.model.specs.Rounds.{machine_start, list_table};
ghost use Rattle.model.specs.Solution.{solve_questions};
ghost use Rattle.backing.specs.Backable.{machine};
ghost use Rattle.backing.specs.Scanned.{problem_in};
ghost use Rattle.solving.specs.Lent.{tables_in, Long};

use crate::Tables;
use model::{LIST_END, MAX_BUDGET, NO_PICK, Question, Refusal};
use reading::layout::layout_of;
use reading::problem::Problem;
use reading::states::estimates;
use walking::walk::MARKS;

// "At first V = H, no state has a pick, and each row remembers its value under H."
pub fn begin(problem: Problem<'_>, values: &mut [u32], picks: &mut [u16], remembered: &mut [u32])
    requires { Long (problem_in problem) values.old picks.old remembered.old }
    ensures { machine values.new picks.new remembered.new [] 0 true
        ≡ machine_start (problem_in problem.entry) values.old picks.old remembered.old }
{
    let l = layout_of(problem.file);
    estimates(problem.file, l.states, values);
    picks[..l.states].fill(NO_PICK);
    for r in 0..l.rows {
        remembered[r] = problem.row_value(values, r).value as u32;
    }
}

impl Tables<'_> {
    // Questions 12 and 13, about the lengths of the tables and about the budget.
    pub fn questions(&self, problem: Problem<'_>, budget: u64) -> Result<(), Refusal>
        ensures { verdict_of result ≡ solve_questions (problem_in problem.entry) budget (tables_in self.now) }
    {
        let l = layout_of(problem.file);
        if self.values.len() < l.states {
            return Err(Question::RunTables.at(0));
        }
        if self.picks.len() < l.states {
            return Err(Question::RunTables.at(1));
        }
        if self.remembered.len() < l.rows {
            return Err(Question::RunTables.at(2));
        }
        if self.walk.len() < l.states {
            return Err(Question::RunTables.at(3));
        }
        if MAX_BUDGET < budget {
            return Err(Question::Budget.at(0));
        }
        Ok(())
    }
}

// "the walk list ending in 65,535s up to the number of states", n: the k listed states, and then the ending.
pub fn put_list(listed: &[u16; MARKS], k: usize, n: usize, list: &mut [u16])
    requires { (k ≤ n) × (n ≤ max_states) × (n ≤ length listed.now) × (n ≤ length list.old) }
    ensures { list.new ≡ list_table n (take k listed.now) list.old }
{
    list[..k].copy_from_slice(&listed[..k]);
    list[k..n].fill(LIST_END);
}
