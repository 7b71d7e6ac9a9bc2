// Questions 15 to 19 in order, and the excess of a refusal.
ghost use Rattle.std.specs.Prelude.{◌≡◌, ◌*◌, ◌<◌};
ghost use Rattle.std.proofs.Math.IntN.{sub_ℕ};
ghost use Rattle.model.specs.Answers.{audited_of, number_of};
ghost use Rattle.model.specs.Audit.{refused as audit_refused, problem_audit, table_questions};
ghost use Rattle.model.specs.Limits.{value_bound};
ghost use Rattle.model.specs.Sections.{problem_of};
ghost use Rattle.auditing.specs.Plans.{problem_in, values_in, picks_in};
ghost use Rattle.auditing.specs.StateTests.{pick_questions};

use crate::plan::Plan;
use crate::searches::row_value;
use model::{AuditRefusal, Question};
use reading::layout::layout_of;
use reading::problem::Problem;
use walking::least::least_cost;
use walking::walk::{MARKS, walk};

// "V(s) minus row value, a signed number".
fn excess(value: u32, other: u64) -> i64
    requires { other < 2 * value_bound }
    ensures { result ≡ sub_ℕ value other }
{
    (value as i64) - (other as i64)
}

// A refusal with its place and its excess.
fn refused(question: Question, place: usize, excess: i64) -> Result<u32, AuditRefusal>
    requires { place < value_bound }
    ensures { audited_of result ≡ audit_refused (number_of question) place excess }
{
    Err(AuditRefusal {
        question,
        place: place as u32,
        excess,
    })
}

impl Plan<'_> {
    // Questions 18 and 19 of the states that the picks reach, and the least cost of the picks there.
    fn pick_questions(self) -> Result<u32, AuditRefusal>
        ensures { audited_of result
            ≡ pick_questions (problem_in self.entry) (values_in self.entry) (picks_in self.entry) }
    {
        let walked = walk(self.problem, self.picks, &mut [0u16; MARKS]);
        if let Some(s) = self.stray_state(&walked.marks) {
            return refused(Question::Stray, s, 0);
        }
        if let Some(s) = self.slack_state(&walked.marks) {
            let value = self.pick_value(self.picks[s]);
            let over = excess(self.values[s], value);
            return refused(Question::Slack, s, over);
        }
        Ok(least_cost(self.problem, self.picks, &walked.marks, self.states))
    }

    // Questions 16 to 19.
    pub(crate) fn table_questions(self) -> Result<u32, AuditRefusal>
        ensures { audited_of result
            ≡ table_questions (problem_in self.entry) (values_in self.entry) (picks_in self.entry) }
    {
        if let Some(s) = self.unbounded_state() {
            return refused(Question::Bounds, s, 0);
        }
        let file = self.problem.indexed();
        if let Some(u) = file.first_undercut(self.values, self.states) {
            let value = row_value(self.problem, self.values, u.row);
            let over = excess(self.values[u.state], value);
            return refused(Question::Undercut, u.row, over);
        }
        self.pick_questions()
    }
}

// Questions 15 to 19 of a problem with two tables.
pub fn audit_problem(
    problem: Problem<'_>,
    values: &[u32],
    picks: &[u16],
) -> Result<u32, AuditRefusal>
    ensures { audited_of result ≡ problem_audit (problem_of problem.entry.file.now) values.now picks.now }
{
    let states = layout_of(problem.file).states;
    if values.len() < states {
        return refused(Question::AuditTables, 0, 0);
    }
    if picks.len() < states {
        return refused(Question::AuditTables, 1, 0);
    }
    let plan = Plan {
        problem,
        states,
        values,
        picks,
    };
    plan.table_questions()
}
