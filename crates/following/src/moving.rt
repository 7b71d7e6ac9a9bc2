// A report on a plan that the audit accepted: questions 20 to 22, and the move.
ghost use Rattle.std.specs.Prelude.{◌≡◌, not, ℕ, ◌≤◌, length};
ghost use Rattle.model.specs.Answers.{number_of, verdict_of};
ghost use Rattle.model.specs.Audit.{accepted};
ghost use Rattle.model.specs.Following.{at_end, in_shift, may_occur, moved as model-moved};
ghost use Rattle.model.specs.Following.{report_questions, follow};
ghost use Rattle.model.specs.Questions.{ask, passes};
ghost use Rattle.model.specs.Sections.{problem_of};
ghost use Rattle.model.specs.Value.{by_state};
ghost use Rattle.auditing.specs.Plans.{problem_in, picks_in};
ghost use Rattle.following.specs.Handing.{Hands};

use auditing::plan::Plan;
use model::{AuditRefusal, Follower, MAX_MOVES, MAX_SPENT, Question, Refusal};
use reading::index::is_own;
use reading::layout::layout_of;
use reading::outcomes::seconds_of;
use reading::picks::Pick;
use reading::problem::Problem;

// Question 20 says yes: the mark is clear, and the record's state is no goal. A number that is no state is no goal.
fn is_open(plan: Plan<'_>, w: Follower) -> bool
    ensures { result ≡ not (at_end (problem_in plan.entry) w) }
{
    let state = w.state as usize;
    w.mark == 0 && (plan.states <= state || !plan.problem.is_goal(state))
}

// Question 21 says yes: below a million moves, and at most 400,000,000,000 seconds.
fn is_in_shift(w: Follower) -> bool
    ensures { result ≡ in_shift w }
{
    w.moves < MAX_MOVES && w.seconds <= MAX_SPENT
}

// Question 22 says yes: s is a state of the plan, its pick is its own, and the pick has such an outcome.
fn may_occur(plan: Plan<'_>, s: usize, outcome: u64) -> bool
    ensures { result ≡ may_occur (problem_in plan.entry) (picks_in plan.entry) s outcome }
{
    s < plan.states
        && match Pick::from(plan.picks[s]) {
            Pick::GiveUp => outcome == 0,
            Pick::Row(r) => {
                is_own(plan.problem.index, s, r as u32)
                    && outcome < plan.problem.indexed().outcome_count(r) as u64
            }
        }
}

// The record after one more move. Giving up adds D and sets the mark; a row adds its seconds and goes where its outcome
// leads.
fn moved(plan: Plan<'_>, w: Follower, outcome: u64) -> Follower
    requires { report_questions (problem_in plan) (picks_in plan) w outcome ≡ passes }
    ensures { result ≡ model-moved (problem_in plan.entry) (picks_in plan.entry) w outcome }
{
    let moves = w.moves + 1;
    match Pick::from(plan.picks[w.state as usize]) {
        Pick::GiveUp => Follower {
            moves,
            seconds: w.seconds + plan.problem.settings().penalty as u64,
            mark: 1,
            ..w
        },
        Pick::Row(r) => Follower {
            state: plan.problem.indexed().successor(r, outcome as usize) as u64,
            moves,
            seconds: w.seconds + seconds_of(plan.problem.index, r) as u64,
            ..w
        },
    }
}

// A question of a report: a no has "place 0".
fn ask(question: Question, yes: bool) -> Result<(), Refusal>
    ensures { verdict_of result ≡ ask (number_of question) 0 yes }
{
    if yes { Ok(()) } else { Err(question.at(0)) }
}

// Questions 20 to 22 in order, and the move.
pub fn report_on(
    w: Follower,
    problem: Problem<'_>,
    values: &[u32],
    picks: &[u16],
    outcome: u64,
) -> Result<Follower, AuditRefusal>
    requires { ((problem_of problem.file.now).states ≤ length values.now)
        × ((problem_of problem.file.now).states ≤ length picks.now) }
    ensures { (C : ℕ) → Hands result w
        (follow (accepted C)
        (report_questions (problem_of problem.entry.file.now) (by_state picks.now) w outcome) w
        (model-moved (problem_of problem.entry.file.now) (by_state picks.now) w outcome)) }
{
    let plan = Plan {
        problem,
        states: layout_of(problem.file).states,
        values,
        picks,
    };
    let open = is_open(plan, w);
    let in_shift = is_in_shift(w);
    let occurs = may_occur(plan, w.state as usize, outcome);
    ask(Question::Underway, open)?;
    ask(Question::Shift, in_shift)?;
    ask(Question::Outcome, occurs)?;
    Ok(moved(plan, w, outcome))
}
