// "Walk from the start with the picks as they are": visit_state and visit_outcomes call each other, whatever leads.
ghost use Rattle.std.specs.Prelude.{◌≡◌, ℕ, List, false, not, ◌≤◌, ◌<◌, length, get_or, replicate};
ghost use Rattle.model.specs.Limits.{max_states};
ghost use Rattle.model.specs.Questions.{passes, layout_questions};
ghost use Rattle.model.specs.Sections.{problem_of};
ghost use Rattle.walking.specs.Trails.{OutcomesIn, Under, OverState, OverOutcomes, Along, Told, WalkedOn};
ghost use Rattle.walking.specs.Walked.{Walked};

use crate::picked::ByPicks;
use model::MAX_STATES;
use reading::numbers::u16_at;
use reading::problem::Problem;
use reading::settings::start_of;
use reading::states::is_goal;

// "Each walk then begins with 2,048 marks": one for each state that a file can have.
pub const MARKS: usize = MAX_STATES;

// What leads a walk: a file, and the outcomes by which the walk goes on from each of its states.
pub(crate) trait Guide {
    ghost bytes: { Self → List ℕ };

    ghost graph: { Self → ℕ → List ℕ };

    fn file(&self) -> &[u8]
        ensures { result.now ≡ bytes self.now };

    // The outcomes of state s, 4 bytes each.
    fn outcomes(&self, s: usize) -> &[u8]
        requires { s < (problem_of (bytes self.now)).states }
        ensures { Told (bytes self.now) (graph self.now) s result.now };

    ghost along: { (x : Self) → Along (bytes x) (graph x) };
}

// Whether state s, whose picked outcomes are given, is no goal. A goal has no rows, so where there are outcomes its
// bytes need not be read.
pub fn no_goal(file: &[u8], outcomes: &[u8], s: usize) -> bool
    requires { (layout_questions file.now ≡ passes) × (s < (problem_of file.now).states)
        × (0 < length outcomes.now → (problem_of file.now).goal s ≡ false) }
    ensures { result ≡ not ((problem_of file.now).goal s) }
{
    !outcomes.is_empty() || !is_goal(file, s)
}

// Visits state s, which is not marked: marks it, visits its outcomes, and then lists it. A goal has none, and is not
// listed. The list has n states before, and as many as the answer says after.
#[cycle(visit_outcomes_visit_state)]
fn visit_state<G: Guide>(
    guide: &G,
    marks: &mut [u8; MARKS],
    list: &mut [u16; MARKS],
    s: usize,
    n: usize,
) -> usize
    requires { Under (G.bytes guide.now) marks.old list.old n
        × (s < (problem_of (G.bytes guide.now)).states) × (get_or marks.old s 0 ≡ 0) }
    ensures { OverState
        (G.bytes guide.now) (G.graph guide.now) s
        marks.old list.old n marks.new list.new result }
{
    marks[s] = 1;
    let outcomes = guide.outcomes(s);
    if no_goal(guide.file(), outcomes, s) {
        let k = visit_outcomes(guide, marks, list, outcomes, n);
        list[k] = s as u16;
        return k + 1;
    }
    n
}

// Visits the states that the outcomes lead to, in order, where they are not marked.
#[cycle(visit_outcomes_visit_state)]
fn visit_outcomes<G: Guide>(
    guide: &G,
    marks: &mut [u8; MARKS],
    list: &mut [u16; MARKS],
    outcomes: &[u8],
    n: usize,
) -> usize
    requires { Under (G.bytes guide.now) marks.old list.old n × OutcomesIn (G.bytes guide.now) outcomes.now }
    ensures { OverOutcomes
        (G.bytes guide.now) (G.graph guide.now) outcomes.now
        marks.old list.old n marks.new list.new result }
{
    let mut k = n;
    for outcome in outcomes.chunks_exact(4) {
        let t = u16_at(outcome, 0) as usize;
        if marks[t] == 0 {
            k = visit_state(guide, marks, list, t, k);
        }
    }
    k
}

// Walks from the start: marks the reached states, lists those that are no goals, and answers how many are listed.
pub(crate) fn walk_along<G: Guide>(
    guide: &G,
    marks: &mut [u8; MARKS],
    list: &mut [u16; MARKS],
) -> usize
    requires { (marks.old ≡ replicate max_states 0) × ((problem_of (G.bytes guide.now)).states ≤ length list.old) }
    ensures { WalkedOn (G.bytes guide.now) (G.graph guide.now) marks.new list.new result }
{
    visit_state(guide, marks, list, start_of(guide.file()), 0)
}

// A walk done: the marks of the reached states, and how many states are listed.
#[derive(Drop)]
pub struct WalkDone {
    pub marks: [u8; MARKS],
    pub listed: usize,
}

// The walk with the picks as they are, with marks made fresh, which it answers.
pub fn walk(problem: Problem<'_>, picks: &[u16], list: &mut [u16; MARKS]) -> WalkDone
    requires { ((problem_of problem.file.now).states ≤ length picks.now)
        × ((problem_of problem.file.now).states ≤ length list.old) }
    ensures { Walked problem.entry.file.now picks.now result.marks list.new result.listed }
{
    let mut done = WalkDone {
        marks: [0u8; MARKS],
        listed: 0,
    };
    done.listed = walk_along(&ByPicks { problem, picks }, &mut done.marks, list);
    done
}
