// The states of a file whose sections are whole: which are goals, and their estimates.
// The rows of the states are in the index.
ghost use Rattle.std.specs.Prelude.{◌≡◌, ◌+◌, ◌≤◌, ◌<◌, length};
ghost use Rattle.model.specs.Questions.{passes, layout_questions};
ghost use Rattle.model.specs.Rounds.{fill_to};
ghost use Rattle.model.specs.Sections.{problem_of, state_at};
ghost use Rattle.reading.specs.Bounds.{byte_bound};

use crate::layout::first_state;
use crate::numbers::{byte_at, u32_at};

// Where state s stands.
#[tactic(auto, using(crate::proofs::Places::settings_there))]
fn state_at(file: &[u8], s: usize) -> usize
    requires { (layout_questions file.now ≡ passes) × (s < (problem_of file.now).states) }
    ensures { (result ≡ state_at file.now s) × (result + 6 ≤ length file.now) }
{
    first_state(file) + 6 * s
}

// Whether state s is a goal.
#[tactic(auto, using(crate::proofs::Places::goal_at))]
pub fn is_goal(file: &[u8], s: usize) -> bool
    requires { (layout_questions file.now ≡ passes) × (s < (problem_of file.now).states) }
    ensures { result ≡ (problem_of file.now).goal s }
{
    byte_at(file, state_at(file, s) + 5) == 1
}

// The estimate of state s, in ticks.
#[tactic(auto, using(crate::proofs::Places::estimate_at))]
pub fn estimate_of(file: &[u8], s: usize) -> u32
    requires { (layout_questions file.now ≡ passes) × (s < (problem_of file.now).states) }
    ensures { result ≡ (problem_of file.now).estimate s }
{
    u32_at(file, state_at(file, s))
}

// The number of rows of state s.
#[tactic(auto, using(crate::proofs::Places::row_count_at_lem))]
pub fn row_count_of(file: &[u8], s: usize) -> u32
    requires { (layout_questions file.now ≡ passes) × (s < (problem_of file.now).states) }
    ensures { (result ≡ (problem_of file.now).row_count s) × (result < byte_bound) }
{
    byte_at(file, state_at(file, s) + 4)
}

// Fills in the estimates of the file's n states.
pub fn estimates(file: &[u8], n: usize, values: &mut [u32])
    requires { (layout_questions file.now ≡ passes) × (n ≡ (problem_of file.now).states) × (n ≤ length values.old) }
    ensures { values.new ≡ fill_to (problem_of file.now).estimate values.old n }
{
    for s in 0..n {
        values[s] = estimate_of(file, s);
    }
}
