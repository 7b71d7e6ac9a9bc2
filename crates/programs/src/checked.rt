// What is known of a file before it is planned.
ghost use Rattle.std.specs.Prelude.{◌≡◌, ◌≤◌};
ghost use Rattle.model.specs.Limits.{max_states};
ghost use Rattle.model.specs.Questions.{file_questions};
ghost use Rattle.model.specs.Sections.{problem_of};
ghost use Rattle.programs.specs.Checked.{passed_states};

use checking::questions::check;
use reading::layout::layout_of;

// The number of states of a file that passes questions 1 to 11; 0 where it is refused.
pub fn states_in(file: &[u8]) -> usize
    ensures value { result ≡ passed_states (file_questions file.now) (problem_of file.now).states }
    ensures few { result ≤ max_states }
{
    match check(file) {
        Ok(()) => layout_of(file).states,
        Err(_) => 0,
    }
}
