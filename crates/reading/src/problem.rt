// A file with its index, once its questions have said yes, and what is asked of the two together.
ghost use Rattle.std.specs.Prelude.{◌≡◌, ◌<◌, ◌≤◌, length};
ghost use Rattle.guarantee.specs.WellFormed.{WellFormed};
ghost use Rattle.model.specs.Problem.{give_up_cost};
ghost use Rattle.model.specs.Sections.{problem_of};
ghost use Rattle.model.specs.Value.{row_value, row_remainder, by_state};
ghost use Rattle.reading.specs.Laid.{SettingsOf};
ghost use Rattle.reading.specs.Ready.{Ready};

use crate::settings::{Settings, give_up_cost, settings_of, start_of};
use crate::states::is_goal;
use crate::value::RowValue;

// A file that questions 1 to 10 let through, with its index.
#[derive(Clone, Copy)]
pub struct Indexed<'a> {
    pub file: &'a [u8],
    pub index: &'a [u32],
    pub ghost ready: { Ready file.now index.now },
}

// A file that questions 1 to 11 let through, with its index.
#[derive(Clone, Copy)]
pub struct Problem<'a> {
    pub file: &'a [u8],
    pub index: &'a [u32],
    pub ghost ready: { Ready file.now index.now },
    pub ghost formed: { WellFormed (problem_of file.now) },
}

impl<'a> Problem<'a> {
    // The same file and index, for what asks for questions 1 to 10 alone.
    pub fn indexed(self) -> Indexed<'a>
        ensures { (result.file.now ≡ self.entry.file.now) × (result.index.now ≡ self.entry.index.now) }
    {
        Indexed {
            file: self.file,
            index: self.index,
        }
    }

    // The settings.
    pub fn settings(self) -> Settings
        ensures { SettingsOf self.entry.file.now result }
    {
        settings_of(self.file)
    }

    // The start state.
    pub fn start(self) -> usize
        ensures { result ≡ (problem_of self.entry.file.now).start }
    {
        start_of(self.file)
    }

    // "Giving up costs 1000 × D", in ticks.
    pub fn give_up_cost(self) -> u32
        ensures { result ≡ give_up_cost (problem_of self.entry.file.now) }
    {
        give_up_cost(self.file)
    }

    // Whether state s is a goal.
    pub fn is_goal(self, s: usize) -> bool
        requires { s < (problem_of self.file.now).states }
        ensures { result ≡ (problem_of self.entry.file.now).goal s }
    {
        is_goal(self.file, s)
    }

    // The value of row r under `values`, and the remainder.
    pub fn row_value(self, values: &[u32], r: usize) -> RowValue
        requires { ((problem_of self.file.now).states ≤ length values.now) × (r < (problem_of self.file.now).rows) }
        ensures value_value { result.value ≡ row_value (problem_of self.entry.file.now) (by_state values.now) r }
        ensures remainder { result.remainder ≡ row_remainder (problem_of self.entry.file.now) (by_state values.now) r }
    {
        self.indexed().row_value(values, r)
    }
}
