// The settings of a file whose sections are whole: start, tolerance, penalty and weight total.
// Nothing else reads them, so their places stand here alone.
ghost use Rattle.std.specs.Prelude.{◌≡◌, ◌≤◌};
ghost use Rattle.model.specs.Limits.{max_penalty};
ghost use Rattle.model.specs.Problem.{give_up_cost};
ghost use Rattle.model.specs.Questions.{passes, layout_questions};
ghost use Rattle.model.specs.Sections.{problem_of};
ghost use Rattle.reading.specs.Laid.{SettingsOf};

use crate::layout::FIRST_SETTING;
use crate::numbers::{u16_at, u32_at};
use model::{MIN_SETTINGS, THOUSANDTHS, TICKS_PER_SECOND};

// Tolerance in ticks, penalty in seconds.
#[derive(Clone, Copy)]
pub struct Settings {
    pub start: u32,
    pub tolerance: u32,
    pub penalty: u32,
    pub total: u32,
}

// The weight total W: the fourth setting, or 1,000 where there are three.
#[tactic(auto, using(crate::proofs::Places::settings_there, crate::proofs::Places::fourth_there))]
pub fn total_of(file: &[u8]) -> u32
    requires { layout_questions file.now ≡ passes }
    ensures { result ≡ (problem_of file.now).total }
{
    if u16_at(file, 0) == MIN_SETTINGS {
        return THOUSANDTHS;
    }
    u32_at(file, FIRST_SETTING + 12)
}

// All settings.
#[tactic(auto, using(crate::proofs::Places::settings_there))]
pub fn settings_of(file: &[u8]) -> Settings
    requires { layout_questions file.now ≡ passes }
    ensures { SettingsOf file.now result }
{
    Settings {
        start: u32_at(file, FIRST_SETTING),
        tolerance: u32_at(file, FIRST_SETTING + 4),
        penalty: u32_at(file, FIRST_SETTING + 8),
        total: total_of(file),
    }
}

// The start state.
#[tactic(auto, using(crate::proofs::Places::settings_there, crate::proofs::Places::start_at))]
pub fn start_of(file: &[u8]) -> usize
    requires { layout_questions file.now ≡ passes }
    ensures { result ≡ (problem_of file.now).start }
{
    u32_at(file, FIRST_SETTING) as usize
}

// "Giving up costs 1000 × D", in ticks.
#[tactic(auto, using(crate::proofs::Places::settings_there, crate::proofs::Places::penalty_at))]
pub fn give_up_cost(file: &[u8]) -> u32
    requires { (layout_questions file.now ≡ passes) × ((problem_of file.now).penalty ≤ max_penalty) }
    ensures { result ≡ give_up_cost (problem_of file.now) }
{
    TICKS_PER_SECOND * u32_at(file, FIRST_SETTING + 8)
}
