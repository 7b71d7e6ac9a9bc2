// The four sections one by one: questions 1 to 3.
ghost use Rattle.std.specs.Prelude.{◌≡◌, ◌≤◌, length, IfOk};
ghost use Rattle.model.specs.Answers.{verdict_of};
ghost use Rattle.model.specs.Questions.{section_questions, layout_questions};
ghost use Rattle.model.specs.Sections.{section_end};

use crate::items::is_between;
use model::{MAX_OUTCOMES, MAX_ROWS, MAX_SETTINGS, MAX_STATES, MIN_SETTINGS, Question, Refusal};
use reading::layout::section_end;
use reading::numbers::u16_at;

// Questions 1 and 2 about section `place`, whose count stands at `i` and may be `low` to `high`: where its items end.
fn section(
    file: &[u8],
    place: u32,
    i: usize,
    size: usize,
    low: u32,
    high: u32,
) -> Result<usize, Refusal>
    requires { (i ≤ length file.now) × (size ≤ 6) }
    ensures verdict { verdict_of result ≡ section_questions place i size low high file.now }
    ensures ends { IfOk result (λ end. (end ≡ section_end size file.now i) × (end ≤ length file.now)) }
{
    if file.len() < i + 2 {
        return Err(Question::Whole.at(place));
    }
    if !is_between(low, high, u16_at(file, i)) {
        return Err(Question::Count.at(place));
    }
    let end = section_end(file, i, size);
    if file.len() < end {
        return Err(Question::Whole.at(place));
    }
    Ok(end)
}

// Questions 1 to 3.
pub fn sections(file: &[u8]) -> Result<(), Refusal>
    ensures { verdict_of result ≡ layout_questions file.now }
{
    let states = section(file, 0, 0, 4, MIN_SETTINGS, MAX_SETTINGS)?;
    let rows = section(file, 1, states, 6, 1, MAX_STATES as u32)?;
    let outcomes = section(file, 2, rows, 4, 0, MAX_ROWS as u32)?;
    let end = section(file, 3, outcomes, 4, 0, MAX_OUTCOMES as u32)?;
    if end != file.len() {
        return Err(Question::End.at(3));
    }
    Ok(())
}
