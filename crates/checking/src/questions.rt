// Questions 1 to 11 over any bytes, and the lookup.
ghost use Rattle.std.specs.Prelude.{◌≡◌, ◌≤◌, ◌<◌, length};
ghost use Rattle.model.specs.Answers.{verdict_of, file_carries, verdict_carries};
ghost use Rattle.model.specs.Limits.{value_bound};
ghost use Rattle.model.specs.Lookup.{rows_of};
ghost use Rattle.model.specs.Questions.{passes, outcome_question, estimate_question, file_questions};
ghost use Rattle.model.specs.Sections.{problem_of};
ghost use Rattle.checking.specs.Stretches.{RowsAsked, RowsAnswered, ValuesAsked, ValuesAnswered};
ghost use Rattle.checking.specs.Stretches.{ItemsAnswered, FileAnswered};
ghost use Rattle.reading.specs.Room.{IndexRoom};
ghost use Rattle.reading.specs.Tests.{index_for};

use crate::items::{outcome_question, row_question, setting_questions, state_question};
use crate::sections::sections;
use model::{MAX_STATES, Question, Refusal};
use reading::index::{index_rows, index_states, with_index};
use reading::layout::{Layout, layout_of};
use reading::problem::Indexed;
use reading::settings::{give_up_cost, settings_of, total_of};
use reading::states::{estimates, is_goal};

// Questions 7 to 9, and the index.
fn row_questions(file: &[u8], l: Layout, index: &mut [u32]) -> Result<(), Refusal>
    requires { RowsAsked file.now l × (index_for l.rows ≤ length index.old) }
    ensures { RowsAnswered file.now index.old index.new (verdict_of result) }
{
    if index_states(file, l.at1, l.states, index) as usize != l.rows {
        return Err(Question::RowNumbers.at(0));
    }
    row_question(file, l.at2, l.rows)?;
    if index_rows(file, l.at2, l.rows, l.at3, index) as usize != l.outcomes {
        return Err(Question::OutcomeNumbers.at(0));
    }
    Ok(())
}

// A file of at most so many states does not pay for clearing a table of the most that there can be. Two calls choose: a function that
// takes the choice as a closure is longer than they are.
const SMALL_STATES: usize = 256;

// Question 11, with a lent table for the estimates.
fn estimate_question(file: Indexed<'_>, states: usize, values: &mut [u32]) -> Result<(), Refusal>
    requires { (states ≡ (problem_of file.file.now).states) × (states ≤ length values.old)
        × (outcome_question (problem_of file.file.now) ≡ passes) }
    ensures { verdict_of result ≡ estimate_question (problem_of file.entry.file.now) }
{
    estimates(file.file, states, values);
    if let Some(found) = file.first_undercut(values, states) {
        return Err(Question::Estimate.at(found.row as u32));
    }
    Ok(())
}

// Questions 10 and 11.
fn value_questions(file: &[u8], l: Layout, index: &[u32]) -> Result<(), Refusal>
    requires { ValuesAsked file.now index.now l }
    ensures { ValuesAnswered file.now index.now (verdict_of result) }
{
    let states = l.states;
    outcome_question(file, l.rows, states, total_of(file), index)?;
    let indexed = Indexed { file, index };
    if states <= SMALL_STATES {
        return estimate_question(indexed, states, &mut [0u32; SMALL_STATES]);
    }
    estimate_question(indexed, states, &mut [0u32; MAX_STATES])
}

// Questions 4 to 11 of a file whose sections are whole.
fn item_questions(file: &[u8], l: Layout, index: &mut [u32]) -> Result<(), Refusal>
    requires { RowsAsked file.now l × (index_for l.rows ≤ length index.old) }
    ensures { ItemsAnswered file.now index.old index.new (verdict_of result) }
{
    let set = settings_of(file);
    setting_questions(set, l.states)?;
    state_question(file, l.at1, l.states, give_up_cost(file))?;
    if is_goal(file, set.start as usize) {
        return Err(Question::Start.at(set.start));
    }
    row_questions(file, l, index)?;
    value_questions(file, l, index)
}

// Questions 1 to 11 about the file. The index is filled in as far as they come, and whole where they all say yes.
pub fn questions(file: &[u8], index: &mut [u32]) -> Result<(), Refusal>
    requires { IndexRoom file.now index.old }
    ensures { FileAnswered file.now index.old index.new (verdict_of result) }
{
    sections(file)?;
    item_questions(file, layout_of(file), index)
}

// The answer to questions 1 to 11 about any bytes.
pub fn check(file: &[u8]) -> Result<(), Refusal>
    ensures { file_carries result ≡ verdict_carries (file_questions file.now) }
{
    with_index(file, &mut |index| questions(file, index))
}

// The rows of a state, 4 bytes each, as a part of the file, by a lent index; empty where the file is refused or the number is no
// state.
fn rows_by<'a>(file: &'a [u8], state: usize, index: &mut [u32]) -> &'a [u8]
    requires { IndexRoom file.now index.old }
    ensures { result.now ≡ rows_of file.now state }
{
    let Ok(()) = questions(file, index) else {
        return &file[0..0];
    };
    let l = layout_of(file);
    if l.states <= state {
        return &file[0..0];
    }
    let from = l.at2 + 4 * (index[state] as usize);
    let to = l.at2 + 4 * (index[state + 1] as usize);
    &file[from..to]
}

// The rows of a state of any bytes.
pub fn rows_of(file: &[u8], state: usize) -> &[u8]
    ensures { result.now ≡ rows_of file.now state }
{
    with_index(
        file,
        &mut |index|
            requires { IndexRoom file.now index.old }
            ensures { result.now ≡ rows_of file.entry.now state }
        { rows_by(file, state, index) },
    )
}
