// Request E6: a file written in its set form, for exchange.
#![tactic(auto)]

mod form;
mod gathering;
mod sections;

ghost use Rattle.std.specs.Prelude.{◌≡◌};
ghost use Rattle.model.specs.Promises.{Writes};
ghost use Rattle.model.specs.Questions.{passes, file_questions};
ghost use Rattle.model.specs.SetForm.{exchange};
ghost use Rattle.reading.specs.Room.{IndexRoom};

use crate::form::Form;
use crate::gathering::gather_rows;
use checking::questions::questions;
use model::{MAX_OUTCOMES, MAX_ROWS, Question, Refusal};
use reading::index::with_index;
use reading::layout::layout_of;
use reading::problem::Problem;

// Writes the set form of an accepted file.
fn write_form(problem: Problem<'_>, out: &mut [u8]) -> Result<u32, Refusal>
    requires { file_questions problem.file.now ≡ passes }
    ensures { Writes result out.new (exchange problem.entry.file.now out.old) }
{
    let mut table = [0u32; MAX_OUTCOMES];
    let mut rows = [0u8; MAX_ROWS];
    let counts = &mut rows[..layout_of(problem.file).rows];
    let outcomes = gather_rows(problem, &mut table, counts);
    let form = Form {
        problem,
        counts,
        codes: &table[..outcomes],
    };
    let length = form.len();
    if out.len() < length {
        return Err(Question::Room.at(0));
    }
    form.put(out);
    Ok(length as u32)
}

// Writes the set form, with a lent index.
fn set_form_by(file: &[u8], index: &mut [u32], out: &mut [u8]) -> Result<u32, Refusal>
    requires { IndexRoom file.now index.old }
    ensures { Writes result out.new (exchange file.now out.old) }
{
    questions(file, index)?;
    write_form(Problem { file, index }, out)
}

// Writes the set form of the file at the front of `out`, and answers its length. Bytes beyond it stay. Where the file
// is refused, or `out` is shorter than the form (23), nothing is written.
pub fn set_form(file: &[u8], out: &mut [u8]) -> Result<u32, Refusal>
    ensures { Writes result out.new (exchange file.now out.old) }
{
    with_index(file, &mut |index| set_form_by(file, index, out))
}
