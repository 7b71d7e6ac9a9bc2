// The index of a file, computed once a call: the first row of each state, and of each row where its outcomes begin and its
// cost in ticks.
ghost use Rattle.std.specs.Prelude.{◌≡◌, true, List, ℕ, ◌+◌, ◌*◌, ◌≤◌, ◌<◌, eqb, length};
ghost use Rattle.std.specs.Borrow.{MutBor};
ghost use Rattle.std.specs.Fn.{CalledAtMut};
ghost use Rattle.model.specs.Limits.{max_rows, max_states, ticks_per_second};
ghost use Rattle.model.specs.Questions.{cost_obeys};
ghost use Rattle.model.specs.Rounds.{fill_to};
ghost use Rattle.model.specs.Search.{sum_to};
ghost use Rattle.model.specs.Sections.{seconds_on};
ghost use Rattle.reading.specs.Laid.{last_outcomes};
ghost use Rattle.reading.specs.Room.{IndexRoom};
ghost use Rattle.reading.specs.Tests.{row_count_at, row_test, RowsIndexed, own_at, index_for, few_rows};

use crate::layout::section_end;
use crate::numbers::{byte_at, u16_at};
use model::{MAX_ROWS, MAX_STATES, TICKS_PER_SECOND};
use rates::{Sheet, rate_sheet};

// Entry s, for s up to the number of states: the first row of state s. Entry ROWS + 2 r, for r up to the number of rows: where
// the outcomes of row r begin. Entry ROWS + 2 r + 1: the cost of row r in ticks.
pub const ROWS: usize = MAX_STATES + 1;

pub const INDEX: usize = ROWS + 2 * MAX_ROWS + 2;

// A call on a file of at most so many rows makes a small index, and does not pay for clearing the entries of rows that there are not.
pub const SMALL_ROWS: usize = 1024;

pub const SMALL_INDEX: usize = ROWS + 2 * SMALL_ROWS + 2;

// Whether a file has few rows. Where a count up to that of the rows is not there, no row will be looked at.
pub fn has_few_rows(file: &[u8]) -> bool
    ensures { result ≡ few_rows file.now }
{
    if file.len() < 2 {
        return true;
    }
    let i1 = section_end(file, 0, 4);
    if file.len() - 2 < i1 {
        return true;
    }
    let i2 = section_end(file, i1, 6);
    if file.len() - 2 < i2 {
        return true;
    }
    u16_at(file, i2) <= SMALL_ROWS as u32
}

// What `f` answers of an index with room for the file's rows: a small one for a file of few rows, and a large one for any other.
pub fn with_index<R, F: FnMut(&mut [u32]) -> R>(file: &[u8], f: &mut F) -> R
    requires { (index : MutBor (List ℕ)) → IndexRoom file.now index.now → F.pre f.old index }
    ensures { (lent : List ℕ) × (left : List ℕ)
        × IndexRoom file.now lent × CalledAtMut F.FnMut f.old lent result f.new left }
{
    if has_few_rows(file) {
        let mut index = small_index();
        return f(&mut index);
    }
    let mut index = large_index();
    f(&mut index)
}

// An index for a file of few rows.
pub fn small_index() -> [u32; SMALL_INDEX]
    ensures { (f : List ℕ) → few_rows f ≡ true → IndexRoom f result }
{
    [0; SMALL_INDEX]
}

// An index for any file.
pub fn large_index() -> [u32; INDEX]
    ensures { (f : List ℕ) → IndexRoom f result }
{
    [0; INDEX]
}

// Whether row r is one of state s's own.
// It asks for two entries of the index, and so for less than an `Indexed` file.
pub fn is_own(index: &[u32], s: usize, r: u32) -> bool
    requires { s + 1 < length index.now }
    ensures { result ≡ own_at index.now s r }
{
    index[s] <= r && r < index[s + 1]
}

// Fills in the first rows of the states, and answers the sum of their row numbers: question 7.
// It makes the index, so that no type says yet what it holds; `at` is where the items begin.
pub fn index_states(file: &[u8], at: usize, n: usize, index: &mut [u32]) -> u32
    requires { (at + 6 * n ≤ length file.now) × (n ≤ max_states) × (n < length index.old) }
    ensures { (result ≡ sum_to (row_count_at file.now at) n)
        × (index.new ≡ fill_to (sum_to (row_count_at file.now at)) index.old (n + 1)) }
{
    let mut total: u32 = 0;
    for s in 0..n {
        index[s] = total;
        total += byte_at(file, at + 6 * s + 4);
    }
    index[n] = total;
    total
}

// The seconds themselves, or for a melt rate those of the sheet, in ticks.
fn ticks(sheet: &Sheet, kind: u32, number: u32) -> u32
    requires { cost_obeys (eqb kind 0) number ≡ true }
    ensures { result ≡ ticks_per_second * seconds_on (eqb kind 0) number }
{
    if kind == 0 {
        TICKS_PER_SECOND * number
    } else {
        TICKS_PER_SECOND * u32::from(sheet.rate_seconds(number))
    }
}

// Fills in where the outcomes of each row begin, and its cost in ticks. Answers the sum of the outcome numbers: question 9.
// It makes the index, as `index_states`.
pub fn index_rows(file: &[u8], at: usize, n: usize, at3: usize, index: &mut [u32]) -> u32
    requires { (at + 4 * n ≤ length file.now) × (n ≤ max_rows) × (index_for n ≤ length index.old) × (at3 ≤ last_outcomes)
        × ((r : ℕ) → r < n → row_test file.now at r ≡ true) }
    ensures { RowsIndexed file.now at n at3 index.old index.new result }
{
    let sheet = rate_sheet();
    let mut total: u32 = 0;
    for r in 0..n {
        index[ROWS + 2 * r] = (at3 as u32) + 4 * total;
        index[ROWS + 2 * r + 1] = ticks(
            &sheet,
            byte_at(file, at + 4 * r),
            u16_at(file, at + 4 * r + 2),
        );
        total += byte_at(file, at + 4 * r + 1);
    }
    index[ROWS + 2 * n] = (at3 as u32) + 4 * total;
    total
}
