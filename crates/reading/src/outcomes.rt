// The outcomes of one row, and its cost in seconds.
ghost use Rattle.std.specs.Prelude.{◌≡◌, ℕ, ◌+◌, ◌*◌, ◌<◌, get_or, length};
ghost use Rattle.model.specs.Sections.{problem_of};
ghost use Rattle.model.specs.Walk.{successors};
ghost use Rattle.reading.specs.Ready.{Ready};
ghost use Rattle.reading.specs.RowParts.{seconds_at};
ghost use Rattle.reading.specs.Tests.{part_bytes, outcomes_in, rows_base};

use crate::index::ROWS;
use crate::numbers::u16_at;
use crate::problem::Indexed;
use model::TICKS_PER_SECOND;

// The outcomes of row r, 4 bytes each, as a part that starts inside the file: it lives as long as the file, whatever the index does.
pub fn outcomes_of<'a>(file: &'a [u8], index: &[u32], r: usize) -> &'a [u8]
    requires { Ready file.now index.now × (r < (problem_of file.now).rows) }
    ensures result_value { outcomes_in result.now ≡ (problem_of file.now).outcomes r }
    ensures bytes { (result.now ≡ part_bytes file.now r)
        × (length result.now ≡ 4 * length ((problem_of file.now).outcomes r)) }
{
    let from = index[ROWS + 2 * r] as usize;
    let to = index[ROWS + 2 * r + 2] as usize;
    &file[from..to]
}

impl<'a> Indexed<'a> {
    // The outcomes of row r, 4 bytes each, as a part that starts inside the file.
    pub fn outcomes(self, r: usize) -> &'a [u8]
        requires { r < (problem_of self.file.now).rows }
        ensures result_value { outcomes_in result.now ≡ (problem_of self.entry.file.now).outcomes r }
        ensures bytes { (result.now ≡ part_bytes self.entry.file.now r)
            × (length result.now ≡ 4 * length ((problem_of self.entry.file.now).outcomes r)) }
    {
        outcomes_of(self.file, self.index, r)
    }

    // How many outcomes row r has.
    pub fn outcome_count(self, r: usize) -> usize
        requires { r < (problem_of self.file.now).rows }
        ensures { result ≡ length ((problem_of self.entry.file.now).outcomes r) }
    {
        self.outcomes(r).len() / 4
    }

    // Where outcome o of row r leads.
    pub fn successor(self, r: usize, o: usize) -> u32
        requires { (r < (problem_of self.file.now).rows) × (o < length ((problem_of self.file.now).outcomes r)) }
        ensures { (s : ℕ) → result ≡ get_or (successors (problem_of self.entry.file.now) r) o s }
    {
        u16_at(self.outcomes(r), 4 * o)
    }
}

// The cost of row r in seconds.
// It asks for one entry of the index, and so for less than an `Indexed` file.
pub fn seconds_of(index: &[u32], r: usize) -> u32
    requires { rows_base + 2 * r + 1 < length index.now }
    ensures { result ≡ seconds_at index.now r }
{
    index[ROWS + 2 * r + 1] / TICKS_PER_SECOND
}
