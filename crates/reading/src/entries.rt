// The entries of a run, two for each state: a code that tells where the outcomes of its picked row stand, and a number beside it that its
// backups keep. They lie close together, so that a walk finds its way without the picks and the index.
ghost use Rattle.std.specs.Prelude.{◌≡◌};
ghost use Rattle.reading.specs.Entries.{code_from, code_to, row_code, Coded};

use crate::index::ROWS;

// A code is so many times the byte at which the outcomes begin, and their number.
pub const CODE_STEP: u32 = 256;

// A part of the file, from a byte up to another.
#[derive(Clone, Copy)]
pub struct Part {
    pub from: usize,
    pub to: usize,
}

// The part that a code tells; code 0 tells the empty one.
pub fn part_of(code: u32) -> Part
    ensures { (result.from ≡ code_from code) × (result.to ≡ code_to code) }
{
    let from = (code / CODE_STEP) as usize;
    let count = (code % CODE_STEP) as usize;
    Part {
        from,
        to: from + 4 * count,
    }
}

// The code of row r.
// It asks for two entries of the index, and so for less than an `Indexed` file.
pub fn row_code(index: &[u32], r: usize) -> u32
    requires { Coded index.now r }
    ensures { result ≡ row_code index.now r }
{
    let from = index[ROWS + 2 * r];
    let to = index[ROWS + 2 * r + 2];
    CODE_STEP * from + (to - from) / 4
}
