// The four sections of a file: where the items of each begin, and how many there are.
ghost use Rattle.std.specs.Prelude.{◌≡◌, ◌+◌, ◌≤◌, length};
ghost use Rattle.model.specs.Questions.{passes, layout_questions};
ghost use Rattle.model.specs.Sections.{section_end};
ghost use Rattle.reading.specs.Laid.{first_state, LaidOut};

use crate::numbers::u16_at;

// Where the settings begin: after their count.
pub const FIRST_SETTING: usize = 2;

// Where the items of sections 1, 2 and 3 begin, and how many there are.
#[derive(Clone, Copy)]
pub struct Layout {
    pub at1: usize,
    pub states: usize,
    pub at2: usize,
    pub rows: usize,
    pub at3: usize,
    pub outcomes: usize,
}

// Where a section ends whose count stands at `i` and whose items have `size` bytes.
pub fn section_end(file: &[u8], i: usize, size: usize) -> usize
    requires { (i + 2 ≤ length file.now) × (size ≤ 6) }
    ensures { result ≡ section_end size file.now i }
{
    i + 2 + size * (u16_at(file, i) as usize)
}

// Where the states begin: after the settings, 4 bytes each and as many as their count says, and the states' own count.
pub fn first_state(file: &[u8]) -> usize
    requires { 2 ≤ length file.now }
    ensures { result ≡ first_state file.now }
{
    FIRST_SETTING + 4 * (u16_at(file, 0) as usize) + 2
}

// The layout of a file whose sections are whole.
pub fn layout_of(file: &[u8]) -> Layout
    requires { layout_questions file.now ≡ passes }
    ensures { LaidOut file.now result }
{
    let i1 = section_end(file, 0, 4);
    let i2 = section_end(file, i1, 6);
    let i3 = section_end(file, i2, 4);
    Layout {
        at1: i1 + 2,
        states: u16_at(file, i1) as usize,
        at2: i2 + 2,
        rows: u16_at(file, i2) as usize,
        at3: i3 + 2,
        outcomes: u16_at(file, i3) as usize,
    }
}
