// A walk led by the entries of a run, in place of picks and index: a state's code tells where its outcomes stand.
ghost use Rattle.std.specs.Prelude.{◌≤◌, length};
ghost use Rattle.model.specs.Sections.{problem_of};
ghost use Rattle.walking.specs.Led.{led_by, Led, WalkedBy, led_along};

use crate::walk::{Guide, MARKS, walk_along};
use reading::entries::part_of;

// A file, and entries that lead a walk over it.
#[derive(Drop)]
struct ByEntries<'a> {
    file: &'a [u8],
    entries: &'a [u32],
    ghost led: { Led file.now entries.now },
}

impl<'a> Guide for ByEntries<'a> {
    ghost bytes = { λ x. x.file.now };

    ghost graph = { λ x. led_by x.file.now x.entries.now };

    fn file(&self) -> &[u8] {
        self.file
    }

    fn outcomes(&self, s: usize) -> &[u8] {
        let part = part_of(self.entries[2 * s]);
        &self.file[part.from..part.to]
    }

    ghost along = { λ x. led_along x.led };
}

// Walks from the start by the entries, with marks made fresh: lists the reached states that are no goals, and answers
// how many.
pub fn walk_entries(file: &[u8], entries: &[u32], list: &mut [u16; MARKS]) -> usize
    requires { Led file.now entries.now × ((problem_of file.now).states ≤ length list.old) }
    ensures { WalkedBy file.now entries.now list.new result }
{
    let mut marks = [0u8; MARKS];
    walk_along(&ByEntries { file, entries }, &mut marks, list)
}
