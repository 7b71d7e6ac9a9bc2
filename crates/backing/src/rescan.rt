// The scan of a state by its entries: where the row picked before is picked again and is worth no more than rest, every other row would be
// skipped, so that the scan ends with one evaluation. The same of a state that gave up, with none.
ghost use Rattle.std.specs.Prelude.{◌≡◌, false, ◌&&◌, not, [], ◌⊎◌, ◌+◌, ◌*◌, ◌<◌, leb, eqb, length, set};
ghost use Rattle.model.specs.Limits.{give_up};
ghost use Rattle.model.specs.Rounds.{scan_of};
ghost use Rattle.reading.specs.Entries.{Coded, code_on};
ghost use Rattle.backing.specs.Backable.{count_bound, ScanDone};
ghost use Rattle.backing.specs.Scanned.{problem_in, found_of, machine_of, Fitting, Same};

use crate::scan::{Found, Rows};
use crate::{Memory, Terms};
use model::GIVE_UP;
use reading::entries::row_code;
use reading::picks::Pick;

// The code of a pick: 0 where it gives up.
fn pick_code(index: &[u32], pick: u16) -> u32
    requires { (pick ≡ give_up) ⊎ Coded index.now pick }
    ensures { result ≡ code_on (not (eqb pick give_up)) index.now pick }
{
    match Pick::from(pick) {
        Pick::GiveUp => 0,
        Pick::Row(r) => row_code(index, r),
    }
}

// Enters a pick and rest for state s.
fn enter(index: &[u32], entries: &mut [u32], s: usize, pick: u16, rest: u32)
    requires { ((pick ≡ give_up) ⊎ Coded index.now pick) × (2 * s + 1 < length entries.old) }
    ensures { entries.new
        ≡ set (set entries.old (2 * s) (code_on (not (eqb pick give_up)) index.now pick)) (2 * s + 1) rest }
{
    entries[2 * s] = pick_code(index, pick);
    entries[2 * s + 1] = rest;
}

impl Found {
    // Whether no other row can matter: the pick is the one before, and best is at most rest.
    fn is_settled(self, prev: u16, rest: u32) -> bool
        ensures { result ≡ (eqb self.pick prev && leb self.best rest) }
    {
        self.pick == prev && self.best <= rest
    }
}

impl Memory<'_> {
    // Scans state s. Where the pick stays and no other row can matter, its entries stay too; otherwise the scan goes on with the other rows,
    // and its pick and rest are entered.
    pub fn scan(&mut self, terms: Terms<'_>, values: &[u32], s: usize, count: u64) -> Found
        requires { Fitting terms.problem values.now self.old
            × (s < (problem_in terms.problem).states)
            × ((scan_of (problem_in terms.problem) s (machine_of values.now self.old [] count false)).count < count_bound) }
        ensures same { Same self.old self.new }
        ensures done { ScanDone
            terms.entry.problem.file.now terms.entry.problem.index.now s (machine_of values.now self.old [] count false)
            (found_of result self.new.remembered.now) self.new.picks.now self.new.entries.now }
    {
        let problem = terms.problem;
        let prev = self.picks[s];
        let before = prev as usize;
        let rows = Rows {
            problem,
            values,
            total: terms.total,
        };
        // giving up is best, and what equals it beats it
        let start = Found {
            best: terms.give,
            below: terms.give + 1,
            pick: GIVE_UP,
            count,
            rest: terms.give,
        };
        let code = self.entries[2 * s];
        let a = rows.picked(self.remembered, code, before, start);
        if a.is_settled(prev, self.entries[2 * s + 1]) {
            return a;
        }
        let first = problem.index[s] as usize;
        let end = problem.index[s + 1] as usize;
        let b = rows.others(self.remembered, first, end, before, a);
        self.picks[s] = b.pick;
        enter(problem.index, self.entries, s, b.pick, b.rest);
        b
    }
}
