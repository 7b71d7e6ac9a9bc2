// The backup of a state, and the backups of a round.
// The tables are changed where they lie, so that later states see earlier changes.
ghost use Rattle.std.specs.Prelude.{◌≡◌, ◌||◌, not, List, [], ℕ, ◌+◌, ◌<◌, leb, eqb, length, get_or};
ghost use Rattle.model.specs.Rounds.{raise_on, scan_of};
ghost use Rattle.model.specs.Rounds;
ghost use Rattle.backing.specs.Backable.{count_bound, Opens};
ghost use Rattle.backing.specs.Scanned.{problem_in, machine_of, Fitting, KeptIn, Same};
ghost use Rattle.backing.specs.Turns.{turns};

use crate::{Memory, Terms};

// A round so far: the evaluations of the run, whether a value rose or a pick changed, and whether a pick changed.
#[derive(Clone, Copy)]
pub struct Tally {
    pub count: u64,
    // A flag that no value stands beside.
    pub moved: bool,
    pub turned: bool,
}

// "If best − V(s) is at least e, V(s) becomes best": whether it did.
fn raise(values: &mut [u32], s: usize, best: u32, tolerance: u32) -> bool
    requires { s < length values.old }
    ensures { (result ≡ leb (get_or values.old s 0 + tolerance) best)
        × (values.new ≡ raise_on (leb (get_or values.old s 0 + tolerance) best) values.old s best) }
{
    let old = values[s];
    if old as u64 + tolerance as u64 <= best as u64 {
        values[s] = best;
        return true;
    }
    false
}

impl Memory<'_> {
    // Backs up state s.
    fn backup(&mut self, terms: Terms<'_>, values: &mut [u32], s: usize, t: Tally) -> Tally
        requires { Fitting terms.problem values.old self.old
            × (s < (problem_in terms.problem).states)
            × ((scan_of (problem_in terms.problem) s (machine_of values.old self.old [] t.count t.moved)).count < count_bound) }
        ensures same { Same self.old self.new }
        ensures backed { (l : List ℕ) → machine_of values.new self.new l result.count result.moved
            ≡ Rounds.backup (problem_in terms.entry.problem) terms.entry.tolerance s (machine_of values.old self.old l t.count t.moved) }
        ensures turned { result.turned
            ≡ (t.turned || not (eqb (get_or self.new.picks.now s 0) (get_or self.old.picks.now s 0))) }
        ensures kept { KeptIn terms.entry.problem self.new }
    {
        let prev = self.picks[s];
        let found = self.scan(terms, values, s, t.count);
        let rose = raise(values, s, found.best, terms.tolerance);
        let turned = found.pick != prev;
        Tally {
            count: found.count,
            moved: t.moved | (rose | turned),
            turned: t.turned | turned,
        }
    }

    // Backs up the listed states in list order.
    pub fn backups(
        &mut self,
        terms: Terms<'_>,
        values: &mut [u32],
        list: &[u16],
        mut t: Tally,
    ) -> Tally
        requires { Fitting terms.problem values.old self.old
            × Opens (problem_in terms.problem) list.now
            × ((Rounds.backups
            (problem_in terms.problem) terms.tolerance list.now
            (machine_of values.old self.old list.now t.count t.moved)).evaluations < count_bound) }
        ensures same { Same self.old self.new }
        ensures backed { machine_of values.new self.new list.now result.count result.moved
            ≡ Rounds.backups
            (problem_in terms.entry.problem) terms.entry.tolerance list.now
            (machine_of values.old self.old list.now t.count t.moved) }
        ensures turned { result.turned
            ≡ (t.turned
            || turns
            (problem_in terms.entry.problem) terms.entry.tolerance list.now
            (machine_of values.old self.old list.now t.count t.moved)) }
        ensures kept { KeptIn terms.entry.problem self.new }
    {
        for &s in list {
            t = self.backup(terms, values, s as usize, t);
        }
        t
    }
}
