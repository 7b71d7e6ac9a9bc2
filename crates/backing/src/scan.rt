// The rows of one backup: the one picked before first, then the others in row order.
// A row whose remembered value does not beat what is best so far would not be picked, so that it is not evaluated.
ghost use Rattle.std.specs.Prelude.{◌≡◌, not, List, ℕ, ◌+◌, ◌-◌, ◌*◌, ◌≤◌, ◌<◌, leb, ltb, eqb, length, get_or, set};
ghost use Rattle.model.specs.Limits.{max_rows, value_bound};
ghost use Rattle.model.specs.Sections.{problem_of};
ghost use Rattle.model.specs.Rounds.{evaluate};
ghost use Rattle.guarantee.specs.Rests.{rest_after};
ghost use Rattle.reading.specs.RowParts.{part_from, part_to};
ghost use Rattle.reading.specs.Tests.{rows_base};
ghost use Rattle.backing.specs.Backable.{count_bound, Going, Rowed, Coding, Apart, other_on, stop_on};
ghost use Rattle.backing.specs.Backable.{value_under, rest_under, rest_taken_under, rest_others_under};

use reading::entries::{Part, part_of};
use reading::index::ROWS;
use reading::problem::Problem;
use reading::value::part_value;

// A scan so far: what is best, what a value must be below to beat it, the pick, the evaluations counted, and rest, which is at most what
// each row seen so far remembers, but for the pick. Once a row is best `below` is best; while giving up is best it is one more, so that a
// tie goes to the row. The pick is a number of the lent picks, with the mark of giving up, as it is stored there for C.
#[derive(Clone, Copy)]
pub struct Found {
    pub best: u32,
    pub below: u32,
    pub pick: u16,
    pub count: u64,
    pub rest: u32,
    ghost going: { Going best below pick },
}

// A row: the part of the file with its outcomes, and its cost in ticks.
#[derive(Clone, Copy)]
pub struct Row {
    pub part: Part,
    pub cost: u32,
}

// Whether x beats what is best so far: the test by which a row is skipped, and by which it is picked.
// A function of its own: docs/COVERAGE.md names it as the one test of both.
fn beats(x: u32, below: u32) -> bool
    ensures { result ≡ ltb x below }
{
    x < below
}

impl Found {
    ghost use Rattle.backing.specs.Scanned.{found_of};

    // Row r has value q: it is counted, and picked if q beats what is best so far. It is made anew: a copy that is changed took a quarter more
    // time at rows of many outcomes.
    fn evaluated(self, q: u32, r: usize) -> Found
        requires { (r < max_rows) × (self.count < count_bound) }
        ensures found { (l : List ℕ) → found_of result (set l r q) ≡ evaluate q r (found_of self l) }
        ensures rest { result.rest ≡ rest_after self.rest self.best q }
    {
        let rest = self.rest.min(q.max(self.best));
        let count = self.count + 1;
        if beats(q, self.below) {
            return Found {
                best: q,
                below: q,
                pick: r as u16,
                count,
                rest,
            };
        }
        Found {
            best: self.best,
            below: self.below,
            pick: self.pick,
            count,
            rest,
        }
    }
}

// The k-th of the rows without the one picked before: that one and the rows behind it move up by one.
fn other(k: usize, prev: usize) -> usize
    requires { k < max_rows }
    ensures { result ≡ other_on (leb prev k) k }
{
    if prev <= k { k + 1 } else { k }
}

// How far to count them, up to `end`: one less where the row picked before is one of them.
fn stop(end: usize, prev: usize) -> usize
    ensures { result ≡ stop_on (ltb prev end) end }
{
    if prev < end { end - 1 } else { end }
}

// The rows of a problem under a table, which is long enough, and under which their values fit.
#[derive(Clone, Copy)]
pub struct Rows<'p, 'v> {
    pub problem: Problem<'p>,
    pub values: &'v [u32],
    pub total: u32,
    ghost total_is: { total ≡ (problem_of problem.file.now).total },
    ghost long: { (problem_of problem.file.now).states ≤ length values.now },
    ghost fits: { (r : ℕ) → r < (problem_of problem.file.now).rows → value_under problem.file.now values.now r < value_bound },
}

impl Rows<'_, '_> {
    ghost use Rattle.backing.specs.Scanned.{resting_of};

    // Row r is skipped unless what it remembers beats what is best so far; otherwise it is evaluated, and its value remembered.
    fn consider(self, remembered: &mut [u32], r: usize, row: Row, a: Found) -> Found
        requires { Rowed
            self.problem.file.now self.values.now (length remembered.old) r row.part.from row.part.to row.cost self.total
            × (a.count < count_bound) }
        ensures { resting_of result remembered.new
            ≡ rest_under self.entry.problem.file.now self.entry.values.now r (resting_of a remembered.old) }
    {
        let old = remembered[r];
        if !beats(old, a.below) {
            return Found {
                best: a.best,
                below: a.below,
                pick: a.pick,
                count: a.count,
                rest: a.rest.min(old),
            };
        }
        let q = part_value(
            self.problem.file,
            self.values,
            row.part.from,
            row.part.to,
            row.cost,
            self.total,
        );
        let value = q.value as u32;
        remembered[r] = value;
        a.evaluated(value, r)
    }

    // The row picked before, where there is one: its code is not 0. An entry is a number in a table of fixed size, so that no row is 0 there,
    // and no Option.
    pub fn picked(self, remembered: &mut [u32], code: u32, prev: usize, a: Found) -> Found
        requires { ((problem_of self.problem.file.now).rows ≤ length remembered.old)
            × Coding self.problem.file.now self.problem.index.now code prev × (a.count < count_bound) }
        ensures { resting_of result remembered.new
            ≡ rest_taken_under
            (not (eqb code 0)) self.entry.problem.file.now self.entry.values.now prev (resting_of a remembered.old) }
    {
        if code == 0 {
            return a;
        }
        let row = Row {
            part: part_of(code),
            cost: self.problem.index[ROWS + 2 * prev + 1],
        };
        self.consider(remembered, prev, row, a)
    }

    // Row r, as the index has it.
    fn row(self, r: usize) -> Row
        requires { r < (problem_of self.problem.file.now).rows }
        ensures { (result.part.from ≡ part_from self.entry.problem.index.now r)
            × (result.part.to ≡ part_to self.entry.problem.index.now r)
            × (result.cost ≡ get_or self.entry.problem.index.now (rows_base + 2 * r + 1) 0) }
    {
        let index = self.problem.index;
        let part = Part {
            from: index[ROWS + 2 * r] as usize,
            to: index[ROWS + 2 * r + 2] as usize,
        };
        Row {
            part,
            cost: index[ROWS + 2 * r + 1],
        }
    }

    // The rows from `first` to `end` in order, but for the one picked before.
    pub fn others(
        self,
        remembered: &mut [u32],
        first: usize,
        end: usize,
        prev: usize,
        mut a: Found,
    ) -> Found
        requires { ((problem_of self.problem.file.now).rows ≤ length remembered.old)
            × (first ≤ end) × (end ≤ (problem_of self.problem.file.now).rows) × Apart first end prev
            × ((rest_others_under
            self.problem.file.now self.values.now prev first (end - first)
            (resting_of a remembered.old)).found.count < count_bound) }
        ensures { resting_of result remembered.new
            ≡ rest_others_under
            self.entry.problem.file.now self.entry.values.now prev first (end - first) (resting_of a remembered.old) }
    {
        for k in first..stop(end, prev) {
            let r = other(k, prev);
            a = self.consider(remembered, r, self.row(r), a);
        }
        a
    }
}
