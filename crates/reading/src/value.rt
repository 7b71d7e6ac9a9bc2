// The row value, and the first row whose value lies below its state's.
ghost use Rattle.std.specs.Prelude.{◌≡◌, true, ◌+◌, ◌*◌, ◌/◌, ◌%◌, ◌≤◌, ◌<◌, ltb, length};
ghost use Rattle.model.specs.Bytes.{u16_at};
ghost use Rattle.model.specs.Limits.{value_bound, weight_totals};
ghost use Rattle.model.specs.Search.{one_of};
ghost use Rattle.model.specs.Sections.{problem_of};
ghost use Rattle.model.specs.Value.{row_value, row_remainder, weighted_sum, by_state};
ghost use Rattle.reading.specs.Ready.{SumThere, PartThere, FirstUndercut};
ghost use Rattle.reading.specs.Tests.{outcomes_in, outcomes_between};
ghost use Rattle.reading.specs.Bounds.{short_bound, max_byte};

use crate::index::ROWS;
use crate::numbers::u16_at;
use crate::problem::Indexed;
use crate::settings::total_of;
use model::{HUNDREDTHS, TEN_THOUSANDTHS, THOUSANDTHS, TWELVE_BITS};

// w × V(successor), not rounded.
// A function of its own: the edit `each_product_rounded` is of it.
fn product(weight: u32, value: u32) -> u64
    requires { weight * value < short_bound * value_bound }
    ensures { result ≡ weight * value }
{
    (weight as u64) * (value as u64)
}

// w × V(successor) of outcome i in `part`, not rounded.
fn weighted(part: &[u8], values: &[u32], i: usize) -> u64
    requires { (4 * i + 4 ≤ length part.now) × (u16_at part.now (4 * i) < length values.now) }
    ensures value { result ≡ u16_at part.now (4 * i + 2) * by_state values.now (u16_at part.now (4 * i)) }
    ensures bounded { result < short_bound * value_bound }
{
    let successor = u16_at(part, 4 * i) as usize;
    product(u16_at(part, 4 * i + 2), values[successor])
}

// The sum of w × V(successor) over the outcomes in `part`, 4 bytes each, two a step: most rows have two, and the compiler leaves
// such a loop as it is. A `for` over the pairs, with the odd outcome first, was tried: a run takes 4 to 6 hundredths more time.
fn weighted_sum(part: &[u8], values: &[u32]) -> u64
    requires { SumThere part.now (length values.now) }
    ensures value { result ≡ weighted_sum (outcomes_in part.now) (by_state values.now) }
    ensures bounded { result ≤ short_bound * value_bound * max_byte }
{
    let count = part.len() / 4;
    let mut sum: u64 = 0;
    let mut i = 0;
    while i + 1 < count {
        sum += weighted(part, values, i) + weighted(part, values, i + 1);
        i += 2;
    }
    if i < count {
        sum += weighted(part, values, i);
    }
    sum
}

// A weighted sum divided by a total, rounded down once.
// A function of its own: the edit `row_value_rounded_up` is of it.
fn quotient(sum: u64, total: u32) -> u64
    requires { 1 ≤ total }
    ensures { result ≡ sum / total }
{
    sum / (total as u64)
}

// A weighted sum divided by W. A division by a number that is known before the program runs is the faster one, so each of the four
// totals has its own.
fn average(sum: u64, total: u32) -> u64
    requires { one_of total weight_totals ≡ true }
    ensures { result ≡ sum / total }
{
    if total == THOUSANDTHS {
        return quotient(sum, THOUSANDTHS);
    }
    if total == HUNDREDTHS {
        return quotient(sum, HUNDREDTHS);
    }
    if total == TWELVE_BITS {
        return quotient(sum, TWELVE_BITS);
    }
    quotient(sum, TEN_THOUSANDTHS)
}

// What the average of a weighted sum leaves of it, 0 to W - 1.
fn remainder_of(sum: u64, mean: u64, total: u32) -> u64
    requires { mean ≡ sum / total }
    ensures { result ≡ sum % total }
{
    sum - mean * (total as u64)
}

// The value of a row, and what its division left.
#[derive(Clone, Copy)]
pub struct RowValue {
    pub value: u64,
    pub remainder: u64,
}

// The value of a row whose outcomes stand from byte `from` up to byte `to`, under `values`: its cost in ticks and the weighted sum,
// divided by W once; and the remainder.
pub fn part_value(
    file: &[u8],
    values: &[u32],
    from: usize,
    to: usize,
    cost: u32,
    total: u32,
) -> RowValue
    requires { PartThere file.now (length values.now) from to × (one_of total weight_totals ≡ true) }
    ensures value_value { result.value ≡ cost + weighted_sum (outcomes_between file.now from to) (by_state values.now) / total }
    ensures remainder { result.remainder ≡ weighted_sum (outcomes_between file.now from to) (by_state values.now) % total }
{
    let sum = weighted_sum(&file[from..to], values);
    let mean = average(sum, total);
    let value = cost as u64 + mean;
    let remainder = remainder_of(sum, mean, total);
    RowValue { value, remainder }
}

// The first state with a row whose value lies below the state's, and its first such row.
#[derive(Clone, Copy)]
pub struct Undercut {
    pub state: usize,
    pub row: usize,
}

impl Indexed<'_> {
    // The value of row r under `values`, and the remainder.
    pub fn row_value(self, values: &[u32], r: usize) -> RowValue
        requires { ((problem_of self.file.now).states ≤ length values.now) × (r < (problem_of self.file.now).rows) }
        ensures value_value { result.value ≡ row_value (problem_of self.entry.file.now) (by_state values.now) r }
        ensures remainder { result.remainder ≡ row_remainder (problem_of self.entry.file.now) (by_state values.now) r }
    {
        let from = self.index[ROWS + 2 * r] as usize;
        let cost = self.index[ROWS + 2 * r + 1];
        let to = self.index[ROWS + 2 * r + 2] as usize;
        part_value(self.file, values, from, to, cost, total_of(self.file))
    }

    // Whether the value of row r lies below `value`. It is at least the row's cost, so a `value` up to that needs no sum.
    fn undercuts(self, values: &[u32], value: u64, r: usize) -> bool
        requires { ((problem_of self.file.now).states ≤ length values.now) × (r < (problem_of self.file.now).rows) }
        ensures { result ≡ ltb (row_value (problem_of self.entry.file.now) (by_state values.now) r) value }
    {
        let cost = self.index[ROWS + 2 * r + 1] as u64;
        if value <= cost {
            return false;
        }
        let q = self.row_value(values, r);
        q.value < value
    }

    // "It stops at the first row, states in order, whose value lies below its state's".
    pub fn first_undercut(self, values: &[u32], n: usize) -> Option<Undercut>
        requires { (n ≡ (problem_of self.file.now).states) × (n ≤ length values.now) }
        ensures { FirstUndercut self.entry.file.now (by_state values.now) result }
    {
        let mut found = None;
        'states: for s in 0..n {
            let value = values[s] as u64;
            let end = self.index[s + 1] as usize;
            for r in self.index[s] as usize..end {
                if self.undercuts(values, value, r) {
                    found = Some(Undercut { state: s, row: r });
                    break 'states;
                }
            }
        }
        found
    }
}
