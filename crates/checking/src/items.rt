// The items one by one: questions 4, 24, 5, 8 and 10.
ghost use Rattle.std.specs.Prelude.{◌≡◌, ℕ, Bool, ◌+◌, ◌*◌, ◌≤◌, ◌<◌, length};
ghost use Rattle.model.specs.Answers.{number_of, verdict_of};
ghost use Rattle.model.specs.Limits.{max_rows, max_states, weight_totals};
ghost use Rattle.model.specs.Questions.{ask_each, between, row_sound};
ghost use Rattle.model.specs.Search.{one_of};
ghost use Rattle.checking.specs.ItemTests.{SettingsAnswered, state_obeys_at, row_obeys_at, state_test, PartThere};
ghost use Rattle.reading.specs.Tests.{row_test, part_of, outcomes_in, index_for};
ghost use Rattle.reading.specs.Bounds.{max_byte};

use model::{MAX_PENALTY, MAX_RATE, MAX_TOLERANCE, MIN_RATE, Question, Refusal, WEIGHT_TOTALS};
use reading::index::ROWS;
use reading::numbers::{byte_at, u16_at, u32_at};
use reading::settings::Settings;

// Whether x is `low` to `high`.
pub fn is_between(low: u32, high: u32, x: u32) -> bool
    ensures { result ≡ between low high x }
{
    (low..=high).contains(&x)
}

// Whether a weight total is one of the four.
fn is_known(total: u32) -> bool
    ensures { result ≡ one_of total weight_totals }
{
    WEIGHT_TOTALS.contains(&total)
}

// Questions 4 and 24, in order.
pub fn setting_questions(set: Settings, states: usize) -> Result<(), Refusal>
    ensures { SettingsAnswered set states (verdict_of result) }
{
    let tolerance = is_between(1, MAX_TOLERANCE, set.tolerance);
    let penalty = is_between(1, MAX_PENALTY, set.penalty);
    let total = is_known(set.total);
    if states <= (set.start as usize) {
        return Err(Question::Setting.at(0));
    }
    if !tolerance {
        return Err(Question::Setting.at(1));
    }
    if !penalty {
        return Err(Question::Setting.at(2));
    }
    if !total {
        return Err(Question::WeightTotal.at(3));
    }
    Ok(())
}

// A question of each of the first n things, in order: "Places are the first that fails".
fn ask_each<F: Fn(usize) -> bool>(question: Question, n: usize, obeys: F) -> Result<(), Refusal>
    requires callable { (k : ℕ) → k < n → F.pre obeys k }
    requires few { n ≤ max_rows }
    ensures { (test : ℕ → Bool) → ((k : ℕ) (b : Bool) → k < n → F.post obeys k b → b ≡ test k)
        → verdict_of result ≡ ask_each (number_of question) n test }
{
    for k in 0..n {
        if !obeys(k) {
            return Err(question.at(k as u32));
        }
    }
    Ok(())
}

// Whether the state whose bytes begin at `i` obeys section 1; `limit` is 1000 × D.
fn state_obeys(file: &[u8], i: usize, limit: u32) -> bool
    requires { i + 6 ≤ length file.now }
    ensures { result ≡ state_obeys_at file.now limit i }
{
    let estimate = u32_at(file, i);
    let goal = byte_at(file, i + 5);
    if limit < estimate {
        return false;
    }
    if goal == 0 {
        return true;
    }
    if goal != 1 {
        return false;
    }
    if byte_at(file, i + 4) != 0 {
        return false;
    }
    estimate == 0
}

// Question 5 of the n states at `at`.
// `at` is where the items begin, not how much of a buffer is in use.
pub fn state_question(file: &[u8], at: usize, n: usize, limit: u32) -> Result<(), Refusal>
    requires { (at + 6 * n ≤ length file.now) × (n ≤ max_states) }
    ensures { verdict_of result ≡ ask_each 5 n (state_test file.now at limit) }
{
    ask_each(Question::State, n, |s| state_obeys(file, at + 6 * s, limit))
}

// Whether the row whose bytes begin at `i` obeys section 2.
fn row_obeys(file: &[u8], i: usize) -> bool
    requires { i + 4 ≤ length file.now }
    ensures { result ≡ row_obeys_at file.now i }
{
    let kind = byte_at(file, i);
    let number = u16_at(file, i + 2);
    if byte_at(file, i + 1) < 1 {
        return false;
    }
    if kind == 0 {
        return 1 <= number;
    }
    if kind != 1 {
        return false;
    }
    if number < MIN_RATE {
        return false;
    }
    number <= MAX_RATE
}

// Question 8 of the n rows at `at`.
// `at` as in `state_question`.
pub fn row_question(file: &[u8], at: usize, n: usize) -> Result<(), Refusal>
    requires { (at + 4 * n ≤ length file.now) × (n ≤ max_rows) }
    ensures { verdict_of result ≡ ask_each 8 n (row_test file.now at) }
{
    ask_each(Question::Row, n, |r| row_obeys(file, at + 4 * r))
}

// Whether the outcomes in `part`, 4 bytes each, lead to the first `states` states, with weights of 1 to W that add to W.
pub fn outcomes_obey(part: &[u8], states: usize, total: u32) -> bool
    requires { length part.now ≤ 4 * max_byte }
    ensures { result ≡ row_sound states total (outcomes_in part.now) }
{
    let mut sum: u32 = 0;
    for i in 0..part.len() / 4 {
        let successor = u16_at(part, 4 * i);
        let weight = u16_at(part, 4 * i + 2);
        if states <= (successor as usize) {
            return false;
        }
        if !is_between(1, total, weight) {
            return false;
        }
        sum += weight;
    }
    sum == total
}

// Question 10 of the first n rows, whose outcomes stand where the index says.
pub fn outcome_question(
    file: &[u8],
    n: usize,
    states: usize,
    total: u32,
    index: &[u32],
) -> Result<(), Refusal>
    requires { (index_for n ≤ length index.now) × (n ≤ max_rows) × ((r : ℕ) → r < n → PartThere file.now index.now r) }
    ensures { verdict_of result
        ≡ ask_each 10 n (λ k. row_sound states total (outcomes_in (part_of file.now index.now k))) }
{
    ask_each(Question::Outcomes, n, |r| {
        let from = index[ROWS + 2 * r] as usize;
        let to = index[ROWS + 2 * r + 2] as usize;
        outcomes_obey(&file[from..to], states, total)
    })
}
