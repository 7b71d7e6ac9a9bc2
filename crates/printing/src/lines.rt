// The lines of `plan` and `audit`.
ghost use Rattle.std.specs.Prelude.{◌++◌, ◌+◌, ◌*◌, ◌≤◌, ◌<◌, eqb, length, get_or};
ghost use Rattle.model.specs.Audit.{refused};
ghost use Rattle.model.specs.Limits.{give_up};
ghost use Rattle.model.specs.Lines.{codes, pick_on};
ghost use Rattle.model.specs.Lines.{answer_line, audit_line, state_line, state_lines, run_text};
ghost use Rattle.model.specs.Buffers.{Holds, line_most, state_most};
ghost use Rattle.model.specs.Value.{by_state};
ghost use Rattle.printing.specs.Refusals.{answer_by, audited_by};
ghost use Rattle.printing.specs.Texts.{Brief, Marked, WalkWithin, numbered};
ghost use Rattle.writing.specs.Pages.{Puts};

use crate::decimals::{put_next, put_number, put_signed};
use crate::refusals::Refused;
use model::{Ended, MAX_STATES};
use reading::picks::Pick;
use writing::page::Page;

// Puts a word and numbers, each after a blank.
fn put_numbers(page: &mut Page<'_>, word: &[u8], numbers: &[u64])
    ensures puts { Puts page.old page.new (numbered word.now numbers.now) }
    ensures brief { length (numbered word.now numbers.now) ≤ length word.now + 21 * length numbers.now }
{
    page.put(word);
    for &n in numbers {
        put_next(page, n);
    }
}

// Puts the line of a word and numbers.
fn put_line(page: &mut Page<'_>, word: &[u8], numbers: &[u64])
    ensures puts { Puts page.old page.new (numbered word.now numbers.now ++ codes "\n") }
    ensures brief { length (numbered word.now numbers.now ++ codes "\n")
        ≤ length word.now + 21 * length numbers.now + 1 }
{
    put_numbers(page, word, numbers);
    page.put(b"\n");
}

// Puts the first line of `plan`: how the run ended, or the refusal.
fn put_answer<R: Refused>(page: &mut Page<'_>, answer: Result<Ended, R>)
    ensures puts { Puts page.old page.new (answer_line (answer_by R.question_of R.place_of answer)) }
    ensures brief { length (answer_line (answer_by R.question_of R.place_of answer)) ≤ line_most }
{
    match answer {
        Ok(Ended::Solved(counts)) => put_line(
            page,
            b"solved",
            &[counts.rounds, counts.evaluations, counts.least.into()],
        ),
        Ok(Ended::Spent(counts)) => {
            put_line(page, b"spent", &[counts.rounds, counts.evaluations])
        }
        Err(refusal) => put_line(
            page,
            b"refused",
            &[refusal.question().into(), refusal.place().into()],
        ),
    }
}

// Puts the text of an answer with no states at the front of `out`: its line.
pub fn answer_text<R: Refused>(answer: Result<Ended, R>, out: &mut [u8]) -> usize
    ensures holds { Holds out.old out.new result (answer_line (answer_by R.question_of R.place_of answer)) }
    ensures brief { length (answer_line (answer_by R.question_of R.place_of answer)) ≤ line_most }
{
    let mut page = Page::new(out);
    put_answer(&mut page, answer);
    page.len()
}

// Puts a blank and a row, or `give`.
fn put_row(page: &mut Page<'_>, pick: u16)
    ensures { Puts page.old page.new (pick_on (eqb pick give_up) pick) }
{
    match Pick::from(pick) {
        Pick::GiveUp => page.put(b" give"),
        Pick::Row(r) => put_next(page, r as u64),
    }
}

// What a run left of its states: its tables, a remainder for each state, and its walk list.
#[derive(Clone, Copy)]
pub struct Run<'a> {
    pub values: &'a [u32],
    pub picks: &'a [u16],
    pub remainders: &'a [u16],
    pub walk: &'a [u16],
    ghost within: { WalkWithin walk.now values.now picks.now remainders.now },
}

// Puts a state's line: its number, its value, its row or `give`, and the remainder.
fn put_state(page: &mut Page<'_>, run: Run<'_>, state: usize)
    requires { state < length run.walk.now }
    ensures puts { Puts
        page.old page.new
        (state_line
        state (get_or run.entry.values.now state 0) (get_or run.entry.picks.now state 0)
        (get_or run.entry.remainders.now state 0)) }
    ensures brief { length
        (state_line
        state (get_or run.entry.values.now state 0) (get_or run.entry.picks.now state 0)
        (get_or run.entry.remainders.now state 0))
        ≤ state_most }
{
    put_number(page, state as u64);
    put_next(page, run.values[state].into());
    put_row(page, run.picks[state]);
    put_next(page, run.remainders[state].into());
    page.put(b"\n");
}

// A mark for each state, set where it stands in a walk list.
fn marks_of(walk: &[u16]) -> [bool; MAX_STATES]
    ensures { Marked result walk.now }
{
    let mut marks = [false; MAX_STATES];
    for &s in walk {
        let s = usize::from(s);
        if s < MAX_STATES {
            marks[s] = true;
        }
    }
    marks
}

// Puts the lines of the listed states, by state number.
fn put_states(page: &mut Page<'_>, run: Run<'_>)
    ensures puts { Puts
        page.old page.new
        (state_lines
        run.entry.values.now run.entry.picks.now (by_state run.entry.remainders.now)
        run.entry.walk.now (length run.entry.walk.now)) }
    ensures brief { length
        (state_lines
        run.entry.values.now run.entry.picks.now (by_state run.entry.remainders.now)
        run.entry.walk.now (length run.entry.walk.now))
        ≤ state_most * length run.entry.walk.now }
{
    let marks = marks_of(run.walk);
    for s in 0..run.walk.len() {
        if marks[s] {
            put_state(page, run, s);
        }
    }
}

// Puts the text of a plan at the front of `out`: the answer's line, then a line for each state of the walk list.
pub fn plan_text<R: Refused>(answer: Result<Ended, R>, run: Run<'_>, out: &mut [u8]) -> usize
    ensures holds { Holds
        out.old out.new result
        (run_text
        (answer_by R.question_of R.place_of answer) run.entry.values.now run.entry.picks.now
        (by_state run.entry.remainders.now) run.entry.walk.now
        (length run.entry.walk.now)) }
    ensures brief { Brief
        (run_text
        (answer_by R.question_of R.place_of answer) run.entry.values.now run.entry.picks.now
        (by_state run.entry.remainders.now) run.entry.walk.now
        (length run.entry.walk.now))
        (length run.entry.walk.now) }
{
    let mut page = Page::new(out);
    put_answer(&mut page, answer);
    put_states(&mut page, run);
    page.len()
}

// Puts the line of an audit's refusal.
fn put_refused<R: Refused>(page: &mut Page<'_>, refusal: R)
    ensures puts { Puts
        page.old page.new
        (audit_line (refused (R.question_of refusal) (R.place_of refusal) (R.excess_of refusal))) }
    ensures brief { length (audit_line (refused (R.question_of refusal) (R.place_of refusal) (R.excess_of refusal)))
        ≤ line_most }
{
    put_numbers(
        page,
        b"refused",
        &[refusal.question().into(), refusal.place().into()],
    );
    put_signed(page, refusal.excess());
    page.put(b"\n");
}

// Puts the line of an audit.
fn put_audit<R: Refused>(page: &mut Page<'_>, answer: Result<u32, R>)
    ensures puts { Puts page.old page.new (audit_line (audited_by R.question_of R.place_of R.excess_of answer)) }
    ensures brief { length (audit_line (audited_by R.question_of R.place_of R.excess_of answer)) ≤ line_most }
{
    match answer {
        Ok(least) => put_line(page, b"accepted", &[least.into()]),
        Err(refusal) => put_refused(page, refusal),
    }
}

// Puts the line of an audit at the front of `out`.
pub fn audit_text<R: Refused>(answer: Result<u32, R>, out: &mut [u8]) -> usize
    ensures holds { Holds out.old out.new result (audit_line (audited_by R.question_of R.place_of R.excess_of answer)) }
    ensures brief { length (audit_line (audited_by R.question_of R.place_of R.excess_of answer)) ≤ line_most }
{
    let mut page = Page::new(out);
    put_audit(&mut page, answer);
    page.len()
}
