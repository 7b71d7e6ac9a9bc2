// The C interface: numbers and slices only. A slice is passed as a pointer and then a length.
#![tactic(auto)]

pub mod shift;

ghost use Rattle.std.specs.Prelude.{◌≡◌, [], ◌∷◌, ◌≤◌, length, pos};
ghost use Rattle.model.specs.Answers.{number_of, verdict_carries, audited_carries};
ghost use Rattle.model.specs.Audit.{audit};
ghost use Rattle.model.specs.Buffers.{copied};
ghost use Rattle.model.specs.Interface.{Hands, HandsSolution, handing, plain_numbers, signed_numbers, nothing, writing_handed};
ghost use Rattle.model.specs.Lookup.{rows_of};
ghost use Rattle.model.specs.Questions.{file_questions};
ghost use Rattle.model.specs.SetForm.{exchange};
ghost use Rattle.model.specs.Solution.{tables};
ghost use Rattle.model.specs.declared.Kind.TheVariants.{Plain, Finishing};
ghost use Rattle.solving.specs.Lent.{tables_in, Same};

use model::{AuditRefusal, Counts, Ended, Kind, Refusal};
use solving::Tables;

// Writes three numbers to the front of a table that has room for them.
fn put3<T: Copy>(answer: &mut [T], numbers: [T; 3])
    requires { 3 ≤ length answer.old }
    ensures { answer.new ≡ copied numbers answer.old }
{
    answer[..3].copy_from_slice(&numbers);
}

// The numbers of a refusal: its question, its place, 0.
fn refused(no: Refusal) -> [u64; 3]
    ensures { result ≡ number_of no.question ∷ no.place ∷ 0 ∷ [] }
{
    [no.question.number() as u64, no.place as u64, 0]
}

// 3 passed, with answer 0, 0, 0; 0 refused, with answer question, place, 0; 4 where `answer` has fewer than 3 entries, and then
// nothing is written. Entries beyond the third stay.
#[unsafe(no_mangle)]
pub extern "C" fn cuulipso_check(file: &[u8], answer: &mut [u64]) -> u8
    ensures { Hands
        (handing (plain_numbers (verdict_carries (file_questions file.now))) nothing)
        nothing nothing answer.old answer.new result }
{
    if answer.len() < 3 {
        return 4;
    }
    match checking::questions::check(file) {
        Ok(()) => {
            put3(answer, [0, 0, 0]);
            3
        }
        Err(no) => {
            put3(answer, refused(no));
            0
        }
    }
}

// Copies the front of `from` to the front of `to`, as far as it fits. With `copy_from_slice` the archive would need `memmove` from outside.
fn copy_front(from: &[u8], to: &mut [u8])
    ensures { to.new ≡ copied from.now to.old }
{
    for i in 0..from.len().min(to.len()) {
        to[i] = from[i];
    }
}

// The length of the stretch of the state's rows; its bytes stand at the front of `out` as far as they fit, the rest of `out` stays.
#[unsafe(no_mangle)]
pub extern "C" fn cuulipso_rows(file: &[u8], state: u64, out: &mut [u8]) -> u64
    ensures { (result ≡ length (rows_of file.now state))
        × (out.new ≡ copied (rows_of file.now state) out.old) }
{
    let rows = checking::questions::rows_of(file, state as usize);
    copy_front(rows, out);
    rows.len() as u64
}

// What a run counted.
fn counted(counts: Counts) -> [u64; 3]
    ensures { result ≡ counts.rounds ∷ counts.evaluations ∷ counts.least ∷ [] }
{
    [counts.rounds, counts.evaluations, counts.least as u64]
}

// Solves a file by a run of some kind, and hands over what it answers.
fn hand_over(
    kind: Kind,
    file: &[u8],
    budget: u64,
    tables: &mut Tables<'_>,
    answer: &mut [u64],
) -> u8
    ensures same { Same tables.old tables.new }
    ensures hands { HandsSolution
        kind file.now budget (tables_in tables.old) (tables_in tables.new) answer.old answer.new result }
{
    if answer.len() < 3 {
        return 4;
    }
    let said = solving::solve::solve(
        kind,
        file,
        budget,
        tables.values,
        tables.picks,
        tables.remembered,
        tables.walk,
    );
    match said {
        Ok(Ended::Solved(counts)) => {
            put3(answer, counted(counts));
            1
        }
        Ok(Ended::Spent(counts)) => {
            put3(answer, counted(counts));
            2
        }
        Err(refusal) => {
            put3(answer, refused(refusal));
            0
        }
    }
}

// 1 solved, with answer rounds, evaluations, C; 2 spent, with rounds, evaluations, 0; 0 refused, with question, place, 0; 4 where
// `answer` has fewer than 3 entries, and then nothing is done.
#[unsafe(no_mangle)]
pub extern "C" fn cuulipso_solve(
    file: &[u8],
    budget: u64,
    values: &mut [u32],
    picks: &mut [u16],
    remembered: &mut [u32],
    walk: &mut [u16],
    answer: &mut [u64],
) -> u8
    ensures { HandsSolution
        Plain file.now budget
        (tables values.old picks.old remembered.old walk.old)
        (tables values.new picks.new remembered.new walk.new)
        answer.old answer.new result }
{
    let mut tables = Tables {
        values,
        picks,
        remembered,
        walk,
    };
    hand_over(Kind::Plain, file, budget, &mut tables, answer)
}

// The same of a finishing run (E8): one budget over both of its parts.
#[unsafe(no_mangle)]
pub extern "C" fn cuulipso_finish(
    file: &[u8],
    budget: u64,
    values: &mut [u32],
    picks: &mut [u16],
    remembered: &mut [u32],
    walk: &mut [u16],
    answer: &mut [u64],
) -> u8
    ensures { HandsSolution
        Finishing file.now budget
        (tables values.old picks.old remembered.old walk.old)
        (tables values.new picks.new remembered.new walk.new)
        answer.old answer.new result }
{
    let mut tables = Tables {
        values,
        picks,
        remembered,
        walk,
    };
    hand_over(Kind::Finishing, file, budget, &mut tables, answer)
}

// The numbers of a refusal of the audit, of an opening or of a report: its question, its place, its excess.
fn turned_down(no: AuditRefusal) -> [i64; 3]
    ensures { result ≡ pos (number_of no.question) ∷ pos no.place ∷ no.excess ∷ [] }
{
    [no.question.number() as i64, no.place as i64, no.excess]
}

// 3 accepted, with answer C, 0, 0; 0 refused, with question, place, excess; 4 where `answer` has fewer than 3 entries, and then nothing
// is written.
#[unsafe(no_mangle)]
pub extern "C" fn cuulipso_audit(
    file: &[u8],
    values: &[u32],
    picks: &[u16],
    answer: &mut [i64],
) -> u8
    ensures { Hands
        (handing (signed_numbers (audited_carries (audit file.now values.now picks.now))) nothing)
        nothing nothing answer.old answer.new result }
{
    if answer.len() < 3 {
        return 4;
    }
    match auditing::audit(file, values, picks) {
        Ok(least) => {
            put3(answer, [least as i64, 0, 0]);
            3
        }
        Err(no) => {
            put3(answer, turned_down(no));
            0
        }
    }
}

// Writes the set form of the file at the front of `out`: 3, with answer length, 0, 0; 0 refused, with question, place, 0, and `out`
// stays; 4 where `answer` has fewer than 3 entries, and then nothing is written. Bytes of `out` beyond the form stay.
#[unsafe(no_mangle)]
pub extern "C" fn cuulipso_set_form(file: &[u8], out: &mut [u8], answer: &mut [u64]) -> u8
    ensures { Hands
        (writing_handed (exchange file.now out.old))
        out.old out.new answer.old answer.new result }
{
    if answer.len() < 3 {
        return 4;
    }
    match exchanging::set_form(file, out) {
        Ok(length) => {
            put3(answer, [length as u64, 0, 0]);
            3
        }
        Err(unwritten) => {
            put3(answer, refused(unwritten));
            0
        }
    }
}
