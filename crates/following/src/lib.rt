// Following a plan through the shift: a record is opened on a file with its tables, and each report moves it on.
// `open_at_start` and `step` take the record by value and hand it back.
#![tactic(auto)]

mod moving;

ghost use Rattle.model.specs.Following.{Report, opening, report};
ghost use Rattle.model.specs.Promises.{Answered};
ghost use Rattle.model.specs.declared.Follower.{Follower};
ghost use Rattle.reading.specs.Room.{IndexRoom};
ghost use Rattle.following.specs.Handing.{Hands};

use crate::moving::report_on;
use auditing::audit_file;
use model::{AuditRefusal, Follower};
use reading::index::with_index;
use reading::problem::Problem;
use reading::settings::start_of;

// The record after an opening or a report, and the answer.
#[derive(Clone, Copy)]
pub struct Stepped {
    pub follower: Follower,
    pub answer: Result<(), AuditRefusal>,
}

// The record after an opening or a report; a refusal hands `w` back as it was.
fn handed_back(w: Follower, after: Result<Follower, AuditRefusal>) -> Stepped
    ensures { (said : Report) → Hands after w said → Answered result.answer result.follower said }
{
    match after {
        Ok(follower) => Stepped {
            follower,
            answer: Ok(()),
        },
        Err(refusal) => Stepped {
            follower: w,
            answer: Err(refusal),
        },
    }
}

// The record at the start of a file, with a lent index.
fn open_by(
    file: &[u8],
    values: &[u32],
    picks: &[u16],
    index: &mut [u32],
) -> Result<Follower, AuditRefusal>
    requires { IndexRoom file.now index.old }
    ensures { (w : Follower) → Hands result w (opening file.now values.now picks.now w) }
{
    audit_file(file, values, picks, index)?;
    Ok(Follower {
        state: start_of(file) as u64,
        moves: 0,
        seconds: 0,
        mark: 0,
    })
}

// Opens a follower at the start of a file, on the plan of two tables, where the audit accepts them. A refusal hands the
// record back as it was.
pub fn open_at_start(w: Follower, file: &[u8], values: &[u32], picks: &[u16]) -> Stepped
    ensures { Answered
        result.answer result.follower (opening file.now values.now picks.now w) }
{
    let after = with_index(file, &mut |index| open_by(file, values, picks, index));
    handed_back(w, after)
}

// The record after one report, with a lent index.
fn step_by(
    w: Follower,
    file: &[u8],
    values: &[u32],
    picks: &[u16],
    outcome: u64,
    index: &mut [u32],
) -> Result<Follower, AuditRefusal>
    requires { IndexRoom file.now index.old }
    ensures { Hands result w (report file.now values.now picks.now w outcome) }
{
    audit_file(file, values, picks, index)?;
    report_on(w, Problem { file, index }, values, picks, outcome)
}

// One report: outcome `outcome` of the pick at the record's state occurred. A refusal hands the record back as it was.
pub fn step(w: Follower, file: &[u8], values: &[u32], picks: &[u16], outcome: u64) -> Stepped
    ensures { Answered
        result.answer result.follower
        (report file.now values.now picks.now w outcome) }
{
    let after = with_index(
        file,
        &mut |index| step_by(w, file, values, picks, outcome, index),
    );
    handed_back(w, after)
}
