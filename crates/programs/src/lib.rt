// What the programs do between reading their files and writing: plan a file, and audit a file with two table files. What they print is
// put at the front of a lent buffer, and the rest of the buffer stays. Buffers are lent as arrays, whose types have the room.
#![tactic(auto)]

pub mod checked;
pub mod files;
mod remainders;

ghost use Rattle.std.specs.Prelude.{◌≡◌, ◌≤◌, List, ℕ, length, take};
ghost use Rattle.model.specs.Answers.{answer_of};
ghost use Rattle.model.specs.Buffers.{ReadOf};
ghost use Rattle.model.specs.Lines.{run_states};
ghost use Rattle.model.specs.Promises.{Plans, Audits};
ghost use Rattle.model.specs.Sections.{problem_of};
ghost use Rattle.model.specs.Solution.{tables};
ghost use Rattle.programs.specs.AnswerFor.{AnswerFor};
ghost use Rattle.programs.specs.Remainders.{RunDone};

use crate::remainders::remainders_of;
use model::{
    Ended, Kind, LINE_MOST, LIST_END, LONGEST_FILE, MAX_ROWS, MAX_STATES, PLAN_HOLDS, PLAN_ROUNDS,
    Question, Refusal,
};
use printing::lines::{Run, answer_text, audit_text, plan_text};
use printing::table_files::{PICKS_ROOM, VALUES_ROOM, table_of};
use reading::index::large_index;
use reading::layout::layout_of;
use solving::Tables;
use solving::solve::solve_file;

// Room for the longest problem file, and for a byte more: a longer file is refused as its front is.
pub const FILE_ROOM: usize = LONGEST_FILE + 1;

// Room for as much as `plan` holds, and for a byte more, which shows that there was more. It has room for the text of every plan.
pub const PAGE: usize = PLAN_HOLDS + 1;

// How many bytes the text of a plan has, and how many states the file; 0 states where it is refused.
#[derive(Drop)]
pub struct Planned {
    pub length: usize,
    pub states: usize,
}

// The first n bytes, or all where there are no more: what was read, where n were read.
pub fn front(bytes: &[u8], n: usize) -> &[u8]
    ensures { result.now ≡ take n bytes.now }
{
    &bytes[..n.min(bytes.len())]
}

// The number of states of a file that has an answer; 0 where it is refused.
fn states_of(file: &[u8], answer: Result<Ended, Refusal>) -> usize
    requires { AnswerFor file.now (answer_of answer) }
    ensures { result ≡ run_states (answer_of answer) (problem_of file.now).states }
{
    match answer {
        Ok(_) => layout_of(file).states,
        Err(_) => 0,
    }
}

// A run of `plan`: its answer, the number of its states, and the remainder of the pick at each.
#[derive(Drop)]
struct Ran {
    answer: Result<Ended, Refusal>,
    states: usize,
    remainders: [u16; MAX_STATES],
}

// Solves a file with the rounds that `plan` has. The remainders are those under the values that the run left. A program runs once, so
// that its index is the large one for every file. The tables are lent one by one, as the program
// has them.
fn run(
    kind: Kind,
    file: &[u8],
    values: &mut [u32],
    picks: &mut [u16],
    remembered: &mut [u32],
    walk: &mut [u16],
) -> Ran
    ensures { RunDone
        kind file.now (tables values.old picks.old remembered.old walk.old)
        (tables values.new picks.new remembered.new walk.new) result }
{
    let mut index = large_index();
    let mut tables = Tables {
        values,
        picks,
        remembered,
        walk,
    };
    let answer = solve_file(kind, file, PLAN_ROUNDS, &mut tables, &mut index);
    let states = states_of(file, answer);
    let remainders = remainders_of(file, &index, values, picks, states);
    Ran {
        answer,
        states,
        remainders,
    }
}

// Plans an input of which `read` bytes are on `page`, by a run of some kind: its text takes the input's place, its tables are in `values`
// and `picks`. An input that is longer than `plan` holds is refused (25).
pub fn plan(
    kind: Kind,
    page: &mut [u8; PAGE],
    read: usize,
    values: &mut [u32; MAX_STATES],
    picks: &mut [u16; MAX_STATES],
) -> Planned
    ensures { (f : List ℕ) → ReadOf f page.old read →
        Plans
        kind f values.old picks.old page.old values.new picks.new
        page.new result.length result.states }
{
    if PLAN_HOLDS < read {
        return Planned {
            length: answer_text(Err(Question::Input.at(0)), page),
            states: 0,
        };
    }
    let mut remembered = [0u32; MAX_ROWS];
    let mut walk = [LIST_END; MAX_STATES];
    let ran = run(
        kind,
        front(page, read),
        values,
        picks,
        &mut remembered,
        &mut walk,
    );
    let states = ran.states;
    let left = Run {
        values,
        picks,
        remainders: &ran.remainders,
        walk: &walk[..states],
    };
    let length = plan_text(ran.answer, left, page);
    Planned { length, states }
}

// The line of the audit of an input with the tables of two others, of which i, j and k bytes are in `file`, `values` and `picks`. Where an
// input is longer than the room for it, its front is there.
pub fn audit_line(
    file: &[u8; FILE_ROOM],
    i: usize,
    values: &[u8; VALUES_ROOM],
    j: usize,
    picks: &[u8; PICKS_ROOM],
    k: usize,
    out: &mut [u8; LINE_MOST],
) -> usize
    ensures within { result ≤ length out.new }
    ensures audits { (f v p : List ℕ) → ReadOf f file.now i → ReadOf v values.now j
        → ReadOf p picks.now k → Audits f v p out.old out.new result }
{
    let problem = front(file, i);
    let value_bytes = front(values, j);
    let pick_bytes = front(picks, k);
    let mut v = [0u32; MAX_STATES];
    let n = table_of(value_bytes, &mut v);
    let mut p = [0u16; MAX_STATES];
    let m = table_of(pick_bytes, &mut p);
    audit_text(auditing::audit(problem, &v[..n], &p[..m]), out)
}
