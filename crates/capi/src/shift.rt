// Following a plan in the C interface. The record is a C struct of four numbers: state, moves, seconds, mark. A report alters it in place;
// an opening has it as its four numbers, which is the same to a caller.
ghost use Rattle.std.specs.Prelude.{◌≡◌, ◌≤◌, length};
ghost use Rattle.model.specs.Following.{Report, opening, report};
ghost use Rattle.model.specs.Interface.{Hands, report_handed, follower_in};
ghost use Rattle.model.specs.Promises.{Answered};
ghost use Rattle.capi.specs.Steps.{Showable};

use crate::{put3, turned_down};
use following::{Stepped, open_at_start, step};
use model::Follower;

// What a call hands back beside the answer's table: the record, and the status.
#[derive(Drop)]
struct Returned {
    follower: Follower,
    status: u8,
}

// Hands on the opening or the report that `s` answers: 3 done, with answer state, moves, seconds; 0 refused, with question, place, excess.
fn hand_on(s: Stepped, answer: &mut [i64]) -> Returned
    requires { Showable s × (3 ≤ length answer.old) }
    ensures { (said : Report) (lent : Follower) → Answered s.answer s.follower said
        → Hands (report_handed said) lent result.follower answer.old answer.new result.status }
{
    let follower = s.follower;
    let status = match s.answer {
        Ok(()) => {
            put3(
                answer,
                [
                    follower.state as i64,
                    follower.moves as i64,
                    follower.seconds as i64,
                ],
            );
            3
        }
        Err(no) => {
            put3(answer, turned_down(no));
            0
        }
    };
    Returned { follower, status }
}

// An opening on a record by value: 4 where `answer` has fewer than 3 entries, and then it and the record are as they were.
fn opened(w: Follower, file: &[u8], values: &[u32], picks: &[u16], answer: &mut [i64]) -> Returned
    ensures { Hands
        (report_handed (opening file.now values.now picks.now w))
        w result.follower answer.old answer.new result.status }
{
    if answer.len() < 3 {
        return Returned {
            follower: w,
            status: 4,
        };
    }
    hand_on(open_at_start(w, file, values, picks), answer)
}

// A report on a record by value: 4 as for an opening.
fn reported(
    w: Follower,
    file: &[u8],
    values: &[u32],
    picks: &[u16],
    outcome: u64,
    answer: &mut [i64],
) -> Returned
    ensures { Hands
        (report_handed (report file.now values.now picks.now w outcome))
        w result.follower answer.old answer.new result.status }
{
    if answer.len() < 3 {
        return Returned {
            follower: w,
            status: 4,
        };
    }
    hand_on(step(w, file, values, picks, outcome), answer)
}

// The record in its four numbers.
// The C interface lends four numbers: a `From` would stand in `model`, away from it.
fn follower_in(from: &[u64; 4]) -> Follower
    ensures { result ≡ follower_in from.now }
{
    let [state, moves, seconds, mark] = *from;
    Follower {
        state,
        moves,
        seconds,
        mark,
    }
}

// Writes a record to its four numbers.
// Of the C interface, as `follower_in`.
fn put_follower(to: &mut [u64; 4], w: Follower)
    ensures { follower_in to.new ≡ w }
{
    *to = [w.state, w.moves, w.seconds, w.mark];
}

// Opens a follower: 3 done, with answer state, moves, seconds; 0 refused, with question, place, excess, and the record stays; 4 where
// `answer` has fewer than 3 entries, and then it and the record stay.
#[unsafe(no_mangle)]
pub extern "C" fn cuulipso_open(
    file: &[u8],
    values: &[u32],
    picks: &[u16],
    follower: &mut [u64; 4],
    answer: &mut [i64],
) -> u8
    ensures { Hands
        (report_handed (opening file.now values.now picks.now (follower_in follower.old)))
        (follower_in follower.old) (follower_in follower.new)
        answer.old answer.new result }
{
    let handed = opened(follower_in(follower), file, values, picks, answer);
    put_follower(follower, handed.follower);
    handed.status
}

// Reports that outcome `outcome` of the pick at the record's state occurred: the lent record is altered in place. It answers as
// `cuulipso_open` does.
#[unsafe(no_mangle)]
pub extern "C" fn cuulipso_report(
    file: &[u8],
    values: &[u32],
    picks: &[u16],
    outcome: u64,
    follower: &mut Follower,
    answer: &mut [i64],
) -> u8
    ensures { Hands
        (report_handed (report file.now values.now picks.now follower.old outcome))
        follower.old follower.new answer.old answer.new result }
{
    let handed = reported(*follower, file, values, picks, outcome, answer);
    *follower = handed.follower;
    handed.status
}
