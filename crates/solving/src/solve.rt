// Solving a file: questions 1 to 13, then the run, and what it leaves in the lent tables.
// A no to one of them leaves the four tables as they were lent.
ghost use Rattle.std.specs.Prelude.{◌≡◌};
ghost use Rattle.model.specs.Answers.{solve_carries};
ghost use Rattle.model.specs.Promises.{Leaves, EndsSolved, PassesAudit, FinishesExact};
ghost use Rattle.model.specs.Solution.{tables, solution};
ghost use Rattle.model.specs.declared.Kind.TheVariants.{Finishing};
ghost use Rattle.reading.specs.Room.{IndexRoom};
ghost use Rattle.solving.specs.Lent.{tables_in, tables_left, Same};
ghost use Rattle.solving.specs.Solvable.{Solvable, Unentered, FileSolved};

use crate::Tables;
use crate::lent::{begin, put_list};
use crate::run::run;
use backing::{Memory, Terms};
use checking::questions::questions;
use model::{Ended, Kind, LIST_END, MAX_STATES, Refusal};
use reading::index::with_index;
use reading::layout::layout_of;
use reading::problem::Problem;
use walking::walk::MARKS;

// A run on a file of at most so many states has few entries, and does not pay for clearing those of states that there are not.
// Two calls choose: a function that takes the choice as a closure is longer than they are.
const FEW_STATES: usize = 256;

// Solves a problem that questions 12 and 13 let through, with entries that are all 0. The walks list into an array of the run's own, and
// the walk list gets the last.
fn solve_entered(
    kind: Kind,
    problem: Problem<'_>,
    budget: u64,
    tables: Tables<'_>,
    entries: &mut [u32],
) -> Ended
    requires { Solvable problem.file.now budget (tables_in tables) × Unentered problem.file.now entries.old }
    ensures { Leaves
        (solve_carries (Ok result)) (tables_left tables.exit)
        (solution kind problem.entry.file.now budget (tables_in tables.entry)) }
{
    let Tables {
        values,
        picks,
        remembered,
        walk,
    } = tables;
    begin(problem, values, picks, remembered);
    let set = problem.settings();
    let terms = Terms {
        problem,
        tolerance: set.tolerance,
        give: problem.give_up_cost(),
        total: set.total,
    };
    let mut memory = Memory {
        picks,
        remembered,
        entries,
    };
    let mut list = [LIST_END; MARKS];
    let done = run(kind, &mut memory, values, &mut list, terms, budget);
    let l = layout_of(problem.file);
    put_list(&list, done.listed, l.states, walk);
    done.ended
}

// Makes the entries of a run, few for a problem of few states, and solves the problem.
fn solve_ready(kind: Kind, problem: Problem<'_>, budget: u64, tables: &mut Tables<'_>) -> Ended
    requires { Solvable problem.file.now budget (tables_in tables.old) }
    ensures same { Same tables.old tables.new }
    ensures leaves { Leaves
        (solve_carries (Ok result)) (tables_in tables.new) (solution kind problem.entry.file.now budget (tables_in tables.old)) }
{
    let l = layout_of(problem.file);
    // handed over, since the run takes them apart
    let parts = Tables {
        values: tables.values,
        picks: tables.picks,
        remembered: tables.remembered,
        walk: tables.walk,
    };
    if l.states <= FEW_STATES {
        return solve_entered(kind, problem, budget, parts, &mut [0; 2 * FEW_STATES]);
    }
    solve_entered(kind, problem, budget, parts, &mut [0; 2 * MAX_STATES])
}

// Questions 1 to 13 about a file, a budget and four lent tables, and the run where they let it be. The index is that of the file
// where there was a run.
pub fn solve_file(
    kind: Kind,
    file: &[u8],
    budget: u64,
    tables: &mut Tables<'_>,
    index: &mut [u32],
) -> Result<Ended, Refusal>
    requires { IndexRoom file.now index.old }
    ensures same { Same tables.old tables.new }
    ensures solved { FileSolved
        kind file.now budget (tables_in tables.old) index.old index.new (solve_carries result) (tables_in tables.new) }
{
    questions(file, index)?;
    let problem = Problem { file, index };
    tables.questions(problem, budget)?;
    Ok(solve_ready(kind, problem, budget, tables))
}

// Solves a file within a budget of rounds. The answer and what stands in the lent tables afterwards, entries beyond the counts
// included, are those of document 01. Given enough rounds it ends solved, and what it then leaves passes the audit, with the same C. Of a
// finishing run (E8) each value on the plan is then that of its pick, and what it leaves passes the audit under tolerance 1 too.
pub fn solve(
    kind: Kind,
    file: &[u8],
    budget: u64,
    values: &mut [u32],
    picks: &mut [u16],
    remembered: &mut [u32],
    walk: &mut [u16],
) -> Result<Ended, Refusal>
    ensures leaves { Leaves
        (solve_carries result) (tables values.new picks.new remembered.new walk.new)
        (solution
        kind file.now budget
        (tables values.old picks.old remembered.old walk.old)) }
    ensures ending { EndsSolved
        kind file.now budget
        (tables values.old picks.old remembered.old walk.old) (solve_carries result) }
    ensures acceptance { PassesAudit
        file.now
        (tables values.new picks.new remembered.new walk.new) (solve_carries result) }
    ensures exactness { kind ≡ Finishing → FinishesExact
        file.now
        (tables values.new picks.new remembered.new walk.new) (solve_carries result) }
{
    let mut tables = Tables {
        values,
        picks,
        remembered,
        walk,
    };
    with_index(
        file,
        &mut |index| solve_file(kind, file, budget, &mut tables, index),
    )
}
