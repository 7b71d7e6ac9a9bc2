// The round, and the run: rounds until one moves nothing, or the budget is reached.
// The walk depends on the picks alone, so that a round after one in which no pick changed goes along the list that is there.
ghost use Rattle.std.specs.Prelude.{◌≡◌, true, false, [], ◌≤◌, ◌<◌, length, take};
ghost use Rattle.model.specs.Limits.{max_budget};
ghost use Rattle.model.specs.Sections.{problem_of};
ghost use Rattle.model.specs.Rounds;
ghost use Rattle.model.specs.Value.{by_state};
ghost use Rattle.guarantee.specs.Leasts.{least_over};
ghost use Rattle.walking.specs.Costs.{ListCosted, no_cost};
ghost use Rattle.walking.specs.Led.{Led, WalkedBy};
ghost use Rattle.backing.specs.Backable.{count_bound};
ghost use Rattle.backing.specs.Scanned.{problem_in, machine_of, Same};
ghost use Rattle.solving.specs.Runs.{tables_with, at_first, Runnable, Rounded, Ran};

use backing::backup::Tally;
use backing::{Memory, Terms};
use model::{Counts, Ended, Kind};
use reading::problem::Problem;
use walking::entered::walk_entries;
use walking::least::least_listed;
use walking::walk::MARKS;

// Where a run stands between two rounds: the evaluations so far, how many states the last walk listed, and whether a pick changed since.
#[derive(Drop)]
pub struct Standing {
    pub count: u64,
    pub listed: usize,
    pub turned: bool,
}

impl Standing {
    // What a run that stands so has counted after so many rounds, with C, or 0 where it is spent.
    fn counts(&self, rounds: u64, least: u32) -> Counts
        ensures { (result.rounds ≡ rounds) × (result.evaluations ≡ self.now.count) × (result.least ≡ least) }
    {
        Counts {
            rounds,
            evaluations: self.count,
            least,
        }
    }
}

// The walk list of a round: where a pick changed since the last walk it is walked anew, else the listed states stay.
fn walk_list(file: &[u8], memory: &Memory<'_>, list: &mut [u16; MARKS], before: &Standing) -> usize
    requires { Led file.now memory.now.entries.now × ((problem_of file.now).states ≤ length list.old)
        × (before.now.turned ≡ false → WalkedBy file.now memory.now.entries.now list.old before.now.listed) }
    ensures { WalkedBy file.now memory.now.entries.now list.new result }
{
    if before.turned {
        return walk_entries(file, memory.entries, list);
    }
    before.listed
}

// C, where nothing moved: the least cost of the picks at the listed states.
fn least_cost(problem: Problem<'_>, memory: &Memory<'_>, list: &[u16; MARKS], listed: usize) -> u32
    requires { ListCosted problem.file.now problem.index.now memory.now.picks.now list.now listed }
    ensures { result ≡ least_over (problem_in problem.entry) (by_state memory.now.picks.now) (take listed list.now) no_cost }
{
    least_listed(problem, memory.picks, &list[..listed])
}

// A round done: where the run stands, and C where nothing moved.
#[derive(Drop)]
pub struct RoundDone {
    pub standing: Standing,
    pub quiet: Option<u32>,
}

// One round: walk with the picks as they are, then back up the listed states. Where nothing moved the picks are still those of the walk,
// so that its list is the reached states that are no goals.
fn round(
    memory: &mut Memory<'_>,
    values: &mut [u32],
    list: &mut [u16; MARKS],
    terms: Terms<'_>,
    before: Standing,
) -> RoundDone
    requires { Runnable terms.problem (tables_with values.old memory.old list.old) memory.old.entries.now before
        × ((Rounds.round
        (problem_in terms.problem) terms.tolerance
        (machine_of values.old memory.old [] before.count true)).evaluations < count_bound) }
    ensures same { Same memory.old memory.new }
    ensures rounded { Rounded
        terms.entry.problem terms.entry.tolerance (tables_with values.old memory.old list.old) before.count
        (tables_with values.new memory.new list.new) memory.new.entries.now result }
{
    let listed = walk_list(terms.problem.file, memory, list, &before);
    let t = Tally {
        count: before.count,
        moved: false,
        turned: false,
    };
    let b = memory.backups(terms, values, &list[..listed], t);
    let standing = Standing {
        count: b.count,
        listed,
        turned: b.turned,
    };
    if b.moved {
        return RoundDone {
            standing,
            quiet: None,
        };
    }
    let least = least_cost(terms.problem, memory, list, listed);
    RoundDone {
        standing,
        quiet: Some(least),
    }
}

// A run done: how it ended, and how many states its last walk listed.
#[derive(Drop)]
pub struct RunDone {
    pub ended: Ended,
    pub listed: usize,
}

// The terms of a finishing run's second part: "with tolerance 1".
// A struct with ghost fields takes no `..terms`.
fn to_the_tick(mut terms: Terms<'_>) -> Terms<'_>
    ensures { (result.tolerance ≡ 1) × (result.problem ≡ terms.entry.problem) }
{
    terms.tolerance = 1;
    terms
}

// Runs rounds with the file's tolerance until one moves nothing; a finishing run goes on from there, with tolerance 1, until the next that
// moves nothing. At most `budget` rounds are done in all.
pub fn run(
    kind: Kind,
    memory: &mut Memory<'_>,
    values: &mut [u32],
    list: &mut [u16; MARKS],
    terms: Terms<'_>,
    budget: u64,
) -> RunDone
    requires { Runnable terms.problem (tables_with values.old memory.old list.old) memory.old.entries.now at_first
        × (budget ≤ max_budget) }
    ensures same { Same memory.old memory.new }
    ensures ran { Ran
        kind (problem_in terms.entry.problem) terms.entry.tolerance budget (tables_with values.old memory.old list.old)
        (tables_with values.new memory.new list.new) result }
{
    // what is left of a finishing run after its first quiet round is a plain run
    let mut left = kind;
    let mut by = terms;
    let mut standing = Standing {
        count: 0,
        listed: 0,
        turned: true,
    };
    for rounds in 0..budget {
        let r = round(memory, values, list, by, standing);
        standing = r.standing;
        let Some(least) = r.quiet else {
            continue;
        };
        match left {
            Kind::Plain => {
                return RunDone {
                    ended: Ended::Solved(standing.counts(rounds + 1, least)),
                    listed: standing.listed,
                };
            },
            Kind::Finishing => {
                left = Kind::Plain;
                by = to_the_tick(terms);
            },
        }
    }
    RunDone {
        ended: Ended::Spent(standing.counts(budget, 0)),
        listed: standing.listed,
    }
}
