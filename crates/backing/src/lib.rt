// The backup of a state: the scan of its rows, what it leaves in the tables, and the backups of a round.
// Apart from the run, so that a change of the run proves none of it again.
#![tactic(auto)]

ghost use Rattle.std.specs.Prelude.{◌≡◌};
ghost use Rattle.model.specs.Problem.{give_up_cost};
ghost use Rattle.model.specs.Sections.{problem_of};

pub mod backup;
mod rescan;
mod scan;

use reading::problem::Problem;

// What the backups of a run go by: the problem, the tolerance and the cost of giving up, in ticks, and the weight total.
#[derive(Clone, Copy)]
pub struct Terms<'a> {
    pub problem: Problem<'a>,
    pub tolerance: u32,
    pub give: u32,
    pub total: u32,
    pub ghost give_is: { give ≡ give_up_cost (problem_of problem.file.now) },
    pub ghost total_is: { total ≡ (problem_of problem.file.now).total },
}

// What a run has beside the values, which a scan only reads: the picks, what each row remembers, and the entries of the states. They are
// tables of their own, as C lends them.
#[derive(Drop)]
pub struct Memory<'a> {
    pub picks: &'a mut [u16],
    pub remembered: &'a mut [u32],
    pub entries: &'a mut [u32],
}
