// A plan under audit: a problem, and two tables that have an entry for each of its states.
ghost use Rattle.std.specs.Prelude.{◌≡◌, ◌≤◌, length};
ghost use Rattle.model.specs.Sections.{problem_of};

use reading::problem::Problem;

#[derive(Clone, Copy)]
pub struct Plan<'a> {
    pub problem: Problem<'a>,
    pub states: usize,
    pub values: &'a [u32],
    pub picks: &'a [u16],
    pub ghost states_are: { states ≡ (problem_of problem.file.now).states },
    pub ghost values_long: { states ≤ length values.now },
    pub ghost picks_long: { states ≤ length picks.now },
}
