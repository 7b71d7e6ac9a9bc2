// A walk led by picks: the index tells where the outcomes of the row that a state picks stand.
ghost use Rattle.std.specs.Prelude.{◌≤◌, length};
ghost use Rattle.model.specs.Sections.{problem_of};
ghost use Rattle.walking.specs.Trails.{picked_by};
ghost use Rattle.walking.specs.PickedParts.{picked_along};
ghost use Rattle.walking.specs.Walkable.{problem_walkable};

use crate::walk::Guide;
use reading::index::is_own;
use reading::problem::Problem;

// A file with its index, and a pick for each state.
#[derive(Drop)]
pub(crate) struct ByPicks<'a> {
    pub(crate) problem: Problem<'a>,
    pub(crate) picks: &'a [u16],
    ghost long: { (problem_of problem.file.now).states ≤ length picks.now },
}

impl<'a> Guide for ByPicks<'a> {
    ghost bytes = { λ x. x.problem.file.now };

    ghost graph = { λ x. picked_by x.problem.file.now x.picks.now };

    fn file(&self) -> &[u8] {
        self.problem.file
    }

    // Those of the picked row; none where it is not one of the state's own.
    fn outcomes(&self, s: usize) -> &[u8] {
        let pick = self.picks[s] as u32;
        if !is_own(self.problem.index, s, pick) {
            return &[];
        }
        self.problem.indexed().outcomes(pick as usize)
    }

    ghost along = { λ x. picked_along (problem_walkable x.problem) x.picks.now };
}
