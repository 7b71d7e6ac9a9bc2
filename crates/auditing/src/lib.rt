// The audit of document 01: questions 1 to 11 and 15 to 19 of a file with a values table and a picks table.
#![tactic(auto)]

mod asking;
pub mod plan;
mod searches;

ghost use Rattle.std.specs.Prelude.{◌≡◌};
ghost use Rattle.model.specs.Answers.{audited_of, audit_carries, audited_carries};
ghost use Rattle.model.specs.Audit.{audit as model-audit};
ghost use Rattle.model.specs.Carried.{Said};
ghost use Rattle.model.specs.Sections.{problem_of};
ghost use Rattle.model.specs.Value.{by_state};
ghost use Rattle.model.specs.Promises.{Close, ExcessFits};
ghost use Rattle.reading.specs.Room.{IndexRoom};
ghost use Rattle.auditing.specs.FileAudited.{FileAudited};

use crate::asking::audit_problem;
use checking::questions::questions;
use model::AuditRefusal;
use reading::index::with_index;
use reading::problem::Problem;

// The questions in order, to any bytes and any two tables. The index is that of the file where they all say yes.
pub fn audit_file(
    file: &[u8],
    values: &[u32],
    picks: &[u16],
    index: &mut [u32],
) -> Result<u32, AuditRefusal>
    requires { IndexRoom file.now index.old }
    ensures { FileAudited
        file.now values.now picks.now index.old index.new
        (audited_of result) }
{
    questions(file, index)?;
    audit_problem(Problem { file, index }, values, picks)
}

// The audit of any bytes with any two tables. It changes neither. An accepted table is close, and the excess of a
// refusal has the sign that its question says.
pub fn audit(file: &[u8], values: &[u32], picks: &[u16]) -> Result<u32, AuditRefusal>
    ensures result_value { audit_carries result ≡ audited_carries (model-audit file.now values.now picks.now) }
    ensures close { (audit_carries result).said ≡ Said.accepted
        → Close
        (problem_of file.now) (problem_of file.now).tolerance (by_state values.now)
        (by_state picks.now) (audit_carries result).counts.least }
    ensures excess { (audit_carries result).said ≡ Said.refused
        → ExcessFits (problem_of file.now).tolerance (audit_carries result).question (audit_carries result).excess }
{
    with_index(file, &mut |index| audit_file(file, values, picks, index))
}
