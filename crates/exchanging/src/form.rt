// A file's set form: its sections are put one after the other, at the front of a buffer that has room for them.
ghost use Rattle.std.specs.Prelude.{ℕ, List, ◌≡◌, ◌++◌, ◌+◌, ◌*◌, ◌≤◌, ◌<◌, eqb, length};
ghost use Rattle.model.specs.Buffers.{copied};
ghost use Rattle.model.specs.Bytes.{number_bytes};
ghost use Rattle.model.specs.Encoding.{parts_to, settings_on, setting_number, setting_bytes, state_bytes, row_bytes};
ghost use Rattle.model.specs.Limits.{thousandths};
ghost use Rattle.model.specs.Questions.{passes, file_questions};
ghost use Rattle.model.specs.Sections.{problem_of};
ghost use Rattle.model.specs.SetForm.{set_form};
ghost use Rattle.writing.specs.Pages.{Puts, Room};
ghost use Rattle.exchanging.specs.FormAsks.{form_of, row_codes, code_as, Counted};

use crate::sections::{Section, put_section};
use model::{MAX_SETTINGS, MIN_SETTINGS, THOUSANDTHS};
use reading::layout::layout_of;
use reading::outcomes::seconds_of;
use reading::problem::Problem;
use reading::settings::total_of;
use reading::states::{estimate_of, row_count_of};
use writing::page::Page;

// Whether a weight total is the usual one, 1,000, for which there is no fourth setting.
fn is_usual(total: u32) -> bool
    ensures { result ≡ eqb total thousandths }
{
    total == THOUSANDTHS
}

// How many settings the form has: four, unless the weight total is 1,000.
fn setting_number(total: u32) -> u32
    ensures { result ≡ settings_on (eqb total thousandths) }
{
    if is_usual(total) {
        MIN_SETTINGS
    } else {
        MAX_SETTINGS
    }
}

// An accepted file with what its set form has of its own: how many outcomes each row has, and their codes, one row
// after the other.
#[derive(Clone, Copy)]
pub struct Form<'a> {
    pub problem: Problem<'a>,
    pub counts: &'a [u8],
    pub codes: &'a [u32],
    pub ghost passed: { file_questions problem.file.now ≡ passes },
    pub ghost counted: { Counted problem.file.now counts.now },
    pub ghost coded: { codes.now ≡ parts_to (row_codes problem.file.now) (problem_of problem.file.now).rows },
}

impl<'a> Form<'a> {
    // How long it is.
    #[tactic(auto, using(crate::proofs::FormSections::form_adds_up))]
    pub fn len(self) -> usize
        ensures { result ≡ length (set_form self.entry.problem.file.now) }
    {
        let settings = setting_number(total_of(self.problem.file)) as usize;
        let states = layout_of(self.problem.file).states;
        let (rows, outcomes) = (self.counts.len(), self.codes.len());
        2 + 4 * settings + 2 + 6 * states + 2 + 4 * rows + 2 + 4 * outcomes
    }

    // Puts the settings, after their count.
    fn put_settings(self, page: &mut Page<'_>)
        requires { Room page.old (2 + 4 * setting_number (form_of self.problem.file.now)) }
        ensures { Puts
            page.old page.new
            (number_bytes 2 (setting_number (form_of self.entry.problem.file.now))
            ++ setting_bytes (form_of self.entry.problem.file.now)) }
    {
        let settings = self.problem.settings();
        page.put_number::<2>(setting_number(settings.total));
        page.put_number::<4>(settings.start);
        page.put_number::<4>(settings.tolerance);
        page.put_number::<4>(settings.penalty);
        if is_usual(settings.total) {
            return;
        }
        page.put_number::<4>(settings.total);
    }

    // Puts the whole form at the front.
    pub fn put(self, out: &mut [u8])
        requires { length (set_form self.problem.file.now) ≤ length out.old }
        ensures { out.new ≡ copied (set_form self.entry.problem.file.now) out.old }
    {
        let mut page = Page::new(out);
        self.put_settings(&mut page);
        put_section(&States { form: self }, &mut page);
        put_section(&Rows { form: self }, &mut page);
        put_section(&Outcomes { form: self }, &mut page);
    }
}

// The states: each has its estimate, the number of its rows, and whether it is a goal.
#[derive(Drop)]
struct States<'a> {
    form: Form<'a>,
}

impl<'a> Section for States<'a> {
    ghost number = { λ x. (problem_of x.form.problem.file.now).states };

    ghost text = { λ x. state_bytes (form_of x.form.problem.file.now) };

    fn count(&self) -> usize {
        layout_of(self.form.problem.file).states
    }

    fn put_item(&self, s: usize, page: &mut Page<'_>) {
        let problem = self.form.problem;
        page.put_number::<4>(estimate_of(problem.file, s));
        page.put_number::<1>(row_count_of(problem.file, s));
        page.put_number::<1>(u32::from(problem.is_goal(s)));
    }
}

// The rows: each has kind 0, its number of outcomes, its seconds.
#[derive(Drop)]
struct Rows<'a> {
    form: Form<'a>,
}

impl<'a> Section for Rows<'a> {
    ghost number = { λ x. (problem_of x.form.problem.file.now).rows };

    ghost text = { λ x. row_bytes (form_of x.form.problem.file.now) };

    fn count(&self) -> usize {
        self.form.counts.len()
    }

    fn put_item(&self, r: usize, page: &mut Page<'_>) {
        page.put_number::<1>(0);
        page.put_number::<1>(u32::from(self.form.counts[r]));
        page.put_number::<2>(seconds_of(self.form.problem.index, r));
    }
}

// The outcomes of all rows, by their codes.
#[derive(Drop)]
struct Outcomes<'a> {
    form: Form<'a>,
}

impl<'a> Section for Outcomes<'a> {
    ghost number = { λ x. length x.form.codes.now };

    ghost text = { λ x. code_as x.form.codes.now };

    fn count(&self) -> usize {
        self.form.codes.len()
    }

    fn put_item(&self, i: usize, page: &mut Page<'_>) {
        page.put_number::<4>(self.form.codes[i]);
    }
}
