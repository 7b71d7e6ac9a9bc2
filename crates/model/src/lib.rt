// The answers and the limits of document 01. What they mean is in specs/.
#![tactic(auto)]

ghost use Rattle.std.specs.Prelude.{◌≡◌, pos};

// The numbers of document 01, each under the name that specs/Limits.antt gives it.

// The largest problem: section counts that question 2 lets through.
pub const MIN_SETTINGS: u32 = 3;

pub const MAX_SETTINGS: u32 = 4;

pub const MAX_STATES: usize = 2048;

pub const MAX_ROWS: usize = 8192;

pub const MAX_OUTCOMES: usize = 16384;

// Tolerance in ticks, penalty in seconds.
pub const MAX_TOLERANCE: u32 = 999;

pub const MAX_PENALTY: u32 = 400000;

pub const TICKS_PER_SECOND: u32 = 1000;

// The weight totals that the fourth setting may name; where there is none it is THOUSANDTHS.
pub const HUNDREDTHS: u32 = 100;

pub const THOUSANDTHS: u32 = 1000;

pub const TWELVE_BITS: u32 = 4096;

pub const TEN_THOUSANDTHS: u32 = 10000;

pub const WEIGHT_TOTALS: [u32; 4] = [HUNDREDTHS, THOUSANDTHS, TWELVE_BITS, TEN_THOUSANDTHS];

// Melt rates in tenths of a millimetre per minute.
pub const MIN_RATE: u32 = 10;

pub const MAX_RATE: u32 = 1000;

// What a millimetre takes at rate 1, and the stick lengths of the printed sheets, in millimetres.
pub const MILLIMETRE_SECONDS: u64 = 600;

pub const STICKS: usize = 4;

pub const STICK_LENGTHS: [u32; STICKS] = [250, 500, 550, 1000];

// Picks that are no rows, and the end of a walk list.
pub const GIVE_UP: u16 = 65535;

pub const NO_PICK: u16 = 65534;

pub const LIST_END: u16 = 65535;

pub const MAX_BUDGET: u64 = 2000000000000000;

// "The program `plan` .. runs up to 1,000,000 rounds."
pub const PLAN_ROUNDS: u64 = 1000000;

// A report is taken below so many moves and up to so many seconds of a shift.
pub const MAX_MOVES: u64 = 1000000;

pub const MAX_SPENT: u64 = 400000000000;

// The longest first line of `plan` and line of `audit`.
pub const LINE_MOST: usize = 73;

// "`plan` holds 65,536 bytes"
pub const PLAN_HOLDS: usize = 65536;

// The longest file that passes: four counts, and each section full.
pub const LONGEST_FILE: usize = 8
    + 4 * (MAX_SETTINGS as usize)
    + 6 * MAX_STATES
    + 4 * MAX_ROWS
    + 4 * MAX_OUTCOMES;

// The questions of the papers, each under its number. What they ask stands in specs/: Questions, Solution, Audit, Following, Buffers.
#[derive(Clone, Copy, PartialEq, Eq)]
pub enum Question {
    Whole = 1,
    Count = 2,
    End = 3,
    Setting = 4,
    State = 5,
    Start = 6,
    RowNumbers = 7,
    Row = 8,
    OutcomeNumbers = 9,
    Outcomes = 10,
    Estimate = 11,
    RunTables = 12,
    Budget = 13,
    AuditTables = 15,
    Bounds = 16,
    Undercut = 17,
    Stray = 18,
    Slack = 19,
    Underway = 20,
    Shift = 21,
    Outcome = 22,
    Room = 23,
    WeightTotal = 24,
    Input = 25,
}

impl Question {
    ghost use Rattle.model.specs.Answers.{number_of};

    // The refusal by this question, with its place.
    pub fn at(self, place: u32) -> Refusal
        ensures { result ≡ record { question = self; place = place } }
    {
        Refusal {
            question: self,
            place,
        }
    }

    // The number of the question.
    pub fn number(self) -> u8
        ensures { result ≡ number_of self }
    {
        self as u8
    }
}

// "A no ends the call with the number and a place".
#[derive(Clone, Copy, PartialEq, Eq)]
pub struct Refusal {
    pub question: Question,
    pub place: u32,
}

// A refusal of the audit, of an opening or of a report: "The audit's refusals carry an excess".
#[derive(Clone, Copy, PartialEq, Eq)]
pub struct AuditRefusal {
    pub question: Question,
    pub place: u32,
    pub excess: i64,
}

// A refusal of the file is one of the audit, whose excess is "0 elsewhere".
impl From<Refusal> for AuditRefusal {
    ghost from_gives = { λ r a. a ≡ record { question = r.question; place = r.place; excess = pos 0 } };

    fn from(refusal: Refusal) -> AuditRefusal {
        AuditRefusal {
            question: refusal.question,
            place: refusal.place,
            excess: 0,
        }
    }
}

// Which run: the plain one ends with a quiet round, the finishing one goes on from there, to the tick.
#[derive(Clone, Copy, PartialEq, Eq)]
pub enum Kind {
    Plain,
    Finishing,
}

// What a run counts: rounds done, evaluations, and C, 0 if spent.
#[derive(Clone, Copy)]
pub struct Counts {
    pub rounds: u64,
    pub evaluations: u64,
    pub least: u32,
}

// How a run ended, and what it counted.
#[derive(Clone, Copy)]
pub enum Ended {
    Solved(Counts),
    Spent(Counts),
}

// The record of a shift: the state it is in, the moves made and the seconds spent, and its mark: 0 clear, anything else set. It is the
// struct of the C interface.
#[repr(C)]
#[derive(Clone, Copy)]
pub struct Follower {
    pub state: u64,
    pub moves: u64,
    pub seconds: u64,
    pub mark: u64,
}
