// What the lines of `plan` and `audit` tell of a refusal: the number of its question, its place and its excess.
ghost use Rattle.std.specs.Prelude.{◌≡◌, ℕ, ℤ};
ghost use Rattle.printing.specs.Refusals.{question_in, place_in, no_excess_in, audit_question_in, audit_place_in, audit_excess_in};
ghost use Rattle.printing.specs.Refusals.{own_question, own_place, own_excess};

use model::{AuditRefusal, Refusal};

// A refusal that a line tells.
pub trait Refused: Copy {
    ghost question_of: { Self → ℕ };

    ghost place_of: { Self → ℕ };

    ghost excess_of: { Self → ℤ };

    fn question(self) -> u8
        ensures { result ≡ question_of self };

    fn place(self) -> u32
        ensures { result ≡ place_of self };

    fn excess(self) -> i64
        ensures { result ≡ excess_of self };
}

// A refusal of the file or of the run, whose excess is 0.
impl Refused for Refusal {
    ghost question_of = { question_in };

    ghost place_of = { place_in };

    ghost excess_of = { no_excess_in };

    fn question(self) -> u8 {
        self.question.number()
    }

    fn place(self) -> u32 {
        self.place
    }

    fn excess(self) -> i64 {
        0
    }
}

// A refusal of the audit.
impl Refused for AuditRefusal {
    ghost question_of = { audit_question_in };

    ghost place_of = { audit_place_in };

    ghost excess_of = { audit_excess_in };

    fn question(self) -> u8 {
        self.question.number()
    }

    fn place(self) -> u32 {
        self.place
    }

    fn excess(self) -> i64 {
        self.excess
    }
}

// A refusal by any number, which need not be that of a question: the lines take as many as they did.
#[derive(Clone, Copy)]
pub struct Numbers {
    pub question: u8,
    pub place: u32,
    pub excess: i64,
}

impl Refused for Numbers {
    ghost question_of = { own_question };

    ghost place_of = { own_place };

    ghost excess_of = { own_excess };

    fn question(self) -> u8 {
        self.question
    }

    fn place(self) -> u32 {
        self.place
    }

    fn excess(self) -> i64 {
        self.excess
    }
}
