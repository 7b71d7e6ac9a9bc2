// "Rounds of the solver" of document 01: the round, the run, and questions 12 and 13.
// The caller's file and tables are used where they lie; the index of the file is made once a call.
#![tactic(auto)]

mod lent;
mod run;
pub mod solve;

// The tables that a caller lends: values and picks per state, what each row remembers, and the walk list.
#[derive(Drop)]
pub struct Tables<'a> {
    pub values: &'a mut [u32],
    pub picks: &'a mut [u16],
    pub remembered: &'a mut [u32],
    pub walk: &'a mut [u16],
}
