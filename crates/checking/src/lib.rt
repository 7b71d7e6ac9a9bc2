// Questions 1 to 11 of document 01 about any bytes, and the lookup of a state's rows.
// The file's numbers and the index are in `reading`.
#![tactic(auto)]

mod items;
pub mod questions;
mod sections;
