// The problem file of document 01: its numbers, where its sections lie, settings, states, the index, the row value.
// The caller's bytes are read where they lie.
#![tactic(auto)]

pub mod entries;
pub mod index;
pub mod layout;
pub mod numbers;
pub mod outcomes;
pub mod picks;
pub mod problem;
pub mod settings;
pub mod states;
pub mod value;
