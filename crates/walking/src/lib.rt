// The walk from the start with the picks as they are, and the least cost of the picks on it.
#![tactic(auto)]

pub mod entered;
pub mod least;
mod picked;
pub mod walk;
