// Putting text and numbers into a lent buffer, one after the other: the files, tables and lines of the crates above are put by these.
#![tactic(auto)]

pub mod page;
