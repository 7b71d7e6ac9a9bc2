// What the programs print, what stands in their table files, and their messages. Text is put at the front of a lent buffer, as far as it
// fits, and the rest of the buffer stays.
#![tactic(auto)]

mod decimals;
pub mod lines;
pub mod messages;
pub mod refusals;
pub mod sheets;
pub mod table_files;
