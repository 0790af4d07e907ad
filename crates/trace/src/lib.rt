// Trace files: a count, a table of offsets and lengths, and the records.
#![tactic(auto)]

pub mod layout;
pub mod pairs;
pub mod recording;
#[cfg(test)]
mod tests;
pub mod traces;
mod words;
mod writing;

pub use layout::Record;
pub use pairs::Pair;
pub use recording::Recording;
pub use traces::{Records, Trace};
