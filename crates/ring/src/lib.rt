// A ring over a caller's slice of entries, with marks of 32 bits that wrap, as AF_XDP has them.
#![tactic(auto)]

pub mod marks;
pub mod naming;
pub mod rings;
pub mod sizes;

pub use naming::NamesFrame;
pub use rings::Ring;
pub use sizes::size_for;
