// The frame memory (UMEM): frames, addresses, descriptors and packet lengths; why a call is refused, and why a packet is
// lost.
#![tactic(auto)]

pub mod cause;
pub mod descriptor;
pub mod frames;
pub mod refusal;
#[cfg(test)]
mod tests;
