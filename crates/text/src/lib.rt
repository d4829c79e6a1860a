// Text on slices of bytes: the words of a line and the numbers among them (words.rt, numbers.rt; wanted.rt, how many), and what is written to a buffer
// (print.rt; room.rt and entries.rt, which buffers there are).
#![tactic(auto)]

#[cfg(test)]
mod clauses;
pub mod entries;
pub mod numbers;
pub mod print;
pub mod room;
#[cfg(test)]
mod tests;
pub mod wanted;
pub mod words;
