// What a frame carries, as eight bytes from a table of words: traffic.rt has combinations 1 and 2, control.rt 4 to 7; unpack.rt makes the enum
// of the bytes.
#![tactic(auto)]

pub mod control;
pub mod traffic;
pub mod unpack;
