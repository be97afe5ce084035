//! Tests of the other crates through their public calls. They are in a crate of their own, since a
//! crate with tests is proved twice: with them and without.
#![tactic(auto)]

#[cfg(test)]
mod engine;
#[cfg(test)]
mod pdu;
#[cfg(test)]
mod program;
#[cfg(test)]
mod table;
#[cfg(test)]
mod transmit;
