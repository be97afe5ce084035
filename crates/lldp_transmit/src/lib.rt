//! The transmit machine, which decides when a port sends (IEEE 802.1AB-2009, clause 9). No call
//! allocates memory, and no event is refused.
//!
//! A machine receives the events of its port one by one and returns the frame to send. By the
//! definitions, it depends on all events so far: an ordinary frame is sent exactly if one is due
//! and the window is open, a shutdown frame exactly if an active port may no longer transmit.
#![tactic(auto)]

mod event;
pub mod laws;
mod limits;
mod machine;
mod parts;

pub use event::{Cause, Mark};
pub use limits::{MOST_CREDIT, MOST_FAST, MOST_REINIT};
pub use machine::Transmit;
pub use parts::Parts;
