//! The LLDP agent: its ports, received frames, commands and shows (IEEE 802.1AB-2009, clause 9).
#![tactic(auto)]

mod agent;
mod command;
pub mod laws;
mod port;
mod show;

pub use agent::Agent;
pub use agent::configuration::Configuration;
pub use agent::event::{Event, MOST_HOLD, MOST_INTERVAL, Setting};
pub use agent::frame::Frame;
pub use agent::open_fault::OpenFault;
pub use agent::options::{
    MOST_CREDIT, MOST_FAST, MOST_NEIGHBORS, MOST_PORTS, MOST_REINIT, Options, Role,
};
pub use agent::port_names::MOST_NAME;
pub use agent::ports::Marks;
pub use agent::told::Told;
pub use command::forms::{end_words, next_port, next_word};
pub use command::{Command, Show};
pub use lldp_text::{
    CommandFault, LINE_ROOM, Line, ROOM, Words, Writer, decode_digits, encode_digits, number,
    split, split_at_bare,
};
pub use lldp_transmit::Mark;
pub use port::counters::Counters;
pub use port::status::Status;
pub use show::line::LineSink;
pub use show::lines::MOST_LINES;
