//! The program without its `main`: it reads arguments and a trace, and writes frames and shows.
#![tactic(auto)]

pub mod acceptor;
mod addresses;
pub mod arguments;
mod buffer;
pub mod device;
pub mod fault;
mod help;
pub mod laws;
pub mod line;
mod output;
pub mod program;
pub mod serve;
pub mod trace;
