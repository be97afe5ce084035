//! The verified reader, transmit machine and agent, for C and for languages that call C.
//!
//! The exported functions call other crates of lldpa, and restate the contracts of those crates.
//! `lldpa.h` documents the functions.
#![tactic(auto)]

mod aged;
mod agent;
mod answer;
mod bodies;
mod build;
mod callers;
mod chassis;
mod command;
mod due;
mod examine;
mod faults;
mod frame;
mod frame_of;
mod giving;
mod handle;
mod held;
mod holder;
mod kept;
pub mod laws;
mod leaving;
mod lines;
mod machine;
mod marks;
mod news;
mod open;
mod options;
mod place;
mod settings;
mod still;
mod texts;
mod ticks;
mod values;
