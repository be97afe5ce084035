//! Laws about command lines, about lines of traces, and about what is written and served.

pub mod command_line;
pub mod ends;
pub mod fixed;
pub mod sayings;
pub mod serving;
pub mod traces;
