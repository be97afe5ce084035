//! The lines of show commands.

pub(crate) mod chassis_lines;
pub(crate) mod configuration_lines;
pub(crate) mod cursor;
pub(crate) mod line;
pub(crate) mod lines;
pub(crate) mod neighbor_lines;
pub(crate) mod one_line;
pub(crate) mod skip_lines;
pub(crate) mod statistics_lines;
