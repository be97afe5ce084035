//! Laws: how values are written, how lines are split, and that no two neighbors are shown alike.
pub mod alike;
pub mod forms;
pub mod words;
