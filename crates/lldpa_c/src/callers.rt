//! Calls the exported functions as a program does. Nothing uses these callers: they show that the contracts of the
//! exported functions tell what the contracts below them tell, and that nothing else is written.

mod asking;
mod machines;
mod opening;
mod passing;
mod reading;
mod showing;
mod uses;
mod writing;
