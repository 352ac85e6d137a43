// Scripts for the panel program: a line is read into a command.
#![tactic(auto)]

mod bytes;
mod commands;
mod errors;
mod numbers;
mod pieces;
#[cfg(test)]
mod tests;

pub use commands::{Command, parse};
pub use errors::ScriptError;
