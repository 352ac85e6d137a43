// What the program prints.
use crate::panel::Answer;
use script::ScriptError;
use std::io;

// One line for a line of the script, or none where that has no command.
pub(crate) fn outcome(
    rt: &HostRuntime,
    number: u64,
    outcome: Result<Option<Answer>, ScriptError>,
) -> io::Result<()> {
    match outcome {
        Ok(Some(answer)) => println!(rt; "{answer}"),
        Ok(None) => Ok(()),
        Err(error) => println!(rt; "script error: line {number}: {error}"),
    }
}
