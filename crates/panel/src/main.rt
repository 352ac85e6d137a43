// Reads a script from standard input, one command a line, and prints what each command came to.
#![tactic(auto)]

ghost use Rattle.std.specs.Prelude.{◌≡◌, OnErr};

mod files;
mod help;
mod lines;
mod panel;
mod print;
mod ram;
#[cfg(test)]
mod tests;

use anyhow::anyhow;
use help::HELP;
use panel::{Answer, Panel};
use script::ScriptError;
use std::io::{BufRead, BufReader};
use std::{env, io};

fn main(rt: HostRuntime) -> anyhow::Result<()> {
    start(&rt)
}

// With no argument runs the script; with --help alone prints the help.
fn start(rt: &HostRuntime) -> anyhow::Result<()> {
    let mut arguments = env::args(rt)?.skip(1);
    let Some(word) = arguments.next() else {
        return Ok(run(rt)?);
    };
    if !is_help(word.as_str()) || arguments.next().is_some() {
        rt.eprint(HELP)?;
        return Err(anyhow!("panel takes no argument but --help"));
    }
    Ok(rt.print(HELP)?)
}

fn is_help(word: &str) -> bool {
    matches!(word, "--help" | "-h")
}

// Runs the script on standard input. Where there is no memory for a buffer, it is read without one.
fn run(rt: &HostRuntime) -> io::Result<()> {
    match BufReader::new(rt.alloc(), rt.stdin()) {
        Ok(mut input) => obey_lines(rt, &mut input),
        Err(_) => obey_lines(rt, &mut rt.reader()),
    }
}

// Carries the lines out, one after the other.
fn obey_lines(rt: &HostRuntime, input: &mut impl BufRead) -> io::Result<()> {
    let heap = rt.alloc();
    let mut panel = Panel::new(heap);
    let mut line = Vec::new(heap);
    for number in 1..u64::MAX {
        line.clear();
        match input.read_until(b'\n', &mut line) {
            Ok(0) => break,
            Ok(_) => print::outcome(rt, number, obey(rt, &mut panel, line.as_slice()))?,
            Err(error) if error.kind() == io::ErrorKind::OutOfMemory => {
                print::outcome(rt, number, Err(error.into()))?;
                lines::skip_line(input)?;
            }
            Err(error) => return Err(error),
        }
    }
    Ok(())
}

// Carries one line out; a line with no command has no answer.
fn obey(rt: &HostRuntime, panel: &mut Panel, line: &[u8]) -> Result<Option<Answer>, ScriptError>
    ensures { OnErr result (panel.new ≡ panel.old) }
{
    let Some(command) = script::parse(rt.alloc(), lines::without_line_feed(line))? else {
        return Ok(None);
    };
    let answer = panel.carry_out(rt, command)?;
    Ok(Some(answer))
}
