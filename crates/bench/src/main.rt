// Draws many spans of each drawing and prints columns per second: bench SPANS. With no argument it draws a few spans and
// prints what they came to.
#![tactic(auto)]

mod jobs;
mod report;
mod sheet;

use memory::{Card, Flat};
use std::env;
use surface::Source;

fn main(rt: HostRuntime) -> anyhow::Result<()> {
    start(&rt)
}

fn start(rt: &HostRuntime) -> anyhow::Result<()> {
    let mut arguments = env::args(rt)?.skip(1);
    let bytes = sheet::bytes(rt.alloc())?;
    let palette = sheet::palette();
    let flat = Source {
        memory: &Flat::new(0, bytes.as_slice()),
        palette: &palette,
    };
    let card = Source {
        memory: &Card::new(0, sheet::card_file(rt.alloc(), bytes.as_slice())?),
        palette: &palette,
    };
    match arguments.next() {
        Some(word) => {
            let spans = word.as_str().parse::<u32>()?;
            report::time_all(rt, "flat memory", flat, spans)?;
            report::time_all(rt, "a card", card, spans)
        }
        None => {
            report::check_all(rt, "flat memory", flat)?;
            report::check_all(rt, "a card", card)
        }
    }
}
