// Draws the zone marks of a bus line's stops from a card: the tile map and the tiles are the card's, the colours are
// set here. With --picture it writes a picture instead.
#![tactic(auto)]

mod help;
mod picture;
mod strip;
mod text;

use anyhow::anyhow;
use help::HELP;
use memory::Card;
use std::{env, fs};

fn main(rt: HostRuntime) -> anyhow::Result<()> {
    start(&rt)
}

fn start(rt: &HostRuntime) -> anyhow::Result<()> {
    let mut arguments = env::args(rt)?.skip(1);
    let Some(first) = arguments.next() else {
        rt.eprint(HELP)?;
        return Err(anyhow!("zone_strip needs a card"));
    };
    match first.as_str() {
        "--help" | "-h" => Ok(rt.print(HELP)?),
        "--picture" => {
            let path = arguments
                .next()
                .ok_or_else(|| anyhow!("--picture needs a card"))?;
            picture::write(rt, &read_card(rt, path.as_str())?)
        }
        path => {
            text::print(rt, path, &read_card(rt, path)?)?;
            for path in arguments {
                text::print(rt, path.as_str(), &read_card(rt, path.as_str())?)?;
            }
            Ok(())
        }
    }
}

// The card of a file, shown from address 0 on.
fn read_card(rt: &HostRuntime, path: &str) -> anyhow::Result<Card> {
    Ok(Card::new(0, fs::read(rt, path)?))
}
