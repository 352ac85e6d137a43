// The strip as text.
use crate::strip;
use memory::Card;
use std::alloc::{AllocError, Global};
use std::io;

// Which letter stands for a pixel.
fn letter(pixel: u16) -> char {
    match pixel {
        strip::NIGHT => '.',
        strip::YELLOW => 'Y',
        strip::RED => 'R',
        _ => '?',
    }
}

fn letters(heap: Global, line: &[u16; 512]) -> Result<String, AllocError> {
    line.iter()
        .take(strip::COLUMNS)
        .map(|pixel| letter(*pixel))
        .collect(heap)
}

// The pixels of the last stop of zone 1 and the first of zone 2.
fn print_pixels(rt: &HostRuntime, line: &[u16; 512]) -> io::Result<()> {
    rt.print("columns 24 to 39:")?;
    for pixel in &line[24..40] {
        print!(rt; " {pixel:04X}")?;
    }
    rt.println("")
}

// Each line of the strip, a letter for each pixel, and a refusal behind it if there is one.
pub(crate) fn print(rt: &HostRuntime, path: &str, card: &Card) -> anyhow::Result<()> {
    let blocks = card.blocks();
    let sound = card.sound_blocks();
    println!(rt; "{path}: {blocks} blocks, {sound} sound")?;
    for y in 0..strip::LINES {
        let mut line = [0u16; 512];
        let answer = strip::paint_line(&mut line, y, card);
        let text = letters(rt.alloc(), &line)?;
        print!(rt; "line {y}: {text}")?;
        match answer {
            Ok(()) => rt.println("")?,
            Err(refused) => println!(rt; " {refused}")?,
        }
        if y == 3 {
            print_pixels(rt, &line)?;
        }
    }
    Ok(())
}
