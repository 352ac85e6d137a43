// The strip as a picture.
use crate::strip;
use memory::Card;
use painter::SpanRefusal;
use std::io;
use surface::rgb;

// Each pixel of the strip is so many dots wide and high.
const ZOOM: usize = 8;

// One row of dots: red, green and blue of each, 0 to 31.
fn write_row(rt: &HostRuntime, line: &[u16; 512]) -> io::Result<()> {
    for pixel in line.iter().take(strip::COLUMNS) {
        let (red, green, blue) = rgb(*pixel);
        for _ in 0..ZOOM {
            println!(rt; "{red} {green} {blue}")?;
        }
    }
    Ok(())
}

// Writes a PPM picture; where a line is refused it shows what was painted.
pub(crate) fn write(rt: &HostRuntime, card: &Card) -> anyhow::Result<()> {
    rt.println("P3 512 64 31")?;
    for y in 0..strip::LINES {
        let mut line = [0u16; 512];
        if let Err(refused) = strip::paint_line(&mut line, y, card) {
            let SpanRefusal { column, fault } = refused;
            let refusal = fault.refusal;
            eprintln!(rt; "line {y}: refused {refusal} at column {column}")?;
        }
        for _ in 0..ZOOM {
            write_row(rt, &line)?;
        }
    }
    Ok(())
}
