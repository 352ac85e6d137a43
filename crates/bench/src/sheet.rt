// What the benchmark draws from.
use memory::seal;
use std::alloc::{AllocError, Global};
use surface::Palette;

// How many blocks the card has; their data are the sheet.
const BLOCKS: u32 = 2081;

// Bytes that look random: each is the top byte of a number that is multiplied and added to again and again.
pub(crate) fn bytes(heap: Global) -> Result<Vec<u8>, AllocError> {
    let mut bytes = Vec::new(heap);
    let mut number: u32 = 1;
    for _ in 0..BLOCKS * 504 {
        number = number.wrapping_mul(1_664_525).wrapping_add(1_013_904_223);
        bytes.push((number / 0x100_0000) as u8)?;
    }
    Ok(bytes)
}

// The block of these data, with as many zeros as are missing.
fn block(number: u32, part: &[u8]) -> [u8; 512] {
    let mut payload = [0u8; 504];
    let n = part.len().min(504);
    payload[..n].copy_from_slice(&part[..n]);
    seal(number, &payload)
}

// A card file whose data are these bytes.
pub(crate) fn card_file(heap: Global, bytes: &[u8]) -> Result<Vec<u8>, AllocError> {
    let mut file = Vec::new(heap);
    for (part, number) in bytes.chunks(504).zip(0..BLOCKS) {
        file.extend_from_slice(&block(number, part))?;
    }
    Ok(file)
}

// 256 colours, every fourth of them not opaque; the tests have others, in a crate that this program has nothing to do with.
pub(crate) fn palette() -> Palette {
    let mut palette = Palette::new();
    for index in 0..=255u8 {
        let shade = index as u16 * 0x71 % 0x8000;
        let colour = if index % 4 == 3 {
            shade
        } else {
            0x8000 + shade
        };
        palette.write(index, colour);
    }
    palette
}
