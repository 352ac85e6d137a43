// The random spans of the table.
use crate::table::{
    ABLITS, ATILES, BLITS, BlitFields, Span, TILES, TileFields, Told, TransformFields,
};
use memory::{Flat, Memory, Split};
use painter::{Ablit, Atile, Blit, Clip, Drawing, Painter, SpanRefusal, Tile, Transform};
use std::process::Abort;
use surface::{Palette, Reading, Source};

fn sheet() -> [u8; 40000] {
    let mut bytes = [0u8; 40000];
    for (i, byte) in bytes.iter_mut().enumerate() {
        *byte = ((i * i + 3 * i + 7) % 251) as u8;
    }
    bytes
}

// 256 colours, every third of them not opaque; the benchmark has others, in a crate that tests have nothing to do with.
fn palette() -> Palette {
    let mut palette = Palette::new();
    for index in 0..=255u8 {
        let shade = (index as u32 * 0x155 % 0x8000) as u16;
        palette.write(
            index,
            if index % 3 == 0 {
                shade
            } else {
                0x8000 + shade
            },
        );
    }
    palette
}

fn weight_of(line: &[u16; 512]) -> u64 {
    line.iter().zip(1..=512).fold(0, |sum: u64, (pixel, x)| {
        sum.wrapping_add(u64::from(*pixel).wrapping_mul(x))
    })
}

// The number, the reading, the address and the column of a refusal.
fn told_of(refused: SpanRefusal) -> (u8, Reading, u32, u16) {
    let fault = refused.fault;
    (
        fault.refusal.number(),
        fault.reading,
        fault.address,
        refused.column,
    )
}

// Draws a case on a line of 0x5555, and holds line and answer to what they must be.
fn check_case<M: Memory>(rt: &impl Abort, memory: &M, (drawing, span, weight, told): Case) {
    let (y, start, end) = span;
    let mut line = [0x5555u16; 512];
    let source = Source {
        memory,
        palette: &palette(),
    };
    let clip = Clip { start, end };
    let answer = Painter { source, clip, y }.draw(&mut line, drawing);
    assert_eq!(rt; answer.err().map(told_of), told);
    assert_eq!(rt; weight_of(&line), weight);
}

// The table has tuples, a row to a line, since a row of structs would be ten lines.
fn blit((size, poff, y0, x0, image, format): BlitFields) -> Blit {
    Blit {
        size,
        poff,
        y0,
        x0,
        image,
        format,
    }
}

fn tile((s, poff, yscroll, xscroll, tilemap, pfs, tileset, format): TileFields) -> Tile {
    Tile {
        s,
        poff,
        yscroll,
        xscroll,
        tilemap,
        pfs,
        tileset,
        format,
    }
}

fn transform((b1, b0, a01, a00, a11, a10): TransformFields) -> Transform {
    Transform {
        b1,
        b0,
        a01,
        a00,
        a11,
        a10,
    }
}

// 40,000 bytes from address 0 on, and the first 16 of them at the top.
fn memory(bytes: &[u8; 40000]) -> Split<Flat<'_>, Flat<'_>> {
    let low = Flat::new(0, bytes);
    Split::new(0x8000_0000, low, Flat::new(0xFFFF_FFF0, &bytes[0..16]))
}

// A drawing with its span, and what they must come to.
type Case = (Drawing, Span, u64, Told);

// Holds each row of a table, read as a case, to what it must come to.
fn check_rows<R: Copy, F: Fn(R) -> Case>(rt: &impl Abort, rows: &[R], case: &F)
    requires { F.IsAlwaysCallable case.now }
{
    let bytes = sheet();
    for row in rows {
        check_case(rt, &memory(&bytes), case(*row));
    }
}

#[test]
fn random_blits(rt: HostRuntime) {
    check_rows(
        &rt,
        &BLITS,
        &|(fields, span, weight, told)| { (Drawing::Blit(blit(fields)), span, weight, told) },
    );
}

#[test]
fn random_tiles(rt: HostRuntime) {
    check_rows(
        &rt,
        &TILES,
        &|(fields, span, weight, told)| { (Drawing::Tile(tile(fields)), span, weight, told) },
    );
}

#[test]
fn random_ablits(rt: HostRuntime) {
    check_rows(
        &rt,
        &ABLITS,
        &|(fields, half, turn, span, weight, told)| {
            let ablit = Ablit {
                blit: blit(fields),
                half,
                transform: transform(turn),
            };
            (Drawing::Ablit(ablit), span, weight, told)
        },
    );
}

#[test]
fn random_atiles(rt: HostRuntime) {
    check_rows(
        &rt,
        &ATILES,
        &|(fields, turn, span, weight, told)| {
            let atile = Atile {
                tile: tile(fields),
                transform: transform(turn),
            };
            (Drawing::Atile(atile), span, weight, told)
        },
    );
}
