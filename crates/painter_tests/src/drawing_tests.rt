// Spans on a line: clips, refusals, and drawings that paint alike.
use crate::shapes::blit;
use memory::{Flat, Refusal};
use painter::{Ablit, Blit, Clip, Drawing, Fill, Painter, SpanRefusal, Transform};
use std::test::Fail;
use surface::{Fault, Palette, Reading, Source};

const PINK: u16 = 0x7C1F;

// How many columns of a line are pink, and the first of them.
fn pink(line: &[u16; 512]) -> (usize, Option<usize>) {
    let count = line.iter().filter(|pixel| **pixel == PINK).count();
    (count, line.iter().position(|pixel| *pixel == PINK))
}

fn fill_clip(start: u16, end: u16) -> (usize, Option<usize>) {
    let mut line = [0u16; 512];
    let source = Source {
        memory: &Flat::new(0, &[]),
        palette: &Palette::new(),
    };
    let clip = Clip { start, end };
    let _ = Painter { source, clip, y: 0 }.draw(&mut line, Drawing::Fill(Fill { colour: PINK }));
    pink(&line)
}

#[test]
fn clips_have_both_ends(rt: HostRuntime) {
    assert_eq!(rt; fill_clip(0, 511), (512, Some(0)));
    assert_eq!(rt; fill_clip(5, 4), (0, None));
    assert_eq!(rt; fill_clip(5, 5), (1, Some(5)));
    assert_eq!(rt; fill_clip(511, 1023), (1, Some(511)));
    assert_eq!(rt; fill_clip(512, 1023), (0, None));
    assert_eq!(rt; fill_clip(65535, 65535), (0, None));
}

// Draws on a whole line, line 0, over bytes from address 0, under a palette whose colour 1 is pink.
fn draw_over(bytes: &[u8], drawing: Drawing) -> ([u16; 512], Result<(), SpanRefusal>) {
    let mut line = [9u16; 512];
    let mut palette = Palette::new();
    palette.write(1, 0x8000 + PINK);
    let source = Source {
        memory: &Flat::new(0, bytes),
        palette: &palette,
    };
    let clip = Clip { start: 0, end: 511 };
    let answer = Painter { source, clip, y: 0 }.draw(&mut line, drawing);
    (line, answer)
}

// At x0 = 1020 the columns 0 to 3 show the pixels 4 to 7.
#[test]
fn a_wrapped_blit_shows_its_right_half(rt: HostRuntime) {
    let (line, answer) = draw_over(&[0, 0, 0x11, 0x10], Drawing::Blit(blit(1020, 0)));
    assert!(rt; answer.is_ok());
    assert_eq!(rt;
        (line[0], line[1], line[2], line[3], line[4]),
        (PINK, PINK, 9, PINK, 9)
    );
}

// Of four halfwords the third is missing: columns 0 to 7 are painted, column 8 is refused, the rest is as it was.
#[test]
fn a_refusal_keeps_what_is_painted(rt: HostRuntime) {
    let wide = Blit {
        size: 1,
        ..blit(0, 0)
    };
    let (line, answer) = draw_over(&[0x11, 0x11, 0x11, 0x11, 0x11], Drawing::Blit(wide));
    assert_eq!(rt; pink(&line), (8, Some(0)));
    assert_eq!(rt; line[8], 9);
    let fault = Fault {
        refusal: Refusal::Absent,
        reading: Reading::Pixel,
        address: 4,
    };
    assert_eq!(rt; answer, Err(SpanRefusal { column: 8, fault }));
    assert_eq!(rt; fault.refusal.number(), 2);
}

#[test]
fn a_refusal_says_what_was_read(rt: HostRuntime) -> Result<(), Fail> {
    let pixel = Fault {
        refusal: Refusal::Unsound,
        reading: Reading::Pixel,
        address: 0x20,
    };
    let tile_index = Fault {
        refusal: Refusal::Absent,
        reading: Reading::TileIndex,
        address: 0xFFFF_FFFE,
    };
    let refused = SpanRefusal {
        column: 511,
        fault: tile_index,
    };
    let text = format!(in rt.alloc(); "{pixel}; {refused}")?;
    assert_eq!(rt;
        text.as_str(),
        "refused 3, reading pixel 0x00000020; refused 2, reading tile index 0xFFFFFFFE, column 511"
    );
    Ok(())
}

// The image is absent, but no column of it is in the clip.
#[test]
fn what_is_not_in_the_span_is_not_needed(rt: HostRuntime) {
    let (line, answer) = draw_over(&[], Drawing::Blit(blit(512, 0)));
    assert!(rt; answer.is_ok());
    assert_eq!(rt; pink(&line), (0, None));
}

#[test]
fn with_the_identity_an_ablit_paints_as_its_blit(rt: HostRuntime) {
    let bytes = [0x10, 0x01, 0x11, 0x00];
    let ablit = Ablit {
        blit: blit(1020, 0),
        half: false,
        transform: Transform::identity(),
    };
    let (plain, _) = draw_over(&bytes, Drawing::Blit(blit(1020, 0)));
    let (turned, _) = draw_over(&bytes, Drawing::Ablit(ablit));
    assert!(rt; plain == turned);
}
