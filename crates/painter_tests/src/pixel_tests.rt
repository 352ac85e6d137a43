// Pixels, palettes and the places of surfaces.
use memory::Flat;
use std::marker::PhantomData;
use surface::{
    Argb1555, Image, P1, P4, P8, Palette, Plain, Source, Surface, TileField, is_opaque, rgb, unpack,
};

#[test]
fn pixels_come_low_bits_first(rt: HostRuntime) {
    for k in 0..4 {
        assert_eq!(rt; unpack::<P4>(0x4321, k), (k as u16).wrapping_add(1));
    }
    assert_eq!(rt; unpack::<P8>(0x4321, 0), 0x21);
    assert_eq!(rt; unpack::<P8>(0x4321, 1), 0x43);
    assert_eq!(rt; unpack::<P1>(0x4321, 0), 1);
    assert_eq!(rt; unpack::<P1>(0x4321, 1), 0);
    assert_eq!(rt; unpack::<P1>(0x8000, 15), 1);
    assert_eq!(rt; unpack::<Argb1555>(0x4321, 7), 0x4321);
}

#[test]
fn any_pixel_number_will_do(rt: HostRuntime) {
    assert_eq!(rt; unpack::<P4>(0x4321, 0xFFFF_FFFF), 4);
    assert_eq!(rt; unpack::<P8>(0x4321, 0xFFFF_FFFF), 0x43);
    assert_eq!(rt; unpack::<Argb1555>(0x4321, 0xFFFF_FFFF), 0x4321);
}

#[test]
fn colours_are_five_bits_each(rt: HostRuntime) {
    assert_eq!(rt; rgb(0xFC00), (31, 0, 0));
    assert_eq!(rt; rgb(0x03E0), (0, 31, 0));
    assert_eq!(rt; rgb(0x8041), (0, 2, 1));
    assert!(rt; is_opaque(0x8000) && !is_opaque(0x7FFF));
}

// The colour at a place, or the refusal's number, as the documents have it, and the address.
fn colour_at<S: Surface>(
    surface: &S,
    at: (u16, u16),
    bytes: &[u8],
    base: u32,
) -> Result<u16, (u8, u32)> {
    let mut palette = Palette::new();
    palette.write(1, 0x8001);
    palette.write(2, 0x0002);
    palette.write(0xE1, 0x8111);
    palette.write(0xDF, 0x8222);
    let source = Source {
        memory: &Flat::new(base, bytes),
        palette: &palette,
    };
    surface
        .colour(at, &source)
        .map_err(|fault| (fault.refusal.number(), fault.address))
}

fn image<F>(image: u32, poff: u8) -> Image<F> {
    Image {
        image,
        size: 0,
        half: false,
        poff,
        format: PhantomData,
    }
}

#[test]
fn opacity_is_the_palettes(rt: HostRuntime) {
    let sheet = image::<P4>(0, 0);
    assert_eq!(rt; colour_at(&sheet, (0, 0), &[0x21, 0], 0), Ok(0x8001));
    assert_eq!(rt; colour_at(&sheet, (1, 0), &[0x21, 0], 0), Ok(0x0002));
}

#[test]
fn palette_offsets_wrap(rt: HostRuntime) {
    assert_eq!(rt;
        colour_at(&image::<P8>(0, 7), (0, 0), &[0x01, 0], 0),
        Ok(0x8111)
    );
    assert_eq!(rt;
        colour_at(&image::<P8>(0, 7), (0, 0), &[0x21, 0], 0),
        Ok(0x8001)
    );
    assert_eq!(rt;
        colour_at(&image::<P8>(0, 1), (0, 0), &[0xBF, 0], 0),
        Ok(0x8222)
    );
}

#[test]
fn places_are_folded_into_the_side(rt: HostRuntime) {
    let sheet = image::<P4>(0, 0);
    assert_eq!(rt; colour_at(&sheet, (8, 1016), &[0x21, 0], 0), Ok(0x8001));
    assert_eq!(rt;
        colour_at(&sheet, (1023, 0), &[0, 0, 0, 0x10], 0),
        Ok(0x8001)
    );
    assert_eq!(rt;
        colour_at(&Plain { colour: 0xFFFF }, (9, 9), &[], 0),
        Ok(0xFFFF)
    );
    assert_eq!(rt;
        colour_at(&Plain { colour: 0x0003 }, (0, 0), &[], 0),
        Ok(0x8003)
    );
}

// Pixel 4 of an image at 0xFFFFFFFE is at address 0.
#[test]
fn images_go_round_the_top(rt: HostRuntime) {
    let sheet = image::<P4>(0xFFFF_FFFE, 0);
    assert_eq!(rt; colour_at(&sheet, (4, 0), &[0x01, 0], 0), Ok(0x8001));
    assert_eq!(rt;
        colour_at(&sheet, (3, 0), &[0x01, 0], 0),
        Err((2, 0xFFFF_FFFE))
    );
    assert_eq!(rt;
        colour_at(&sheet, (0, 0), &[0x01, 0], 0xFFFF_FFFE),
        Ok(0x8001)
    );
    assert_eq!(rt;
        colour_at(&image::<P4>(1, 0), (0, 0), &[0x01, 0], 0),
        Err((1, 1))
    );
}

fn field(tilemap: u32, tileset: u32) -> TileField<P4> {
    TileField {
        tilemap,
        tileset,
        s: 0,
        pfs: 0,
        poff: 0,
        format: PhantomData,
    }
}

// The bytes are tile indices 0 and 1, then tiles of 32 bytes from address 4.
#[test]
fn tile_indices_stand_at_odd_addresses_too(rt: HostRuntime) {
    let mut bytes = [0u8; 68];
    bytes[1] = 1;
    bytes[36] = 0x01;
    assert_eq!(rt; colour_at(&field(0, 4), (8, 0), &bytes, 0), Ok(0x8001));
    assert_eq!(rt; colour_at(&field(1, 4), (0, 0), &bytes, 0), Ok(0x8001));
    assert_eq!(rt; colour_at(&field(0, 4), (0, 0), &bytes, 0), Ok(0));
}

// A tile map at the top goes on at address 0; the address told is that of the halfword around the index.
#[test]
fn tile_maps_go_round_the_top(rt: HostRuntime) {
    let mut bytes = [0u8; 68];
    bytes[0] = 1;
    bytes[36] = 0x01;
    assert_eq!(rt;
        colour_at(&field(0xFFFF_FFFF, 4), (8, 0), &bytes, 0),
        Ok(0x8001)
    );
    assert_eq!(rt;
        colour_at(&field(0xFFFF_FFFF, 4), (0, 0), &bytes, 0),
        Err((2, 0xFFFF_FFFE))
    );
    assert_eq!(rt;
        colour_at(&field(0, 0x40), (0, 0), &bytes, 0),
        Err((2, 0x60))
    );
}
