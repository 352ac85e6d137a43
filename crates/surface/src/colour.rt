// A colour is a halfword: bit 15 says opaque, bits 14 to 10 are red, 9 to 5 green, 4 to 0 blue.
ghost use Rattle.std.specs.Prelude.{◌≡◌};
ghost use Rattle.surface.specs.Colours.{opaque, red, green, blue};

// Whether a colour paints at all.
pub fn is_opaque(colour: u16) -> bool
    ensures { result ≡ opaque colour }
{
    colour / 0x8000 == 1
}

// The red, green and blue of a colour, 0 to 31 each.
pub fn rgb(colour: u16) -> (u8, u8, u8)
    ensures { result ≡ (red colour, green colour, blue colour) }
{
    (
        (colour / 0x400 % 32) as u8,
        (colour / 0x20 % 32) as u8,
        (colour % 32) as u8,
    )
}
