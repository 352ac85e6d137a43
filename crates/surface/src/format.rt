ghost use Rattle.std.specs.Prelude.{◌≡◌, ℕ, ◌≤◌, Bool};
ghost use Rattle.std.proofs.Common.{lit≤};
ghost use Rattle.surface.specs.Formats.{pixels, argb1555, p8, p4, p1};

// How pixels lie in a halfword: their width in bits, and whether they are palette indices (or else colours).
#[derive(Clone, Copy, PartialEq, Eq, Debug)]
pub struct PixelLayout {
    pub width: u32,
    pub indexed: bool,
}

// The four pixel formats, by their numbers 0 to 3.
#[derive(Clone, Copy, PartialEq, Eq, Debug)]
pub enum Format {
    Argb1555,
    P8,
    P4,
    P1,
}

// A pixel format, as a type of its own. An implementation has its two constants and no more.
pub trait PixelFormat {
    // how many bits a pixel has
    ghost WIDTH: { ℕ };

    const WIDTH: u32;

    // whether a pixel is a palette index, or else a colour
    ghost INDEXED: { Bool };

    const INDEXED: bool;

    // Both constants; no pixel is wider than a halfword.
    fn layout() -> PixelLayout
        ensures value { result ≡ pixels WIDTH INDEXED }
        ensures narrow { result.width ≤ 16 }
    {
        PixelLayout {
            width: Self::WIDTH,
            indexed: Self::INDEXED,
        }
    }

    // no pixel is wider than a halfword
    ghost narrow: { WIDTH ≤ 16 };
}

// Format 0: a pixel of 16 bits is a colour.
#[derive(Clone, Copy)]
pub struct Argb1555;

impl PixelFormat for Argb1555 {
    ghost WIDTH = { argb1555.width };

    const WIDTH: u32 = 16;

    ghost INDEXED = { argb1555.indexed };

    const INDEXED: bool = false;

    ghost narrow = { lit≤ tt };
}

// Format 1: a pixel of 8 bits is a palette index.
#[derive(Clone, Copy)]
pub struct P8;

impl PixelFormat for P8 {
    ghost WIDTH = { p8.width };

    const WIDTH: u32 = 8;

    ghost INDEXED = { p8.indexed };

    const INDEXED: bool = true;

    ghost narrow = { lit≤ tt };
}

// Format 2: a pixel of 4 bits is a palette index.
#[derive(Clone, Copy)]
pub struct P4;

impl PixelFormat for P4 {
    ghost WIDTH = { p4.width };

    const WIDTH: u32 = 4;

    ghost INDEXED = { p4.indexed };

    const INDEXED: bool = true;

    ghost narrow = { lit≤ tt };
}

// Format 3: a pixel of 1 bit is a palette index.
#[derive(Clone, Copy)]
pub struct P1;

impl PixelFormat for P1 {
    ghost WIDTH = { p1.width };

    const WIDTH: u32 = 1;

    ghost INDEXED = { p1.indexed };

    const INDEXED: bool = true;

    ghost narrow = { lit≤ tt };
}
