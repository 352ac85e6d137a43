ghost use Rattle.std.specs.Prelude.{Some};
ghost use Rattle.surface.specs.Faults.{reading_text, fault_text};

use memory::Refusal;
use std::error::Error;
use std::fmt;

// What a surface was reading when a memory refused.
#[derive(Clone, Copy, PartialEq, Eq, Debug)]
pub enum Reading {
    TileIndex,
    Pixel,
}

impl fmt::Display for Reading {
    ghost output = { λ reading. Some (reading_text reading) };

    fn fmt<W: fmt::Write>(&self, f: &mut fmt::Formatter<W>) -> fmt::Result {
        f.write_str(match self {
            Reading::TileIndex => "tile index",
            Reading::Pixel => "pixel",
        })
    }
}

// A memory's refusal, with what was read and the address read.
#[derive(Clone, Copy, PartialEq, Eq, Debug)]
pub struct Fault {
    pub refusal: Refusal,
    pub reading: Reading,
    pub address: u32,
}

impl fmt::Display for Fault {
    ghost output = { λ fault. Some (fault_text fault) };

    fn fmt<W: fmt::Write>(&self, f: &mut fmt::Formatter<W>) -> fmt::Result {
        let Fault {
            refusal,
            reading,
            address,
        } = *self;
        write!(f, "refused {refusal}, reading {reading} 0x{address:08X}")
    }
}

impl Error for Fault {}
