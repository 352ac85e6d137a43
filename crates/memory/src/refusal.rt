ghost use Rattle.std.specs.Prelude.{◌≡◌, Some};
ghost use Rattle.std.specs.Fmt.{decimal};
ghost use Rattle.memory.specs.Refusals.{number, refusal};

use std::error::Error;
use std::fmt;

// Why a call of the panel's software is refused. Each refusal has a number.
#[derive(Clone, Copy, PartialEq, Eq, Debug)]
pub enum Refusal {
    // a read of an odd address
    OddAddress = 1,
    // nothing at this address
    Absent = 2,
    // the block is unsound
    Unsound = 3,
    // no instruction has this code
    UnknownCode = 4,
    // a POPJ condition above 2
    BadCondition = 5,
    // a jump taken, a start or a load address is no multiple of 4
    Misaligned = 6,
    // a half-size texture of the smallest size
    HalfOfSmallest = 7,
    // a palette write while a line is begun
    LineBegun = 8,
    // a take while no line is finished
    NoneFinished = 9,
    // a take while a line is out
    LineOut = 10,
    // the lease's store is not the one out
    ForeignLease = 11,
    // space for a read out below 512 numbers
    ShortSpace = 12,
    // a layer put on a scene of 64
    SceneFull = 13,
    // a layer lifted off an empty scene
    SceneEmpty = 14,
    // a layer's field is too wide, or its address no multiple of 4
    BadField = 15,
    // the program is longer than its space
    ProgramTooLong = 16,
    // a height outside 1 to 1,024
    BadHeight = 17,
    // the program would end past the last address
    PastTop = 18,
}

impl Refusal {
    // The number that the panel shows for this refusal, from 1 to 18; no two have the same.
    #[tactic(auto, using(crate::proofs::Refusals::refusal_at_place))]
    pub fn number(self) -> u8
        ensures value { result ≡ number self }
        ensures distinct { refusal result ≡ self }
    {
        self as u8
    }
}

// A refusal is shown by its number.
impl fmt::Display for Refusal {
    ghost output = { λ r. Some (decimal (number r)) };

    fn fmt<W: fmt::Write>(&self, f: &mut fmt::Formatter<W>) -> fmt::Result {
        let number = self.number();
        write!(f, "{number}")
    }
}

impl Error for Refusal {}
