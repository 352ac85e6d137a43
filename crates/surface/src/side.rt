ghost use Rattle.std.specs.Prelude.{◌≡◌, ◌<◌, ◌≤◌, ◌^◌};
ghost use Rattle.surface.specs.Surfaces.{square_side};

// A power of two, as the side of every square is.
pub(crate) fn power_of_two(exponent: u8) -> u16
    requires { exponent < 16 }
    ensures value { result ≡ 2 ^ exponent }
    ensures some { 0 < result }
{
    1 << exponent
}

// The side of a square of a size, 8 to 1,024; of the size only the low three bits count.
#[tactic(auto, using(crate::proofs::Sides::square_side_least))]
pub fn square_side(size: u8) -> u16
    ensures value { result ≡ square_side size }
    ensures least { 8 ≤ result }
{
    power_of_two(size % 8 + 3)
}
