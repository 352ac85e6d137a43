ghost use Rattle.std.specs.Prelude.{◌≡◌};
ghost use Rattle.memory.specs.Halfwords.{even};

// An address rounded down to even.
pub fn even(address: u32) -> u32
    ensures { result ≡ even address }
{
    address - address % 2
}
