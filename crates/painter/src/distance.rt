ghost use Rattle.std.specs.Prelude.{◌≡◌};
ghost use Rattle.painter.specs.Mappings.{apart, difference};

// (a - b) mod 1024, never negative.
pub(crate) fn distance(a: u16, b: u16) -> u16
    ensures { result ≡ apart a b }
{
    a.wrapping_sub(b) % 1024
}

// a - b, which may be negative.
pub(crate) fn signed_distance(a: u16, b: u16) -> i32
    ensures { result ≡ difference a b }
{
    a as i32 - b as i32
}
