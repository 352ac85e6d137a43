ghost use Rattle.std.specs.Prelude.{◌≡◌, ℕ, ◌+◌, ◌<◌, ◌≤◌, true, is_some, None, Option};

// Where on its surface a drawing finds the pixel of a column. Line and column are two numbers and not a pair, since the line
// stays while the column moves on.
pub trait Mapping {
    // the place (u, v) of column x on line y, or none if the column is not in the drawing's region
    ghost place: { Self → ℕ → ℕ → Option (ℕ × ℕ) };

    // The place (u, v) of column x on line y, or none outside the region.
    fn place(&self, y: u16, x: u16) -> Option<(u16, u16)>
        ensures { result ≡ place self.now y x };

    // How many columns right after column x are outside the region, up to the next one inside; at most 1,023.
    // No body is provided: with 0 the clause `next` stays open, as it must where a mapping has columns outside.
    fn columns_outside(&self, y: u16, x: u16) -> u16
        ensures outside { (k : ℕ) → k < result → place self.now y (x + 1 + k) ≡ None }
        ensures next { result < 1023 → is_some (place self.now y (x + 1 + result)) ≡ true }
        ensures most { result ≤ 1023 };
}
