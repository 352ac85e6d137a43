ghost use Rattle.std.specs.Prelude.{◌≡◌, ℕ};
ghost use Rattle.surface.specs.Palettes.{colours, all_the_same, with_colour, written};

use std::marker::Model;

// 256 colours, by their index; a contract sees the list of them.
#[derive(Clone, Copy, PartialEq, Eq, Debug)]
pub struct Palette {
    entries: [u16; 256],
}

impl Model for Palette {
    ghost use Rattle.std.specs.Prelude.{ℕ, List};

    ghost Value = { List ℕ };

    ghost view = { λ p. p.entries };

    ghost inverse = { λ all. record { entries = all } };
}

impl Palette {
    // A palette whose colours are all 0.
    #[tactic(auto, using(crate::proofs::Lists::all_zeros))]
    pub fn new() -> Palette
        ensures made { result ≡ all_the_same 0 }
        ensures colours { (i : ℕ) → colours result i ≡ 0 }
    {
        Palette::default()
    }

    // Gives an index another colour; the others keep theirs.
    #[tactic(auto, using(crate::proofs::Lists::write_at_set, crate::proofs::Lists::write_at_index))]
    pub fn write(&mut self, index: u8, colour: u16)
        ensures after { self.new ≡ with_colour self.old index colour }
        ensures colours { (i : ℕ) → colours self.new i ≡ written (colours self.old) index colour i }
    {
        self.entries[usize::from(index)] = colour;
    }

    // The colour of an index.
    pub fn colour(&self, index: u8) -> u16
        ensures { result ≡ colours self.now index }
    {
        self.entries[usize::from(index)]
    }
}

impl Default for Palette {
    ghost use Rattle.std.specs.Prelude.{◌≡◌};
    ghost use Rattle.surface.specs.Palettes.{all_the_same};

    ghost is_default = { λ p. p ≡ all_the_same 0 };

    fn default() -> Palette {
        Palette { entries: [0; 256] }
    }
}
