// The panel: a card below a boundary, RAM from the boundary on.
ghost use Rattle.std.specs.Prelude.{◌≡◌, [], Ok, OnErr};
ghost use Rattle.memory.specs.Outcomes.{answer};
ghost use Rattle.panel.specs.Panels.{ShowsCard, MakesRam, SetsBoundary, Pokes, Does, card_file, shown};

use crate::files::read_file;
use crate::ram::Ram;
use memory::{Card, Memory, Refusal, Split};
use script::{Command, ScriptError};
use std::alloc::Global;
use std::fmt;

#[derive(Drop)]
pub(crate) struct Panel {
    card: Card,
    ram: Ram,
    boundary: u32,
}

// What a command came to.
#[derive(Clone, Copy, Debug, PartialEq, Eq)]
pub(crate) enum Answer {
    CardShown { blocks: usize, sound: usize },
    RamMade { size: u32 },
    BoundarySet { address: u32 },
    Poked { count: usize },
    Peeked(Result<u16, Refusal>),
}

impl Panel {
    // A card with no blocks, a RAM of no bytes, the boundary at 0.
    pub(crate) fn new(heap: Global) -> Panel
        ensures card { card_file result ≡ [] }
        ensures ram { (result.ram.base ≡ 0) × (result.ram.bytes.items ≡ []) }
        ensures boundary { result.boundary ≡ 0 }
    {
        Panel {
            card: Card::new(0, Vec::new(heap)),
            ram: Ram::new(0, Vec::new(heap)),
            boundary: 0,
        }
    }

    // Carries a command out; where that is an error, nothing has changed.
    pub(crate) fn carry_out(
        &mut self,
        rt: &HostRuntime,
        command: Command<'_>,
    ) -> Result<Answer, ScriptError>
        ensures does { Does command.entry self.old result self.new }
        ensures same { OnErr result (self.new ≡ self.old) }
    {
        match command {
            Command::Card { base, path } => self.show_card(rt, base, path),
            Command::Ram { base, size } => self.make_ram(rt.alloc(), base, size),
            Command::Boundary { address } => Ok(self.set_boundary(address)),
            Command::Poke { address, bytes } => self.poke(address, bytes.as_slice()),
            Command::Peek { address } => Ok(Answer::Peeked(self.read(address))),
        }
    }

    fn show_card(&mut self, rt: &HostRuntime, base: u32, path: &[u8]) -> Result<Answer, ScriptError>
        ensures { ShowsCard base self.old result self.new }
    {
        let file = read_file(rt, path)?;
        let card = Card::new(base, file);
        let blocks = card.blocks();
        let sound = card.sound_blocks();
        self.card = card;
        Ok(Answer::CardShown { blocks, sound })
    }

    fn make_ram(&mut self, heap: Global, base: u32, size: u32) -> Result<Answer, ScriptError>
        ensures { MakesRam base size self.old result self.new }
    {
        self.ram = Ram::zeroed(heap, base, size)?;
        Ok(Answer::RamMade { size })
    }

    fn set_boundary(&mut self, address: u32) -> Answer
        ensures { SetsBoundary address self.old (Ok result) self.new }
    {
        self.boundary = address;
        Answer::BoundarySet { address }
    }

    fn poke(&mut self, address: u32, bytes: &[u8]) -> Result<Answer, ScriptError>
        ensures { Pokes address bytes.now self.old result self.new }
    {
        self.ram.poke(address, bytes)?;
        Ok(Answer::Poked { count: bytes.len() })
    }

    // A halfword of the panel's memory.
    fn read(&self, address: u32) -> Result<u16, Refusal>
        ensures { result ≡ answer (shown self.now) address }
    {
        Split::new(self.boundary, &self.card, &self.ram).read(address)
    }
}

impl fmt::Display for Answer {
    ghost use Rattle.std.specs.Prelude.{Some};
    ghost use Rattle.panel.specs.Answers.{answer_text};

    ghost output = { λ answer. Some (answer_text answer) };

    fn fmt<W: fmt::Write>(&self, f: &mut fmt::Formatter<W>) -> fmt::Result {
        match self {
            Answer::CardShown { blocks, sound } => write!(
                f,
                "card: {blocks} blocks, {sound} sound"
            ),
            Answer::RamMade { size } => write!(f, "ram: {size} bytes"),
            Answer::BoundarySet { address } => write!(f, "boundary: 0x{address:08X}"),
            Answer::Poked { count } => write!(f, "poke: {count} bytes"),
            Answer::Peeked(Ok(halfword)) => write!(f, "halfword 0x{halfword:04X}"),
            Answer::Peeked(Err(refusal)) => write!(f, "refused {refusal}"),
        }
    }
}
