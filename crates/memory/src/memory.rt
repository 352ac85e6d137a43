ghost use Rattle.std.specs.Prelude.{◌≡◌, ℕ};
ghost use Rattle.memory.specs.Memories.{offset};
ghost use Rattle.memory.specs.Outcomes.{Outcome, answer};

use crate::refusal::Refusal;

// A memory means one outcome for each even address, and is read a halfword at a time.
pub trait Memory {
    // what stands at each even address
    ghost outcome: { Self → ℕ → Outcome };

    // The halfword at an address. An odd address is refused with 1, one with nothing there with 2, one in an
    // unsound block with 3. A read changes nothing.
    fn read(&self, address: u32) -> Result<u16, Refusal>
        ensures { result ≡ answer (outcome self.now) address };
}

// A memory that is lent shows what it shows.
impl<M: Memory> Memory for &M {
    ghost outcome = { λ m. M.Memory.outcome m.now };

    fn read(&self, address: u32) -> Result<u16, Refusal> {
        (**self).read(address)
    }
}

// How far an address lies behind a base. An odd address is refused with 1, one below the base with 2.
pub(crate) fn offset_from(base: u32, address: u32) -> Result<usize, Refusal>
    ensures { result ≡ offset base address }
{
    if address % 2 == 1 {
        return Err(Refusal::OddAddress);
    }
    let offset = address.checked_sub(base).ok_or(Refusal::Absent)?;
    Ok(offset as usize)
}
