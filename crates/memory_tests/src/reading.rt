use memory::{Memory, Refusal};

// What a read answers: the halfword, or the refusal's number, which the tables of these tests hold.
pub(crate) fn answer<M: Memory>(memory: &M, address: u32) -> Result<u16, u8> {
    memory.read(address).map_err(Refusal::number)
}
