// Memories: each means one outcome for every even address, and is read a halfword at a time.
#![tactic(auto)]

mod address;
mod block;
mod card;
mod flat;
mod memory;
mod refusal;
mod split;

pub use address::even;
pub use block::seal;
pub use card::Card;
pub use flat::Flat;
pub use memory::Memory;
pub use refusal::Refusal;
pub use split::Split;
