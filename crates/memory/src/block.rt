ghost use Rattle.std.specs.Prelude.{◌≡◌, ℕ, ◌+◌, ◌<◌, true, [], length, take, slice_index_or};
ghost use Rattle.memory.specs.Halfwords.{halfword, put};
ghost use Rattle.memory.specs.Blocks.{first_sum, second_sum, stored_number, sound, Sealed};
ghost use Rattle.memory.specs.Cards.{block, block_count};
ghost use Rattle.memory.specs.Laws.{DamageShows};
ghost use Rattle.memory.specs.States.{state};

// A block of a card.
type Block = [u8; 512];

// What the check of a block came to.
#[derive(Clone, Copy, PartialEq, Eq, Debug)]
pub enum BlockState {
    Sound,
    Unsound,
}

// The blocks of a file that count: the whole ones, at most 4,096.
pub(crate) fn blocks_of(file: &[u8]) -> &[Block]
    ensures count { length result.now ≡ block_count file.now }
    ensures each { (k : ℕ) → k < block_count file.now → slice_index_or result.now k [] ≡ block file.now k }
{
    let (blocks, _) = file.as_chunks::<512>();
    &blocks[..blocks.len().min(4096)]
}

// The halfword at byte i, low byte first.
pub(crate) fn halfword_at(bytes: &[u8], i: usize) -> u16
    requires { i + 1 < length bytes.now }
    ensures { result ≡ halfword bytes.now i }
{
    u16::from_le_bytes([bytes[i], bytes[i + 1]])
}

// Both sums over the 254 halfwords before the stored sums.
fn sums(block: &Block) -> (u16, u16)
    ensures first { result.0 ≡ first_sum block.now 254 }
    ensures second { result.1 ≡ second_sum block.now 254 }
{
    let (halfwords, _) = block[..508].as_chunks::<2>();
    let mut s1: u16 = 1;
    let mut s2: u16 = 0;
    for bytes in halfwords {
        s1 = s1.wrapping_add(u16::from_le_bytes(*bytes));
        s2 = s2.wrapping_add(s1);
    }
    (s1, s2)
}

// The number that a block carries.
fn number_of(block: &Block) -> u32
    ensures { result ≡ stored_number block.now }
{
    u32::from_le_bytes([block[504], block[505], block[506], block[507]])
}

// Whether a block is sound as block k.
pub(crate) fn check_block(block: &Block, k: u32) -> BlockState
    ensures { result ≡ state block.now k }
{
    let (s1, s2) = sums(block);
    if halfword_at(block, 508) == s1 && halfword_at(block, 510) == s2 && number_of(block) == k {
        BlockState::Sound
    } else {
        BlockState::Unsound
    }
}

// Writes a halfword at byte i, low byte first. (With `copy_from_slice` its clause was tried and stayed open.)
fn put_halfword(block: &mut Block, i: usize, h: u16)
    requires { i + 1 < 512 }
    ensures { block.new ≡ put block.old i h }
{
    let [low, high] = h.to_le_bytes();
    block[i] = low;
    block[i + 1] = high;
}

// A block of these data, with the rest 0.
fn with_data(payload: &[u8; 504]) -> Block
    ensures whole { length result ≡ 512 }
    ensures holds { take 504 result ≡ payload.now }
{
    let mut block = [0; 512];
    block[..504].copy_from_slice(payload);
    block
}

// A block of these data that carries this number, with both stored sums 0.
fn with_number(number: u32, payload: &[u8; 504]) -> Block
    ensures carries { stored_number result ≡ number }
    ensures holds { take 504 result ≡ payload.now }
{
    let mut block = with_data(payload);
    block[504..508].copy_from_slice(&number.to_le_bytes());
    block
}

// Stores both sums of a block, so that it is sound with the number that it carries.
fn put_sums(block: &mut Block)
    ensures is_sound { sound block.new (stored_number block.old) ≡ true }
    ensures holds { take 504 block.new ≡ take 504 block.old }
    ensures damage { DamageShows block.new }
{
    let (s1, s2) = sums(block);
    put_halfword(block, 508, s1);
    put_halfword(block, 510, s2);
}

// The block with this number and these data, and the sums that make it sound. With any one of its halfwords altered
// it is sound under no number.
pub fn seal(number: u32, payload: &[u8; 504]) -> [u8; 512]
    ensures sealed { Sealed number payload.now result }
    ensures damage { DamageShows result }
{
    let mut block = with_number(number, payload);
    put_sums(&mut block);
    block
}
