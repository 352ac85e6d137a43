use crate::reading::answer;
use memory::{Card, seal};
use std::alloc::{AllocError, Global};
use std::test::Fail;

// Data byte j of block k in these tests.
fn pattern(k: u8) -> [u8; 504] {
    let mut payload = [0u8; 504];
    for (j, byte) in payload.iter_mut().enumerate() {
        *byte = ((j * 7 + 13 * usize::from(k)) % 256) as u8;
    }
    payload
}

// A file of three sealed blocks.
fn three_blocks(heap: Global) -> Result<Vec<u8>, AllocError> {
    let mut file = Vec::new(heap);
    for k in 0..3u8 {
        file.extend_from_slice(&seal(u32::from(k), &pattern(k)))?;
    }
    Ok(file)
}

// The sums of a block whose data are all 0, worked out by hand: S1 is 1 throughout block 0, so S2 is 254 times 1. In
// block 1 the number's low halfword is the 253rd: S1 is 2 for the last two halfwords, so S2 is 252 + 2 + 2.
#[test]
fn sums_of_zero_data(rt: HostRuntime) {
    let first = seal(0, &[0; 504]);
    assert_eq!(rt;
        [first[508], first[509], first[510], first[511]],
        [1, 0, 254, 0]
    );
    let second = seal(1, &[0; 504]);
    assert_eq!(rt;
        [second[508], second[509], second[510], second[511]],
        [2, 0, 0, 1]
    );
}

#[test]
fn sealed_blocks_are_read_back(rt: HostRuntime) -> Result<(), Fail> {
    let card = Card::new(0x1001, three_blocks(rt.alloc())?);
    assert_eq!(rt; card.blocks(), 3);
    assert_eq!(rt; card.sound_blocks(), 3);
    for k in 0..3u8 {
        let payload = pattern(k);
        let start = 0x1000 + 504 * u32::from(k);
        let (pairs, _) = payload.as_chunks::<2>();
        for (j, pair) in pairs.iter().enumerate() {
            let expected = u16::from_le_bytes(*pair);
            assert_eq!(rt; answer(&card, start + 2 * j as u32), Ok(expected));
        }
    }
    assert_eq!(rt; answer(&card, 0x0FFE), Err(2));
    assert_eq!(rt; answer(&card, 0x1001), Err(1));
    assert_eq!(rt; answer(&card, 0x1000 + 3 * 504), Err(2));
    Ok(())
}

// Every single altered halfword of block 1 is found, and the blocks beside it stay.
#[test]
fn every_altered_halfword_is_found(rt: HostRuntime) -> Result<(), Fail> {
    for i in 0..256usize {
        let mut file = three_blocks(rt.alloc())?;
        assert!(rt; file.len() == 1536);
        file[512 + 2 * i] ^= 1;
        let card = Card::new(0, file);
        assert_eq!(rt; card.sound_blocks(), 2);
        assert_eq!(rt; answer(&card, 502), Ok(0xC1BA));
        assert_eq!(rt; answer(&card, 504), Err(3));
        assert_eq!(rt; answer(&card, 1006), Err(3));
        assert_eq!(rt; answer(&card, 1008), Ok(0x211A));
    }
    Ok(())
}

#[test]
fn a_block_in_another_place_is_unsound(rt: HostRuntime) -> Result<(), Fail> {
    let mut file = Vec::new(rt.alloc());
    file.extend_from_slice(&seal(1, &[0; 504]))?;
    file.extend_from_slice(&seal(0x10001, &[0; 504]))?;
    let card = Card::new(0, file);
    assert_eq!(rt; card.sound_blocks(), 0);
    assert_eq!(rt; answer(&card, 0), Err(3));
    assert_eq!(rt; answer(&card, 504), Err(3));
    Ok(())
}

// length of a file of zeros, its blocks, and what reads of the first and the last halfword of block 0 and of the
// first of block 1 answer: no block of zeros is sound, since S1 of zeros is 1
const LENGTHS: [(usize, usize, u8, u8); 7] = [
    (0, 0, 2, 2),
    (1, 0, 2, 2),
    (511, 0, 2, 2),
    (512, 1, 3, 2),
    (513, 1, 3, 2),
    (1023, 1, 3, 2),
    (1024, 2, 3, 3),
];

#[test]
fn file_lengths(rt: HostRuntime) -> Result<(), Fail> {
    for (length, blocks, first, second) in LENGTHS {
        let card = Card::new(0, vec![in rt.alloc(); 0u8; length]?);
        assert_eq!(rt; card.blocks(), blocks);
        assert_eq!(rt; card.sound_blocks(), 0);
        assert_eq!(rt; answer(&card, 0), Err(first));
        assert_eq!(rt; answer(&card, 502), Err(first));
        assert_eq!(rt; answer(&card, 504), Err(second));
        assert_eq!(rt; answer(&card, 505), Err(1));
    }
    Ok(())
}

#[test]
fn only_4096_blocks_count(rt: HostRuntime) -> Result<(), Fail> {
    let card = Card::new(0, vec![in rt.alloc(); 0u8; 512 * 4097 + 100]?);
    assert_eq!(rt; card.blocks(), 4096);
    assert_eq!(rt; answer(&card, 504 * 4096 - 2), Err(3));
    assert_eq!(rt; answer(&card, 504 * 4096), Err(2));
    Ok(())
}

// base and address, and what a read of the three sealed blocks answers
const TOP: [(u32, u32, Result<u16, u8>); 8] = [
    (0xFFFFFFFE, 0xFFFFFFFE, Ok(0x0700)),
    (0xFFFFFFFE, 0xFFFFFFFC, Err(2)),
    (0xFFFFFFFE, 0, Err(2)),
    (0xFFFFFFFF, 0xFFFFFFFE, Ok(0x0700)),
    (0xFFFFFFFF, 0xFFFFFFFF, Err(1)),
    (0xFFFFFFFF, 502, Err(2)),
    (0xFFFFFE08, 0xFFFFFFFE, Ok(0xC1BA)),
    (0xFFFFFE06, 0xFFFFFFFE, Ok(0x140D)),
];

#[test]
fn a_card_is_cut_off_at_the_top(rt: HostRuntime) -> Result<(), Fail> {
    for (base, address, expected) in TOP {
        let card = Card::new(base, three_blocks(rt.alloc())?);
        assert_eq!(rt; answer(&card, address), expected);
    }
    Ok(())
}
