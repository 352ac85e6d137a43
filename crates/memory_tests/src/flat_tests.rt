use crate::reading::answer;
use memory::Flat;

// base, address, and what a read of the bytes 11 22 33 44 55 answers
const CASES: [(u32, u32, Result<u16, u8>); 19] = [
    (0, 0, Ok(0x2211)),
    (0, 2, Ok(0x4433)),
    (0, 4, Err(2)),
    (0, 1, Err(1)),
    (0, 0xFFFFFFFE, Err(2)),
    (1, 0, Ok(0x2211)),
    (1, 2, Ok(0x4433)),
    (0x1001, 0x0FFE, Err(2)),
    (0x1001, 0x1000, Ok(0x2211)),
    (0x1001, 0x1001, Err(1)),
    (0xFFFFFFFC, 0xFFFFFFFC, Ok(0x2211)),
    (0xFFFFFFFC, 0xFFFFFFFE, Ok(0x4433)),
    (0xFFFFFFFC, 0, Err(2)),
    (0xFFFFFFFE, 0xFFFFFFFC, Err(2)),
    (0xFFFFFFFE, 0xFFFFFFFE, Ok(0x2211)),
    (0xFFFFFFFE, 0, Err(2)),
    (0xFFFFFFFF, 0xFFFFFFFE, Ok(0x2211)),
    (0xFFFFFFFF, 0xFFFFFFFF, Err(1)),
    (0xFFFFFFFF, 0, Err(2)),
];

#[test]
fn bases_and_addresses(rt: HostRuntime) {
    let bytes = [0x11u8, 0x22, 0x33, 0x44, 0x55];
    for (base, address, expected) in CASES {
        assert_eq!(rt; answer(&Flat::new(base, &bytes), address), expected);
    }
}

#[test]
fn no_halfword_in_too_few_bytes(rt: HostRuntime) {
    let bytes = [7u8, 1];
    assert_eq!(rt; answer(&Flat::new(0, &bytes[0..0]), 0), Err(2));
    assert_eq!(rt; answer(&Flat::new(0, &bytes[0..1]), 0), Err(2));
    assert_eq!(rt; answer(&Flat::new(0, &bytes), 0), Ok(0x0107));
}
