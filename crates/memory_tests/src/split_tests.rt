use crate::reading::answer;
use memory::{Flat, Split};

// boundary, address, and what a read answers of 11 22 33 44 at 0 below it and AA BB CC DD at 0 from it on
const CASES: [(u32, u32, Result<u16, u8>); 12] = [
    (0, 0, Ok(0xBBAA)),
    (0, 2, Ok(0xDDCC)),
    (0, 3, Err(1)),
    (1, 0, Ok(0xBBAA)),
    (2, 0, Ok(0x2211)),
    (2, 2, Ok(0xDDCC)),
    (3, 2, Ok(0xDDCC)),
    (4, 2, Ok(0x4433)),
    (4, 4, Err(2)),
    (0xFFFFFFFF, 2, Ok(0x4433)),
    (0xFFFFFFFF, 0xFFFFFFFE, Err(2)),
    (0xFFFFFFFF, 0xFFFFFFFF, Err(1)),
];

#[test]
fn boundaries(rt: HostRuntime) {
    let low = [0x11u8, 0x22, 0x33, 0x44];
    let high = [0xAAu8, 0xBB, 0xCC, 0xDD];
    for (boundary, address, expected) in CASES {
        let joined = Split::new(boundary, Flat::new(0, &low), Flat::new(0, &high));
        assert_eq!(rt; answer(&joined, address), expected);
    }
}

#[test]
fn boundary_at_the_top(rt: HostRuntime) {
    let low = [0x11u8, 0x22];
    let high = [0xAAu8, 0xBB];
    let joined = Split::new(
        0xFFFFFFFF,
        Flat::new(0xFFFFFFFC, &low),
        Flat::new(0xFFFFFFFE, &high),
    );
    assert_eq!(rt; answer(&joined, 0xFFFFFFFC), Ok(0x2211));
    assert_eq!(rt; answer(&joined, 0xFFFFFFFE), Ok(0xBBAA));
}

#[test]
fn splits_nest(rt: HostRuntime) {
    let bytes = [0x11u8, 0x22, 0x33, 0x44];
    let first = Flat::new(0, &bytes);
    let inner = Split::new(0x20, Flat::new(0x10, &bytes), Flat::new(0x20, &bytes));
    let joined = Split::new(0x10, &first, inner);
    assert_eq!(rt; answer(&joined, 2), Ok(0x4433));
    assert_eq!(rt; answer(&joined, 0x12), Ok(0x4433));
    assert_eq!(rt; answer(&joined, 0x22), Ok(0x4433));
    assert_eq!(rt; answer(&joined, 0x1E), Err(2));
}
