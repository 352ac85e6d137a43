// Examples of lines, and of what the RAM takes.
use crate::lines::{skip_line, without_line_feed};
use crate::ram::Ram;
use std::test::Fail;

#[test]
fn pokes_stay_inside(rt: HostRuntime) -> Result<(), Fail> {
    let mut ram = Ram::zeroed(rt.alloc(), 0xFFFF_FFFF, 4)?;
    assert!(rt; ram.poke(0xFFFF_FFFE, b"ab").is_ok());
    assert!(rt; ram.poke(0xFFFF_FFFF, b"a").is_ok());
    assert!(rt; ram.poke(0xFFFF_FFFE, b"abc").is_err());
    assert!(rt; ram.poke(0xFFFF_FFFF, b"ab").is_err());
    assert!(rt; ram.poke(0xFFFF_FFFD, b"a").is_err());
    Ok(())
}

#[test]
fn a_last_line_may_lack_its_line_feed(rt: HostRuntime) {
    assert!(rt; without_line_feed(b"peek 0\n") == b"peek 0".as_slice());
    assert!(rt; without_line_feed(b"peek 0") == b"peek 0".as_slice());
    assert!(rt; without_line_feed(b"\n").is_empty());
    assert!(rt; without_line_feed(b"").is_empty());
}

#[test]
fn a_line_is_passed_over(rt: HostRuntime) -> Result<(), Fail> {
    let mut input = b"poke 0 0\npeek 0\n\nlast".as_slice();
    skip_line(&mut input)?;
    assert!(rt; input == b"peek 0\n\nlast".as_slice());
    skip_line(&mut input)?;
    skip_line(&mut input)?;
    assert!(rt; input == b"last".as_slice());
    skip_line(&mut input)?;
    assert!(rt; input.is_empty());
    skip_line(&mut input)?;
    assert!(rt; input.is_empty());
    Ok(())
}
