// Examples of what a script may write.
use crate::bytes::read_bytes;
use crate::commands::{Command, parse};
use crate::errors::ScriptError;
use crate::numbers::read_u32;
use std::test::Fail;

#[test]
fn numbers_are_read(rt: HostRuntime) {
    assert_eq!(rt; read_u32(b"12").ok(), Some(12));
    assert_eq!(rt; read_u32(b"00000000000000000000000000000001").ok(), Some(1));
    assert_eq!(rt; read_u32(b"-0").ok(), Some(0));
    assert_eq!(rt; read_u32(b"4294967295").ok(), Some(4_294_967_295));
    assert_eq!(rt; read_u32(b"0xfFfF").ok(), Some(65_535));
}

#[test]
fn other_pieces_are_no_numbers(rt: HostRuntime) {
    for piece in [
        b"4294967296".as_slice(),
        b"0x100000000",
        b"-1",
        b"99999999999999999999999999",
    ] {
        assert_eq!(rt; read_u32(piece), Err(ScriptError::NumberTooLarge));
    }
    for piece in [
        b"".as_slice(),
        b"-",
        b"0x",
        b"0X1F",
        b"-0x1",
        b"1f",
        b"+1",
        b"1.5",
    ] {
        assert_eq!(rt; read_u32(piece), Err(ScriptError::MalformedNumber));
    }
}

#[test]
fn bytes_are_read(rt: HostRuntime) -> Result<(), Fail> {
    let heap = rt.alloc();
    let bytes = read_bytes(heap, b"0aFf")?;
    assert!(rt; bytes.as_slice() == [10, 255].as_slice());
    assert!(rt; read_bytes(heap, b"123").is_err());
    assert!(rt; read_bytes(heap, b"1g").is_err());
    Ok(())
}

#[test]
fn lines_that_are_no_commands(rt: HostRuntime) {
    let heap = rt.alloc();
    assert_eq!(rt; parse(heap, b"frob 1"), Err(ScriptError::NoSuchCommand));
    assert_eq!(rt; parse(heap, b"Peek 1"), Err(ScriptError::NoSuchCommand));
    assert_eq!(rt; parse(heap, b"\xFF\xFE 1"), Err(ScriptError::NoSuchCommand));
    assert_eq!(rt; parse(heap, b"peek\t1"), Err(ScriptError::NoSuchCommand));
    assert_eq!(rt; parse(heap, b"peek 1\r"), Err(ScriptError::CarriageReturn));
    assert_eq!(rt; parse(heap, b"\r"), Err(ScriptError::CarriageReturn));
    assert_eq!(rt; parse(heap, b" # 1"), Err(ScriptError::NoSuchCommand));
    assert_eq!(rt; parse(heap, b"peek"), Err(ScriptError::MissingPiece));
    assert_eq!(rt; parse(heap, b"peek 1 2"), Err(ScriptError::ExtraPiece));
    assert_eq!(rt;
        parse(heap, b"poke 0 123"),
        Err(ScriptError::MalformedBytes)
    );
}

#[test]
fn lines_without_a_command(rt: HostRuntime) {
    for line in [b"".as_slice(), b"   ", b"# remark", b"#\r", b"#\xFF"] {
        assert_eq!(rt; parse(rt.alloc(), line), Ok(None));
    }
}

// A line of 100,000 spaces, a command, and as many spaces again.
#[test]
fn a_very_long_line(rt: HostRuntime) -> Result<(), Fail> {
    let heap = rt.alloc();
    let mut line = vec![in heap; b' '; 100_000]?;
    line.extend_from_slice(b"peek 0x10")?;
    line.resize(200_009, b' ')?;
    assert_eq!(rt;
        parse(heap, line.as_slice()),
        Ok(Some(Command::Peek { address: 16 }))
    );
    Ok(())
}
