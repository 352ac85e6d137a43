// Files that a script names.
use script::ScriptError;
use std::fs::File;
use std::io::Read;

// The bytes of a card's file that count: 4,096 blocks of 512.
const LIMIT: u64 = 2_097_152;

// The start of a file, as far as its bytes count. A path that is no text names no file.
pub(crate) fn read_file(rt: &HostRuntime, path: &[u8]) -> Result<Vec<u8>, ScriptError> {
    let path = std::str::from_utf8(path).map_err(|_| ScriptError::FileUnreadable)?;
    let mut bytes = Vec::new(rt.alloc());
    File::open(rt, path)?.take(LIMIT).read_to_end(&mut bytes)?;
    Ok(bytes)
}
