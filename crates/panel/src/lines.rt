// The lines of the input.
ghost use Rattle.std.specs.Prelude.{◌≡◌, OnOk};
ghost use Rattle.std.specs.Io.BufRead.{DropsThrough};
ghost use Rattle.panel.specs.Lines.{without_feed};

use std::io;
use std::io::BufRead;

// A line as it was read; the last one may lack its line feed.
pub(crate) fn without_line_feed(line: &[u8]) -> &[u8]
    ensures { result.now ≡ without_feed line.now }
{
    line.strip_suffix(b"\n").unwrap_or(line)
}

// Passes over what is left of a line that found no memory, its line feed included. A reader that says what it will give is
// left with what stands behind the first line feed, byte 10. Standard input does not say it, but is read by the same steps.
pub(crate) fn skip_line<R: BufRead>(input: &mut R) -> io::Result<()>
    ensures { OnOk result (DropsThrough (R.remaining input.old) (R.remaining input.new) 10) }
{
    input.skip_until(b'\n')?;
    Ok(())
}
