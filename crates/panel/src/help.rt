// What --help prints.
pub(crate) const HELP: &str = "\
panel: reads a script from standard input, one command a line, and prints one line for each.

The panel's memory is a card below a boundary and RAM from the boundary on.

  card BASE PATH      shows the file PATH as a card from BASE    card: N blocks, S sound
  ram BASE BYTES      RAM of BYTES zero bytes (at most 1048576)  ram: N bytes
  boundary ADDRESS    sets the boundary                          boundary: 0xXXXXXXXX
  poke ADDRESS HEX    writes bytes, two digits each, to the RAM  poke: N bytes
  peek ADDRESS        reads a halfword                           halfword 0xXXXX or refused N

A number is decimal (12, -256) or hexadecimal (0x1F). Pieces are parted by spaces. Blank lines and
lines that begin with # are skipped. A line that cannot be carried out prints
'script error: line L: WHAT', changes nothing, and the script goes on with the next line.

Example:
  printf 'ram 0x100 16\\npoke 0x100 3412\\npeek 0x100\\n' | panel
prints
  ram: 16 bytes
  poke: 2 bytes
  halfword 0x1234
";
