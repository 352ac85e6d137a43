// The columns of a scanline that may be painted: from start to end, both included.
#[derive(Clone, Copy, PartialEq, Eq, Debug)]
pub struct Clip {
    pub start: u16,
    pub end: u16,
}
