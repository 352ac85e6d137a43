ghost use Rattle.std.specs.Prelude.{Some};
ghost use Rattle.painter.specs.SpanRefusals.{span_refusal_text};

use std::error::Error;
use std::fmt;
use surface::Fault;

// A refused span: the column that was refused, with the memory's refusal.
#[derive(Clone, Copy, PartialEq, Eq, Debug)]
pub struct SpanRefusal {
    pub column: u16,
    pub fault: Fault,
}

impl fmt::Display for SpanRefusal {
    ghost output = { λ refused. Some (span_refusal_text refused) };

    fn fmt<W: fmt::Write>(&self, f: &mut fmt::Formatter<W>) -> fmt::Result {
        let SpanRefusal { column, fault } = *self;
        write!(f, "{fault}, column {column}")
    }
}

impl Error for SpanRefusal {}
