// Colours, palettes, pixel formats, and surfaces that mean a colour at every place.
#![tactic(auto)]

mod colour;
mod fault;
mod format;
mod image;
mod palette;
mod pixel;
mod plain;
mod side;
mod source;
mod surface;
mod tile_field;

pub use colour::{is_opaque, rgb};
pub use fault::{Fault, Reading};
pub use format::{Argb1555, Format, P1, P4, P8, PixelFormat, PixelLayout};
pub use image::Image;
pub use palette::Palette;
pub use pixel::unpack;
pub use plain::Plain;
pub use side::square_side;
pub use source::Source;
pub use surface::Surface;
pub use tile_field::TileField;
