// The painter: what any drawing does to a scanline, column by column.
#![tactic(auto)]

mod ablit;
mod affine;
mod atile;
mod blit;
mod clip;
mod columns;
mod distance;
mod drawing;
mod fill;
mod mapping;
mod painter;
mod span_refusal;
mod tile;

pub use ablit::Ablit;
pub use affine::Transform;
pub use atile::Atile;
pub use blit::Blit;
pub use clip::Clip;
pub use drawing::Drawing;
pub use fill::Fill;
pub use mapping::Mapping;
pub use painter::Painter;
pub use span_refusal::SpanRefusal;
pub use tile::Tile;
