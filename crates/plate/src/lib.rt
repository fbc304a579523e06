// A plate: a medium that keeps its sectors in the caller's bytes, one cell after the other,
// and knows its weak sectors by a list of flaws.
#![tactic(auto)]

pub mod cells;
pub mod flaws;
pub mod plates;

pub use cells::CELL_BYTES;
pub use flaws::Flaw;
pub use plates::{Plate, Unopened};
