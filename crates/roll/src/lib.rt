// A roll: a medium that keeps its sectors in the caller's bytes in the order in which they were burnt,
// behind a verdict for each sector that says whether it is weak.
#![tactic(auto)]

pub mod rolls;
pub mod slots;

pub use rolls::{Roll, Unopened, WhyNot};
pub use slots::BYTES_A_SECTOR;
