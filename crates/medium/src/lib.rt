// A write-once medium as an interface: what its sectors mean, what reading and burning them answer,
// and how a refusal is told. Plates, rolls and everything above them cite these definitions.
#![tactic(auto)]

pub mod blank;
pub mod bytes;
pub mod faults;
pub mod interface;
pub mod order;
pub mod runs;

pub use blank::lowest_burnt;
pub use bytes::{four_at, is_sized, two_at};
pub use faults::{Fault, Layer, Refusal};
pub use interface::{IMAGE_BYTES, Image, MOST_SECTORS, Medium, Reading, Verdict, reach};
pub use order::{Keyed, rising};
pub use runs::{Burn, burn_all};
