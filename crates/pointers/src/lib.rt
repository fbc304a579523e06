// Format A, pointers: how a medium is divided into homes and spares, and the sheet of bytes that says so.
// A spare names the home that it stands for by pointers beside its block.
#![tactic(auto)]

pub mod areas;
pub mod layout;
pub mod pointers;
pub mod rules;
pub mod sheet;
pub mod tracks;

pub use areas::{Area, Purpose};
pub use format::{BLOCK_BYTES as SHEET_BYTES, Sheet};
pub use layout::{Layout, MOST_SPARES, SECTORS_A_TRACK};
pub use pointers::Pointers;
pub use pointers::lists::{Candidates, Spares};
pub use pointers::reading::{fits_format, last_track};
