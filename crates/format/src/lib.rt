// What a recording format is: an addressing of sectors, and on top of it what a block's home is, which links stand
// and whether a place is left. The volume above knows a format only through these.
#![tactic(auto)]

pub mod addressing;
pub mod copies;
pub mod interface;
pub mod sectors;

pub use addressing::{Address, Addressing, LAST_TRACK, address_of, are_whole_tracks, number_of};
pub use copies::{burn_copies, find_copy};
pub use interface::{BLOCK_BYTES, Block, Format, Sheet};
pub use sectors::{burn_blank, read_sound, shows};
