// The format that keeps its links in maps: how its medium is divided into bands, and where each block has its home.
#![tactic(auto)]

pub mod areas;
pub mod bands;
pub mod maps;
pub mod rules;
pub mod sheet;

pub use areas::Area;
pub use bands::{Band, Extent, Layout, MOST_BANDS, Purpose};
pub use format::{BLOCK_BYTES as SHEET_BYTES, Sheet};
pub use maps::Maps;
