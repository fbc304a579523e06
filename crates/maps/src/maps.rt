// The layout of a medium of this format, once it is known to keep the rules.
ghost use Rattle.std.specs.Prelude.{◌≡◌, ◌≤◌, ℕ, true, length, negsuc, refl, slice_index_or};
ghost use Rattle.maps.specs.Places.{band_formed, bands_of, no_band, valid};
ghost use Rattle.format.specs.Addresses.{few_sectors, near_zero};

use crate::bands;
use crate::bands::{Band, Layout};
use format::Addressing;

pub mod blocks;
pub mod listing;
pub mod reading;
pub mod writing;

#[derive(Clone, Copy, PartialEq, Eq, Debug)]
pub struct Maps {
    layout: Layout,
    ghost kept: { valid layout ≡ true },
    ghost formed: { (k : ℕ) → band_formed layout.count k (slice_index_or layout.bands k no_band) ≡ true },
}

impl Maps {
    // The bands that are in use.
    fn bands(&self) -> &[Band]
        ensures bands { result.now ≡ bands_of self.now.layout }
        ensures few { length result.now ≤ 8 }
    {
        self.layout.bands_in_use()
    }
}

impl Addressing for Maps {
    const SECTORS_PER_TRACK: u32 = bands::SECTORS_PER_TRACK;

    const FIRST_TRACK: i32 = -2;

    ghost SECTORS_PER_TRACK = { 32 };

    ghost FIRST_TRACK = { negsuc 1 };

    ghost few = { few_sectors 32 refl };

    ghost near = { near_zero (negsuc 1) refl };
}
