// How this format numbers its sectors: 31 a track, from track 0 on.
ghost use Rattle.std.specs.Prelude.{◌≡◌, ◌*◌, ◌≤◌, pos, refl};
ghost use Rattle.format.specs.Addresses.{few_sectors, near_zero};

use crate::layout::SECTORS_A_TRACK;
use crate::pointers::Pointers;
use format::{Address, Addressing, number_of};

impl Addressing for Pointers {
    const SECTORS_PER_TRACK: u32 = SECTORS_A_TRACK;

    const FIRST_TRACK: i32 = 0;

    ghost SECTORS_PER_TRACK = { 31 };

    ghost FIRST_TRACK = { pos 0 };

    ghost few = { few_sectors 31 refl };

    ghost near = { near_zero (pos 0) refl };
}

// The first sector of a track. No medium has one behind track 19,999.
pub(crate) fn start_of(track: u32) -> u32
    requires { track ≤ 19999 }
    ensures { result ≡ 31 * track }
{
    let address = Address {
        track: track as i32,
        sector: 0,
    };
    number_of::<Pointers>(address).unwrap()
}
