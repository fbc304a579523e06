// What the sheet of a layout says, in the order of its bytes.

// The most spares that a layout may have, of all its groups and of the secondary area together.
pub const MOST_SPARES: u32 = 1024;

pub(crate) const MOST_GROUPS: u32 = 65_535;

pub const SECTORS_A_TRACK: u32 = 31;

// A medium of this format has so many tracks at least.
pub(crate) const LEAST_TRACKS: u32 = 7;

// What stands for the first track of a secondary area where there is none.
pub(crate) const NO_TRACK: u32 = 0xFFFF_FFFF;

// The first track behind the first two copies of the layout.
pub(crate) const FIRST_FREE_TRACK: u32 = 3;

// The last two copies begin so many tracks before the last track.
pub(crate) const COPIES_BEFORE_LAST: u32 = 2;

// How the sectors of a medium are divided; whether it keeps the rules is another matter.
#[derive(Clone, Copy, PartialEq, Eq, Debug)]
pub struct Layout {
    pub groups: u32,
    // of each group
    pub homes: u32,
    pub spares: u32,
    // the first track of the secondary area, and how many spares that has: no `Option`, since a sheet may hold any two numbers
    pub start: u32,
    pub secondary: u32,
}
