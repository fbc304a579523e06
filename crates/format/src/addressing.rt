// How the sectors of a medium are numbered by tracks, for any number of sectors a track and any first track.
ghost use Rattle.std.specs.Prelude.{◌≡◌, ℕ, ◌≤◌, ℤ, pos, negsuc, Some, ◌≤ℤ◌};
ghost use Rattle.format.specs.Addresses.{UndoEachOther, address_at, address_in_words, number_at, whole_tracks};

use std::fmt;

// No format has a track behind this one.
pub const LAST_TRACK: i32 = 19_999;

// A sector by its track, and its place on the track.
#[derive(Clone, Copy, PartialEq, Eq, Debug)]
pub struct Address {
    pub track: i32,
    pub sector: u32,
}

impl fmt::Display for Address {
    ghost output = { λ address. Some (address_in_words address) };

    fn fmt<W: fmt::Write>(&self, f: &mut fmt::Formatter<W>) -> fmt::Result {
        let track = self.track;
        let sector = self.sector;
        write!(f, "{track}/{sector}")
    }
}

// What an addressing fixes.
pub trait Addressing {
    const SECTORS_PER_TRACK: u32;

    const FIRST_TRACK: i32;

    ghost SECTORS_PER_TRACK: { ℕ };

    ghost FIRST_TRACK: { ℤ };

    ghost few: { (1 ≤ SECTORS_PER_TRACK) × (SECTORS_PER_TRACK ≤ 32) };

    ghost near: { (negsuc 1 ≤ℤ FIRST_TRACK) × (FIRST_TRACK ≤ℤ pos 0) };
}

// The number of the sector at an address, if there is such an address.
pub fn number_of<A: Addressing>(address: Address) -> Option<u32>
    ensures answer { result ≡ number_at A.SECTORS_PER_TRACK A.FIRST_TRACK address }
    ensures undone { UndoEachOther A.SECTORS_PER_TRACK A.FIRST_TRACK }
{
    if address.track < A::FIRST_TRACK
        || address.track > LAST_TRACK
        || address.sector >= A::SECTORS_PER_TRACK
    {
        return None;
    }
    let tracks_before = (address.track - A::FIRST_TRACK) as u32;
    Some(tracks_before * A::SECTORS_PER_TRACK + address.sector)
}

// The address of a sector, if there is a sector of that number.
pub fn address_of<A: Addressing>(number: u32) -> Option<Address>
    ensures answer { result ≡ address_at A.SECTORS_PER_TRACK A.FIRST_TRACK number }
    ensures undone { UndoEachOther A.SECTORS_PER_TRACK A.FIRST_TRACK }
{
    let tracks_before = number / A::SECTORS_PER_TRACK;
    if tracks_before > (LAST_TRACK - A::FIRST_TRACK) as u32 {
        return None;
    }
    Some(Address {
        track: A::FIRST_TRACK + tracks_before as i32,
        sector: number % A::SECTORS_PER_TRACK,
    })
}

// Whether so many sectors are whole tracks: `least` of them at least, and no more than there can be.
pub fn are_whole_tracks<A: Addressing>(sectors: u32, least: u32) -> bool
    ensures { result ≡ whole_tracks A.SECTORS_PER_TRACK A.FIRST_TRACK least sectors }
{
    let tracks = sectors / A::SECTORS_PER_TRACK;
    let most = (LAST_TRACK - A::FIRST_TRACK) as u32 + 1;
    sectors % A::SECTORS_PER_TRACK == 0 && least <= tracks && tracks <= most
}
