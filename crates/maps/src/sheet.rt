// The 512 bytes of a layout sheet, read and written.
ghost use Rattle.std.specs.Prelude.{◌≡◌, ◌+◌, ◌*◌, ◌<◌, ◌≤◌, true, length};
ghost use Rattle.maps.specs.Places.{valid};
ghost use Rattle.maps.specs.Sheets.{Writable, band_at, band_or_none, entry_byte, entry_numbers, first_sector, identified, layout_in, sheet_byte, track_of};

use crate::bands::{Band, Extent, Layout, NO_BAND, SECTORS_PER_TRACK};
use crate::maps::Maps;
use format::{Address, Sheet, address_of, number_of};
use medium::{MOST_SECTORS, two_at};
use std::array;

// The first bytes of every sheet.
const IDENTIFIER: [u8; 2] = [0x00, 0x00];

const COUNT_AT: usize = 2;

const ENTRIES_AT: usize = 3;

const ENTRY_BYTES: usize = 8;

// What stands behind the last entry.
const FILLER: u8 = 0xFF;

// What stands in an overflow band in place of the first prime track and of the number of prime tracks.
const NO_PRIME: u16 = 0xFFFF;

pub(crate) fn is_identified(sheet: &Sheet) -> bool
    ensures { result ≡ identified sheet.now }
{
    sheet.starts_with(&IDENTIFIER)
}

// The first sector of a track. A track that no medium has begins behind the last sector of any, and its area is refused as one
// that leaves the medium: an Option would be a second way of saying so.
fn first_sector(track: u16) -> u32
    ensures { result ≡ first_sector track }
{
    let start = Address {
        track: i32::from(track),
        sector: 0,
    };
    number_of::<Maps>(start).unwrap_or(MOST_SECTORS)
}

// The band in the entry `k`.
fn band_at(sheet: &Sheet, k: usize) -> Band
    requires { k < 8 }
    ensures { result ≡ band_at sheet.now k }
{
    let at = ENTRY_BYTES * k + ENTRIES_AT;
    let maps = first_sector(two_at(sheet, at));
    let spares = first_sector(two_at(sheet, at + 2));
    let prime_track = two_at(sheet, at + 4);
    let prime_tracks = two_at(sheet, at + 6);
    if prime_track == NO_PRIME && prime_tracks == NO_PRIME {
        return Band {
            maps,
            spares,
            primes: None,
        };
    }
    let primes = Extent {
        first: first_sector(prime_track),
        size: SECTORS_PER_TRACK * u32::from(prime_tracks),
    };
    Band {
        maps,
        spares,
        primes: Some(primes),
    }
}

// What stands at place `k` of a layout's eight.
fn band_or_none(sheet: &Sheet, k: usize) -> Band
    requires { k < 8 }
    ensures { result ≡ band_or_none sheet.now k }
{
    if k < usize::from(sheet[COUNT_AT]) {
        band_at(sheet, k)
    } else {
        NO_BAND
    }
}

// The layout that the sheet gives to a medium with the last track `last`.
pub(crate) fn layout_in(last: u32, sheet: &Sheet) -> Layout
    ensures { result ≡ layout_in last sheet.now }
{
    Layout {
        last,
        count: u32::from(sheet[COUNT_AT]),
        bands: array::from_fn(|k| band_or_none(sheet, k)),
    }
}

// The track that begins with a sector.
pub(crate) fn track_of(sector: u32) -> u16
    requires { (64 ≤ sector) × (sector < 640064) }
    ensures { result ≡ track_of sector }
{
    let Some(address) = address_of::<Maps>(sector) else {
        unreachable()
    };
    address.track as u16
}

// The four numbers of a band's entry.
fn entry_numbers(band: Band) -> [u16; 4]
    requires { Writable band }
    ensures { result ≡ entry_numbers band }
{
    let (first, tracks) = match band.primes {
        Some(primes) => (
            track_of(primes.first),
            (primes.size / SECTORS_PER_TRACK) as u16,
        ),
        None => (NO_PRIME, NO_PRIME),
    };
    [track_of(band.maps), track_of(band.spares), first, tracks]
}

// The byte `j` of the eight of a band's entry: of each number the most significant byte first.
fn entry_byte(band: Band, j: usize) -> u8
    requires fitting { Writable band }
    requires place { j < 8 }
    ensures { result ≡ entry_byte band j }
{
    entry_numbers(band)[j / 2].to_be_bytes()[j % 2]
}

// The byte `at` of the sheet of a valid layout. By places and not by fields: each byte is made where it stands.
pub(crate) fn sheet_byte(layout: &Layout, at: usize) -> u8
    requires { valid layout.now ≡ true }
    ensures { result ≡ sheet_byte layout.now at }
{
    if at < COUNT_AT {
        return IDENTIFIER[at];
    }
    if at == COUNT_AT {
        return layout.count as u8;
    }
    let place = at - ENTRIES_AT;
    match layout.bands_in_use().get(place / ENTRY_BYTES) {
        Some(band) => entry_byte(*band, place % ENTRY_BYTES),
        None => FILLER,
    }
}
