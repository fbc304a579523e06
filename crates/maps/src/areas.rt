// The areas of a band, as a person asks for them: by tracks.
ghost use Rattle.std.specs.Prelude.{◌≡◌, ◌≤◌, length};
ghost use Rattle.maps.specs.Areas.{area_of, begun, begun_in};

use crate::bands::{AREA_SECTORS, Band, Purpose, SECTORS_PER_TRACK};

// An area from its first track to its last. Bands are counted from 1. Areas by pointers lie between two sectors and belong to
// no band, so each format has a type of its own.
#[derive(Clone, Copy, PartialEq, Eq, Debug)]
pub struct Area {
    pub first: u32,
    pub last: u32,
    pub band: u8,
    pub purpose: Purpose,
}

// The area of a band that begins on a track, if one does. Three tries and no table: each area has its own extent.
fn begun_in(number: u8, band: Band, track: u16) -> Option<Area>
    ensures { result ≡ begun_in number band track }
{
    if band.map_area().begins_on(track) {
        return Some(area_from(number, Purpose::Map, track, AREA_SECTORS));
    }
    if band.alternative_area().begins_on(track) {
        return Some(area_from(number, Purpose::Alternative, track, AREA_SECTORS));
    }
    match band.primes {
        Some(primes) if primes.begins_on(track) => {
            Some(area_from(number, Purpose::Prime, track, primes.size))
        }
        _ => None,
    }
}

// An area without sectors would end on its first track; a layout that keeps the rules has none.
fn area_from(band: u8, purpose: Purpose, track: u16, sectors: u32) -> Area
    ensures { result ≡ area_of band purpose track sectors }
{
    Area {
        first: u32::from(track),
        last: u32::from(track) + sectors.saturating_sub(1) / SECTORS_PER_TRACK,
        band,
        purpose,
    }
}

// The area of some band that begins on a track, if one does.
pub(crate) fn begun(bands: &[Band], track: u16) -> Option<Area>
    requires { length bands.now ≤ 8 }
    ensures { result ≡ begun 1 bands.now track }
{
    bands
        .iter()
        .enumerate()
        .find_map(|(i, band)| begun_in(i as u8 + 1, *band, track))
}
