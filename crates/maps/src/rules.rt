// The rules of a layout that concern its areas.
ghost use Rattle.std.specs.Prelude.{◌≡◌, ◌+◌, ◌≤◌, length};
ghost use Rattle.maps.specs.Places.{apart_from_all, area_apart, band_stands, bands_apart, bands_stand, block_count, primes_stand, rises_to, valid};

use crate::bands::{Band, Extent, Layout, MOST_BANDS, SECTORS_PER_TRACK, TRACKS_BEFORE_END};

// Whether the prime area of a band has a sector, and lies within the tracks and apart from the other areas.
fn primes_stand(end: u32, band: Band, primes: Extent) -> bool
    ensures { result ≡ primes_stand end band primes }
{
    1 <= primes.size
        && primes.is_inside(end)
        && band.map_area().is_apart(primes)
        && band.alternative_area().is_apart(primes)
}

// Whether the areas of a band lie within the tracks, which end before the sector `end`, and apart.
pub(crate) fn band_stands(end: u32, band: Band) -> bool
    ensures { result ≡ band_stands end band }
{
    let map = band.map_area();
    let spares = band.alternative_area();
    map.is_inside(end)
        && spares.is_inside(end)
        && map.is_apart(spares)
        && band
            .primes
            .is_none_or(|primes| primes_stand(end, band, primes))
}

// Whether an area has no sector of the band.
fn area_apart(area: Extent, band: Band) -> bool
    ensures { result ≡ area_apart area.first area.size band }
{
    area.is_apart(band.map_area())
        && area.is_apart(band.alternative_area())
        && band.primes.is_none_or(|primes| area.is_apart(primes))
}

// Whether the prime area of a later band begins behind that of a band before, if both have one.
fn rises_to(band: Band, later: Band) -> bool
    ensures { result ≡ rises_to band later }
{
    match (band.primes, later.primes) {
        (Some(primes), Some(behind)) => primes.first < behind.first,
        _ => true,
    }
}

// Whether a band and a later one have no sector in common, and rise.
fn bands_apart(band: Band, later: Band) -> bool
    ensures { result ≡ bands_apart band later }
{
    rises_to(band, later)
        && area_apart(band.map_area(), later)
        && area_apart(band.alternative_area(), later)
        && band.primes.is_none_or(|primes| area_apart(primes, later))
}

// Whether a band is apart from all later ones.
fn apart_from_all(band: Band, later: &[Band]) -> bool
    ensures { result ≡ apart_from_all band later.now }
{
    later.iter().all(|other| bands_apart(band, *other))
}

// Whether all bands stand, each of them and any two.
pub(crate) fn bands_stand(end: u32, bands: &[Band]) -> bool
    ensures { result ≡ bands_stand end bands.now }
{
    let mut rest = bands;
    while let Some((band, later)) = rest.split_first() {
        if !(band_stands(end, *band) && apart_from_all(*band, later)) {
            return false;
        }
        rest = later;
    }
    true
}

// Whether a layout for a last track that a medium may have keeps the rules.
pub(crate) fn is_valid(layout: &Layout) -> bool
    requires { (8 ≤ layout.now.last) × (layout.now.last ≤ 19999) }
    ensures { result ≡ valid layout.now }
{
    if layout.count as usize > MOST_BANDS {
        return false;
    }
    let bands = layout.bands_in_use();
    let end = SECTORS_PER_TRACK * (layout.last + TRACKS_BEFORE_END);
    1 <= layout.count && 1 <= homes_in(bands) && bands_stand(end, bands)
}

// How many homes the bands have together.
pub(crate) fn homes_in(bands: &[Band]) -> u64
    requires { length bands.now ≤ 8 }
    ensures { result ≡ block_count bands.now }
{
    bands.iter().map(|band| band.home_count()).sum()
}
