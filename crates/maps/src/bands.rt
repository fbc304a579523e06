// How a medium is divided: bands, each with its areas, given by sector numbers.
ghost use Rattle.std.specs.Prelude.{◌≡◌, ◌+◌, ◌<◌, ◌*◌, ◌≤◌, Some, ◌==◌};
ghost use Rattle.maps.specs.Words.{purpose_in_words};
ghost use Rattle.maps.specs.Places.{apart, bands_of, first_home, homes_of, inside};

use std::fmt;

pub const MOST_BANDS: usize = 8;

pub(crate) const SECTORS_PER_TRACK: u32 = 32;

// The tracks -2 and -1.
pub(crate) const TRACKS_BEFORE_ZERO: u32 = 2;

// How many tracks there are up to the last one, besides its number: -2, -1 and 0.
pub(crate) const TRACKS_BEFORE_END: u32 = 3;

// A map area and an alternative area have four tracks.
pub(crate) const AREA_SECTORS: u32 = 4 * SECTORS_PER_TRACK;

// Track 0 begins here; the tracks -2 and -1 hold no area.
const FIRST_SECTOR: u32 = TRACKS_BEFORE_ZERO * SECTORS_PER_TRACK;

// What an area is used for. Another format has other uses, so each has a type of its own.
#[derive(Clone, Copy, PartialEq, Eq, Debug)]
pub enum Purpose {
    Map,
    Alternative,
    Prime,
}

impl fmt::Display for Purpose {
    ghost output = { λ purpose. Some (purpose_in_words purpose) };

    fn fmt<W: fmt::Write>(&self, f: &mut fmt::Formatter<W>) -> fmt::Result {
        match self {
            Purpose::Map => write!(f, "map"),
            Purpose::Alternative => write!(f, "alternative"),
            Purpose::Prime => write!(f, "prime"),
        }
    }
}

// Some sectors in a row: the first of them, and how many there are. No flaw of a plate: other places are inside here.
#[derive(Clone, Copy, PartialEq, Eq, Debug)]
pub struct Extent {
    pub first: u32,
    pub size: u32,
}

// A band by the first sector of its map area and of its alternative area, and by its prime area.
// An overflow band has no prime area.
#[derive(Clone, Copy, PartialEq, Eq, Debug)]
pub struct Band {
    pub maps: u32,
    pub spares: u32,
    pub primes: Option<Extent>,
}

// The last track of the medium, and its bands. Behind the first `count` stands `NO_BAND`.
// An array and a count: reading takes no heap, and the kit's `ArrayVec` is not `Copy`, as a layout is.
#[derive(Clone, Copy, PartialEq, Eq, Debug)]
pub struct Layout {
    pub last: u32,
    pub count: u32,
    pub bands: [Band; MOST_BANDS],
}

pub(crate) const NO_BAND: Band = Band {
    maps: 0,
    spares: 0,
    primes: None,
};

impl Extent {
    // The number behind the last sector.
    fn end(self) -> u64
        ensures { result ≡ self.first + self.size }
    {
        u64::from(self.first) + u64::from(self.size)
    }

    pub(crate) fn is_apart(self, other: Extent) -> bool
        ensures { result ≡ apart self.first self.size other.first other.size }
    {
        self.end() <= u64::from(other.first) || other.end() <= u64::from(self.first)
    }

    // The sector at a place, from 0 on.
    pub(crate) fn sector_at(self, place: u32) -> u32
        requires { self.first + place < 640064 }
        ensures { result ≡ self.first + place }
    {
        self.first + place
    }

    pub(crate) fn begins_on(self, track: u16) -> bool
        ensures { result ≡ (self.first == 32 * (track + 2)) }
    {
        self.first == SECTORS_PER_TRACK * (u32::from(track) + TRACKS_BEFORE_ZERO)
    }

    // Whether it lies within the tracks 0 to the last, where `end` is the number behind their last sector.
    pub(crate) fn is_inside(self, end: u32) -> bool
        ensures { result ≡ inside end self.first self.size }
    {
        FIRST_SECTOR <= self.first && self.end() <= u64::from(end)
    }
}

impl Band {
    // Two areas of one size, each from a field of its own.
    pub(crate) fn map_area(self) -> Extent
        ensures first { result.first ≡ self.maps }
        ensures size { result.size ≡ 128 }
    {
        Extent {
            first: self.maps,
            size: AREA_SECTORS,
        }
    }

    pub(crate) fn alternative_area(self) -> Extent
        ensures first { result.first ≡ self.spares }
        ensures size { result.size ≡ 128 }
    {
        Extent {
            first: self.spares,
            size: AREA_SECTORS,
        }
    }

    // The prime area, or one with no sectors for an overflow band: so a loop over bands needs no branch for that.
    // By reference, so that no band is copied.
    pub(crate) fn prime_area(&self) -> Extent
        ensures first { result.first ≡ first_home self.now }
        ensures size { result.size ≡ homes_of self.now }
    {
        self.primes.unwrap_or(Extent { first: 0, size: 0 })
    }

    pub(crate) fn home_count(self) -> u64
        ensures value { result ≡ homes_of self }
        ensures small { result ≤ 4294967295 }
    {
        self.primes.map_or(0, |primes| u64::from(primes.size))
    }
}

impl Layout {
    // The first `count` of the bands: eight at most, which is said again where only the slice is at hand.
    pub(crate) fn bands_in_use(&self) -> &[Band]
        requires { self.now.count ≤ 8 }
        ensures { result.now ≡ bands_of self.now }
    {
        &self.bands[..self.count as usize]
    }
}
