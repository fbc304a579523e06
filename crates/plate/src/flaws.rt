// The flaw list of a plate: which sectors are weak.
ghost use Rattle.std.specs.Prelude.{◌≡◌, Decides};
ghost use Rattle.plate.specs.Flaws.{FlawsFormed, Inside, covered, covers, end_of};

use medium::{Keyed, rising};

// The longest flaw list that a plate takes.
const MOST_FLAWS: usize = 64;

// A run of weak sectors: the first of them, and how many there are.
#[derive(Clone, Copy, PartialEq, Eq, Debug)]
pub struct Flaw {
    pub offset: u32,
    pub length: u32,
}

// Flaws are ordered by where they begin.
impl Keyed for Flaw {
    ghost keyed = { λ f. f.offset };

    fn key(&self) -> u32 {
        self.offset
    }
}

impl Flaw {
    // The first sector behind it. It may be past any that a `u32` can name.
    fn end(&self) -> u64
        ensures { result ≡ end_of self.now }
    {
        u64::from(self.offset) + u64::from(self.length)
    }

    pub fn covers(&self, sector: u32) -> bool
        ensures { result ≡ covers self.now sector }
    {
        sector >= self.offset && u64::from(sector) < self.end()
    }

    // Whether it has a sector, and none past the last of `count`.
    fn is_inside(&self, count: u32) -> bool
        ensures { Decides result (Inside self.now count) }
    {
        1 <= self.length && self.end() <= u64::from(count)
    }
}

// Whether some flaw of the list covers the sector.
pub(crate) fn any_covers(flaws: &[Flaw], sector: u32) -> bool
    ensures { result ≡ covered flaws.now sector }
{
    flaws.iter().any(|flaw| flaw.covers(sector))
}

// Whether this is the flaw list of a plate of `count` sectors.
pub(crate) fn are_formed(flaws: &[Flaw], count: u32) -> bool
    ensures { Decides result (FlawsFormed flaws.now count) }
{
    flaws.len() <= MOST_FLAWS
        && rising(flaws)
        && flaws.iter().all(|flaw| flaw.is_inside(count))
        && flaws
            .array_windows::<2>()
            .all(|[a, b]| a.end() <= u64::from(b.offset))
}
