// The lists of spares, gone through one after another.
ghost use Rattle.std.specs.Prelude.{◌≡◌, ◌+◌, ◌<◌, length};
ghost use Rattle.std.specs.Iterator.{YieldsFirst, item_count};
ghost use Rattle.pointers.specs.Places.{blocks};
ghost use Rattle.pointers.specs.Spares.{SparesListed, all_spares, spares_of};

use crate::pointers::Pointers;
use std::marker::Model;
use std::ops::Range;

// All spares, seen as the list of those that are left. By their places: the secondary ones come before the groups or
// behind them, and `spare` knows.
#[derive(Drop)]
pub struct Spares<'a> {
    geometry: &'a Pointers,
    places: Range<u32>,
}

impl<'a> Model for Spares<'a> {
    ghost use Rattle.std.specs.Prelude.{◌≡◌, ◌≤◌, ℕ, List, length, drop};

    ghost Value = { List ℕ };

    ghost use Rattle.pointers.specs.Spares.{all_spares};

    ghost view = { λ s. drop s.places.start (all_spares s.geometry.now.layout) };

    ghost invariant = { λ s. (s.places.start ≤ s.places.end) × (s.places.end ≡ length (all_spares s.geometry.now.layout)) };
}

impl<'a> Iterator for Spares<'a> {
    type Item = u32;

    ghost next_gives = { YieldsFirst (λ rest. rest) };

    ghost remaining = { item_count (λ rest. rest) };

    fn next(&mut self) -> Option<u32> {
        let place = self.places.next()?;
        Some(self.geometry.spare(place))
    }
}

// The spares of a block in the order in which they are tried, seen as the list of those that are left.
#[derive(Drop)]
pub struct Candidates {
    own: Range<u32>,
    shared: Range<u32>,
}

impl Model for Candidates {
    ghost use Rattle.std.specs.Prelude.{ℕ, List, ◌++◌};
    ghost use Rattle.pointers.specs.Ranges.{in_range};

    ghost Value = { List ℕ };

    ghost view = { λ c. in_range c.own ++ in_range c.shared };
}

impl Iterator for Candidates {
    type Item = u32;

    ghost next_gives = { YieldsFirst (λ rest. rest) };

    ghost remaining = { item_count (λ rest. rest) };

    #[tactic(auto, using(crate::proofs::Turns::range_first, crate::proofs::Turns::range_done))]
    fn next(&mut self) -> Option<u32> {
        match self.own.next() {
            Some(spare) => Some(spare),
            None => self.shared.next(),
        }
    }
}

impl Pointers {
    // All spares in rising order.
    pub fn spares(&self) -> Spares<'_>
        ensures all { result ≡ all_spares self.now.layout }
        ensures listed { SparesListed self.now.layout }
    {
        Spares {
            geometry: self,
            places: 0..self.spare_count(),
        }
    }

    // The spares that come into question for a block, in the order in which they are tried.
    #[tactic(auto, using(crate::proofs::Geometry::group_of_block, crate::proofs::Geometry::some_homes, crate::proofs::Spared::length_spares_of), unfolding(crate::specs::Spares::spares_of))]
    pub fn candidates(&self, block: u32) -> Candidates
        requires { block < blocks self.now.layout }
        ensures list { result ≡ spares_of self.now.layout block }
        ensures many { length result ≡ self.now.layout.spares + self.now.layout.secondary }
    {
        let group = block / self.layout.homes;
        Candidates {
            own: self.primaries(group),
            shared: self.secondaries(),
        }
    }
}
