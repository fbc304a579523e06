// The spares of a layout: which come into question for a block, and all of them in rising order.
ghost use Rattle.std.specs.Prelude.{◌≡◌, ℕ, ◌+◌, ◌-◌, ◌*◌, ◌/◌, ◌<◌, ◌≤◌, ◌&&◌, length, Decides, ◌==◌, nat_le, nat_lt, slice_index};
ghost use mathlib.Core.List.{Memᴰ};
ghost use Rattle.pointers.specs.Places.{blocks, data_start, primaries, secondaries, width};
ghost use Rattle.pointers.specs.Ranges.{in_range};
ghost use Rattle.pointers.specs.Spares.{MayReplace, SparesListed, all_spares, group_spares, is_home, is_secondary, may_replace, serves, spares_of};

use crate::layout::FIRST_FREE_TRACK;
use crate::pointers::Pointers;
use std::ops::Range;

impl Pointers {
    // How many sectors the medium has.
    pub fn sector_count(&self) -> u32
        ensures { result ≡ self.now.sectors }
    {
        self.sectors
    }

    // The spare at a place of a group.
    #[tactic(auto, using(crate::proofs::Geometry::room_of_group))]
    fn primary(&self, group: u32, place: u32) -> u32
        requires { (group < self.now.layout.groups) × (place < self.now.layout.spares) }
        ensures { result ≡ data_start self.now.layout + (group * width self.now.layout + self.now.layout.homes) + place }
    {
        self.group_start(group) + self.layout.homes + place
    }

    // The spare at a place of all groups together.
    #[tactic(auto, using(crate::proofs::Spared::get_or_group_spares))]
    fn group_spare(&self, index: u32) -> u32
        requires { index < self.now.layout.groups * self.now.layout.spares }
        ensures { result ≡ slice_index (group_spares self.now.layout self.now.layout.groups) index }
    {
        let spares = self.layout.spares;
        self.primary(index / spares, index % spares)
    }

    // The spare at a place of the secondary area.
    fn secondary(&self, place: u32) -> u32
        requires { place < self.now.layout.secondary }
        ensures { result ≡ 31 * self.now.layout.start + place }
    {
        self.secondary_start() + place
    }

    // The spares of a group.
    #[tactic(auto, using(crate::proofs::Geometry::room_of_group))]
    pub(crate) fn primaries(&self, group: u32) -> Range<u32>
        requires { group < self.now.layout.groups }
        ensures { in_range result ≡ primaries self.now.layout group }
    {
        let start = self.group_start(group) + self.layout.homes;
        start..start + self.layout.spares
    }

    // The secondary spares.
    pub(crate) fn secondaries(&self) -> Range<u32>
        ensures list { in_range result ≡ secondaries self.now.layout }
        ensures tells { (p : ℕ) → (nat_le result.start p && nat_lt p result.end) ≡ is_secondary self.now.layout p }
    {
        if self.layout.secondary == 0 {
            return 0..0;
        }
        let start = self.secondary_start();
        start..start + self.layout.secondary
    }

    // How many spares the groups have together.
    fn primary_count(&self) -> u32
        ensures { result ≡ self.now.layout.groups * self.now.layout.spares }
    {
        self.layout.groups * self.layout.spares
    }

    // How many spares there are.
    #[tactic(auto, using(crate::proofs::Spared::length_all_spares))]
    pub fn spare_count(&self) -> u32
        ensures count { result ≡ length (all_spares self.now.layout) }
        ensures listed { SparesListed self.now.layout }
    {
        self.primary_count() + self.layout.secondary
    }

    // A spare by its place among all of them.
    #[tactic(auto, using(crate::proofs::Spared::length_all_spares, crate::proofs::Spared::get_or_front_secondary, crate::proofs::Spared::get_or_front_group, crate::proofs::Spared::get_or_behind_group, crate::proofs::Spared::get_or_behind_secondary,))]
    pub fn spare(&self, index: u32) -> u32
        requires { index < length (all_spares self.now.layout) }
        ensures { result ≡ slice_index (all_spares self.now.layout) index }
    {
        let primary = self.primary_count();
        let secondary = self.layout.secondary;
        if self.layout.start == FIRST_FREE_TRACK {
            if index < secondary {
                return self.secondary(index);
            }
            return self.group_spare(index - secondary);
        }
        if index < primary {
            return self.group_spare(index);
        }
        self.secondary(index - primary)
    }

    // How many spares come into question for a block.
    pub fn candidate_count(&self) -> u32
        ensures { result ≡ self.now.layout.spares + self.now.layout.secondary }
    {
        self.layout.spares + self.layout.secondary
    }

    // The spare that is tried for a block after so many others: those of its group come first.
    #[tactic(auto, using(crate::proofs::Geometry::group_of_block, crate::proofs::Geometry::some_homes, crate::proofs::Spared::get_or_own, crate::proofs::Spared::get_or_shared))]
    pub fn candidate(&self, block: u32, index: u32) -> u32
        requires { (block < blocks self.now.layout) × (index < self.now.layout.spares + self.now.layout.secondary) }
        ensures { result ≡ slice_index (spares_of self.now.layout block) index }
    {
        let spares = self.layout.spares;
        if index < spares {
            return self.primary(block / self.layout.homes, index);
        }
        self.secondary(index - spares)
    }

    #[tactic(auto, unfolding(crate::specs::Spares::is_home))]
    fn is_home(&self, sector: u32) -> bool
        ensures { result ≡ is_home self.now.layout sector }
    {
        let Some(offset) = sector.checked_sub(self.data_start()) else {
            return false;
        };
        let width = self.width();
        offset / width < self.layout.groups && offset % width < self.layout.homes
    }

    fn is_secondary(&self, sector: u32) -> bool
        ensures { result ≡ is_secondary self.now.layout sector }
    {
        self.secondaries().contains(&sector)
    }

    // The group in whose part of the data zone the sector lies.
    fn group_at(&self, sector: u32) -> u32
        ensures { result ≡ (sector - data_start self.now.layout) / width self.now.layout }
    {
        sector.saturating_sub(self.data_start()) / self.width()
    }

    // Whether the spare is one of all groups, or lies in the sector's.
    fn serves(&self, spare: u32, sector: u32) -> bool
        ensures { result ≡ serves self.now.layout spare sector }
    {
        self.is_secondary(spare) || self.group_at(spare) == self.group_at(sector)
    }

    // Whether the spare may stand for the sector: a home, and one of its own group unless it is a secondary spare.
    #[tactic(auto, unfolding(crate::specs::Spares::may_replace))]
    pub fn may_replace(&self, spare: u32, sector: u32) -> bool
        ensures answer { result ≡ may_replace self.now.layout spare sector }
        ensures meaning { Memᴰ spare (all_spares self.now.layout) → Decides result (MayReplace self.now.layout spare sector) }
    {
        self.is_home(sector) && self.serves(spare, sector)
    }
}
