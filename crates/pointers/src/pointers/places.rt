// Where the homes of blocks lie. Blocks and groups are named by numbers that who asks has counted or tested.
// The sums are those of `Layout` again: here the rules are known, and they fit.
ghost use Rattle.std.specs.Prelude.{◌≡◌, ◌≢◌, ◌+◌, ◌*◌, ◌^◌, ◌/◌, ◌%◌, ◌<◌, ◌≤◌};
ghost use Rattle.pointers.specs.Places.{PlacesSound, blocks, data_start, group_start, groups_end, home, width};
ghost use Rattle.pointers.specs.Rules.{last_track};

use crate::pointers::Pointers;
use crate::pointers::reading::last_track;
use crate::tracks::start_of;

impl Pointers {
    #[tactic(auto, unfolding(crate::specs::Places::blocks))]
    pub fn block_count(&self) -> u32
        ensures count { result ≡ blocks self.now.layout }
        ensures places { PlacesSound (last_track self.now.sectors) self.now.layout }
    {
        self.layout.groups * self.layout.homes
    }

    pub(crate) fn last_track(&self) -> u32
        ensures { result ≡ last_track self.now.sectors }
    {
        last_track(self.sectors)
    }

    // The first sector of the data zone.
    pub(crate) fn data_start(&self) -> u32
        ensures { result ≡ data_start self.now.layout }
    {
        self.layout.data_start()
    }

    // How many sectors a group takes.
    pub(crate) fn width(&self) -> u32
        ensures value { result ≡ width self.now.layout }
        ensures some { 1 ≤ result }
    {
        self.layout.homes + self.layout.spares
    }

    // The first sector of a group.
    #[tactic(auto, using(crate::proofs::Geometry::room_of_group))]
    pub(crate) fn group_start(&self, group: u32) -> u32
        requires { group < self.now.layout.groups }
        ensures { result ≡ group_start self.now.layout group }
    {
        self.data_start() + group * self.width()
    }

    // The first sector behind the groups.
    #[tactic(auto, using(crate::proofs::Geometry::room_of_zone))]
    pub(crate) fn groups_end(&self) -> u32
        ensures { result ≡ groups_end self.now.layout }
    {
        self.layout.groups_end() as u32
    }

    // The first sector of the secondary area, where there is one.
    pub(crate) fn secondary_start(&self) -> u32
        requires { self.now.layout.secondary ≢ 0 }
        ensures value { result ≡ 31 * self.now.layout.start }
        ensures low { result + self.now.layout.secondary < 2 ^ 20 }
    {
        start_of(self.layout.start)
    }

    // The sector in which a block comes to lie, if that is sound.
    #[tactic(auto, using(crate::proofs::Geometry::home_below, crate::proofs::Geometry::some_homes), unfolding(crate::specs::Places::home))]
    pub fn home_of(&self, block: u32) -> u32
        requires { block < blocks self.now.layout }
        ensures { result ≡ home self.now.layout block }
    {
        let homes = self.layout.homes;
        self.data_start() + (block / homes * self.width() + block % homes)
    }
}
