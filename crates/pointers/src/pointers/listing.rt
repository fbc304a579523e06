// The areas of a layout, listed.
ghost use Rattle.std.specs.Prelude.{◌≡◌, ◌-◌, ◌*◌, ◌<◌, ◌++◌, is_ok, IfOk, if◌then◌else◌, OnOk};
ghost use Rattle.pointers.specs.Areas.{Listed, area, areas_of_groups, group_areas, zone_end};
ghost use Rattle.pointers.specs.Rules.{last_track};

use crate::areas::{Area, Purpose};
use crate::layout::{COPIES_BEFORE_LAST, FIRST_FREE_TRACK};
use crate::pointers::Pointers;
use crate::tracks::start_of;
use std::alloc::{AllocError, Global};

// Adds the area of the sectors from `first` up to `end`, if there are any.
fn add(areas: &mut Vec<Area>, purpose: Purpose, first: u32, end: u32) -> Result<(), AllocError>
    ensures { areas.new.items ≡ (if is_ok result then areas.old.items ++ area purpose first end else areas.old.items) }
{
    if first < end {
        areas.push(Area {
            first,
            last: end - 1,
            purpose,
        })?;
    }
    Ok(())
}

impl Pointers {
    // The first sector of the last two copies of the layout.
    fn copies_start(&self) -> u32
        ensures { result ≡ 31 * (last_track self.now.sectors - 2) }
    {
        start_of(self.last_track() - COPIES_BEFORE_LAST)
    }

    // The end of the data zone: a secondary area behind it, or the last copies of the layout.
    fn zone_end(&self) -> u32
        ensures { result ≡ zone_end (last_track self.now.sectors) self.now.layout }
    {
        if self.layout.secondary == 0 || self.layout.start == FIRST_FREE_TRACK {
            return self.copies_start();
        }
        self.secondary_start()
    }

    #[tactic(auto, using(crate::proofs::Geometry::room_of_group))]
    fn add_group(&self, areas: &mut Vec<Area>, group: u32) -> Result<(), AllocError>
        requires { group < self.now.layout.groups }
        ensures { OnOk result (areas.new.items ≡ areas.old.items ++ group_areas self.now.layout group) }
    {
        let homes = self.group_start(group);
        let spares = homes + self.layout.homes;
        add(areas, Purpose::Homes(group), homes, spares)?;
        add(
            areas,
            Purpose::Spares(group),
            spares,
            spares + self.layout.spares,
        )?;
        Ok(())
    }

    fn add_groups(&self, areas: &mut Vec<Area>) -> Result<(), AllocError>
        ensures { OnOk result (areas.new.items ≡ areas.old.items ++ areas_of_groups self.now.layout self.now.layout.groups) }
    {
        for group in 0..self.layout.groups {
            self.add_group(areas, group)?;
        }
        Ok(())
    }

    // The areas of the medium in rising order.
    pub fn areas(&self, heap: Global) -> Result<Vec<Area>, AllocError>
        ensures { IfOk result (λ v. Listed (last_track self.now.sectors) self.now.layout v.items) }
    {
        let front = start_of(FIRST_FREE_TRACK);
        let copies = self.copies_start();
        let zone_end = self.zone_end();
        let mut areas = Vec::new(heap);
        add(&mut areas, Purpose::Copies, 0, front)?;
        add(&mut areas, Purpose::Secondary, front, self.data_start())?;
        self.add_groups(&mut areas)?;
        add(&mut areas, Purpose::Unused, self.groups_end(), zone_end)?;
        add(&mut areas, Purpose::Secondary, zone_end, copies)?;
        add(&mut areas, Purpose::Copies, copies, self.sectors)?;
        Ok(areas)
    }
}
