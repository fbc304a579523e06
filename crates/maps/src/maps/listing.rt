// The areas of a layout, listed.
ghost use Rattle.std.specs.Prelude.{◌≡◌, IfOk};
ghost use Rattle.maps.specs.Areas.{AreasListed, all_areas};

use crate::areas::{Area, begun};
use crate::maps::Maps;
use std::alloc::{AllocError, Global};

impl Maps {
    // All areas, in rising order of tracks.
    pub fn areas(&self, heap: Global) -> Result<Vec<Area>, AllocError>
        ensures list { IfOk result (λ v. v.items ≡ all_areas self.now.layout) }
        ensures areas { IfOk result (λ v. AreasListed self.now.layout v.items) }
    {
        let bands = self.bands();
        // No lemma of the library lists what `0..=last` gives.
        (0..self.layout.last as u16 + 1)
            .filter_map(|track| begun(bands, track))
            .collect(heap)
    }
}
