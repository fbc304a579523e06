// What the bench test records: a ranging evening, with the calibration target ranged before and after the pass.
ghost use Rattle.std.specs.Prelude.{◌≡◌};
ghost use Rattle.station.specs.Shots.{shot_bytes};

use medium::{Burn, IMAGE_BYTES, Image};
use std::alloc::{AllocError, Global};
use std::ops::Range;

// Shots that are recorded one after the other, a sector each.
#[derive(Clone, Copy)]
pub(crate) struct Run {
    pub name: &'static str,
    pub first_sector: u32,
    pub shots: u32,
    // How long the light of the first shot is under way, there and back, and how much longer that of each next one.
    flight_ps: u32,
    drift_ps: u32,
}

impl Run {
    pub(crate) fn sectors(&self) -> Range<u32> {
        self.first_sector..self.first_sector.saturating_add(self.shots)
    }

    pub(crate) fn last_sector(&self) -> u32 {
        self.sectors().end.saturating_sub(1)
    }
}

pub(crate) const RUNS: [Run; 3] = [
    Run {
        name: "opening calibration",
        first_sector: 0,
        shots: 8,
        flight_ps: 812_345,
        drift_ps: 0,
    },
    Run {
        name: "pass",
        first_sector: 8,
        shots: 24,
        flight_ps: 3_871_000_000,
        drift_ps: 1_250_000,
    },
    Run {
        name: "closing calibration",
        first_sector: 32,
        shots: 8,
        flight_ps: 812_351,
        drift_ps: 0,
    },
];

// The burns of the evening, and then two that a medium of so many sectors has to refuse:
// a second one of the first sector of the pass, and one of the sector past the last.
pub(crate) fn plan(heap: Global, sectors: u32) -> Result<Vec<Burn>, AllocError> {
    let mut burns = Vec::new(heap);
    for run in &RUNS {
        add_run(&mut burns, run)?;
    }
    for sector in [RUNS[1].first_sector, sectors] {
        burns.push(Burn {
            sector,
            image: shot_image(0, 0),
        })?;
    }
    Ok(burns)
}

fn add_run(burns: &mut Vec<Burn>, run: &Run) -> Result<(), AllocError> {
    for shot in 0..run.shots {
        burns.push(Burn {
            sector: run.first_sector.saturating_add(shot),
            image: shot_image(
                shot,
                u64::from(run.flight_ps) + u64::from(run.drift_ps) * u64::from(shot),
            ),
        })?;
    }
    Ok(())
}

// The number of the shot and its time of flight, the most significant byte first; the rest is (FF).
fn shot_image(shot: u32, flight_ps: u64) -> Image
    ensures { result ≡ shot_bytes shot flight_ps }
{
    let mut image = [0xFF; IMAGE_BYTES];
    image[0..4].copy_from_slice(&shot.to_be_bytes());
    image[4..12].copy_from_slice(&flight_ps.to_be_bytes());
    image
}
