// A plate behind the interface of a medium.
ghost use Rattle.std.specs.Prelude.{◌≡◌, length, Err};
ghost use Rattle.medium.specs.Calls.{burning, sectors_after};
ghost use Rattle.plate.specs.Access.{BurntInCell, sectors_of};
ghost use Rattle.plate.specs.Sectored.{plate_lawful};

use crate::cells::{BLANK, fill_cell, image_of, mark_of};
use crate::flaws::any_covers;
use crate::plates::Plate;
use medium::{Fault, Layer, Medium, Reading, Refusal, Verdict, reach};

impl Medium for Plate {
    ghost sectors = { sectors_of };

    ghost lawful = { λ m. plate_lawful m.memory.items m.flaws.items m.count m.openable.0 };

    fn count(&self) -> u32 {
        self.count
    }

    fn read(&self, sector: u32, image: &mut [u8]) -> Result<Reading, Fault> {
        reach(self.count, sector, image.len())?;
        if mark_of(&self.memory, sector) == BLANK {
            return Ok(Reading::Blank);
        }
        if any_covers(&self.flaws, sector) {
            return Ok(Reading::Spoiled);
        }
        image.copy_from_slice(image_of(&self.memory, sector));
        Ok(Reading::Sound)
    }

    // Beyond what every medium promises: of the caller's bytes only the sector's own cell changes.
    fn burn(&mut self, sector: u32, image: &[u8]) -> Result<Verdict, Fault>
        ensures answer { result ≡ burning (sectors_of self.old) sector (length image.now) }
        ensures after { sectors_of self.new ≡ sectors_after (sectors_of self.old) sector image.now }
        ensures untouched { (e : Fault) → result ≡ Err e → self.new ≡ self.old }
        ensures cell { BurntInCell self.old sector image.now self.new }
    {
        reach(self.count, sector, image.len())?;
        if mark_of(&self.memory, sector) != BLANK {
            return Err(Layer::Medium.refuses(Refusal::AlreadyBurnt, sector));
        }
        fill_cell(&mut self.memory, sector, image);
        Ok(Verdict::of(any_covers(&self.flaws, sector)))
    }
}
