// A roll behind the interface of a medium.
ghost use Rattle.std.specs.Prelude.{◌≡◌, ◌<◌, length, Err, ◌==◌};
ghost use Rattle.medium.specs.Calls.{burning, sectors_after};
ghost use Rattle.roll.specs.Access.{BurntInSlot, sectors_of};
ghost use Rattle.roll.specs.Slots.{slot_image, verdict_at};
ghost use Rattle.roll.specs.Wound.{roll_lawful};

use crate::rolls::Roll;
use crate::slots::{NUMBER_BYTES, WEAK, slot_at, write_slot};
use medium::{Fault, IMAGE_BYTES, Image, Layer, Medium, Reading, Refusal, Verdict, reach};

impl Roll {
    // What the sector's verdict says.
    fn is_weak(&self, sector: u32) -> bool
        requires { sector < self.now.count }
        ensures { result ≡ (verdict_at self.now.memory.items sector == 1) }
    {
        self.memory[sector as usize] == WEAK
    }

    // The image in a slot. The slice ends with the slot, so that no length is tested when it runs.
    fn slot_image(&self, slot: u32) -> &Image
        requires { slot < self.now.count }
        ensures { result.now ≡ slot_image self.now.memory.items self.now.count slot }
    {
        let at = slot_at(self.count, slot) + NUMBER_BYTES;
        self.memory[at..at + IMAGE_BYTES].first_chunk().unwrap()
    }
}

impl Medium for Roll {
    ghost sectors = { sectors_of };

    ghost lawful = { λ m. roll_lawful m.memory.items m.count m.some m.few m.sized };

    fn count(&self) -> u32 {
        self.count
    }

    fn read(&self, sector: u32, image: &mut [u8]) -> Result<Reading, Fault> {
        reach(self.count, sector, image.len())?;
        let Some(slot) = self.index[sector as usize] else {
            return Ok(Reading::Blank);
        };
        if self.is_weak(sector) {
            return Ok(Reading::Spoiled);
        }
        image.copy_from_slice(self.slot_image(slot));
        Ok(Reading::Sound)
    }

    // Beyond what every medium promises: of the caller's bytes only the first unused slot changes.
    fn burn(&mut self, sector: u32, image: &[u8]) -> Result<Verdict, Fault>
        ensures answer { result ≡ burning (sectors_of self.old) sector (length image.now) }
        ensures after { sectors_of self.new ≡ sectors_after (sectors_of self.old) sector image.now }
        ensures untouched { (e : Fault) → result ≡ Err e → self.new ≡ self.old }
        ensures slot { BurntInSlot self.old sector image.now self.new }
    {
        reach(self.count, sector, image.len())?;
        if self.index[sector as usize].is_some() {
            return Err(Layer::Medium.refuses(Refusal::AlreadyBurnt, sector));
        }
        let verdict = Verdict::of(self.is_weak(sector));
        let at = slot_at(self.count, self.used);
        write_slot(self.memory.as_mut_slice(), at, sector, image);
        self.index[sector as usize] = Some(self.used);
        self.used += 1;
        Ok(verdict)
    }
}
