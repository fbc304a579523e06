// The interface of a write-once medium, by what its sectors mean.
ghost use Rattle.std.specs.Prelude.{◌≡◌, List, length, Err};
ghost use Rattle.medium.specs.Calls.{burning, image_after, reaching, reading, sectors_after, verdict};
ghost use Rattle.medium.specs.Sectors.{Lawful, Sector};

use crate::faults::{Fault, Layer, Refusal};

// The bytes of one sector.
pub const IMAGE_BYTES: usize = 524;

pub type Image = [u8; IMAGE_BYTES];

// No medium has more sectors.
pub const MOST_SECTORS: u32 = 640_064;

// What a sector shows to a reader. Spoiled is burnt and weak.
#[derive(Clone, Copy, PartialEq, Eq, Debug)]
pub enum Reading {
    Blank,
    Spoiled,
    Sound,
}

// What a burn found out about its sector.
#[derive(Clone, Copy, PartialEq, Eq, Debug)]
pub enum Verdict {
    Sound,
    Weak,
}

impl Verdict {
    // No `From<bool>`: `Verdict::from(true)` would not say which of the two it means.
    pub fn of(weak: bool) -> Verdict
        ensures { result ≡ verdict weak }
    {
        if weak { Verdict::Weak } else { Verdict::Sound }
    }
}

pub trait Medium {
    // The sectors in order of their numbers.
    ghost sectors: { Self → List Sector };

    fn count(&self) -> u32
        ensures { result ≡ length (sectors self.now) };

    // Fills the image with the bytes of a sound sector, and leaves it as it was otherwise.
    // The bytes are no part of the answer: a medium fills the caller's memory, and refuses one of another length.
    fn read(&self, sector: u32, image: &mut [u8]) -> Result<Reading, Fault>
        ensures answer { result ≡ reading (sectors self.now) sector (length image.old) }
        ensures image { image.new ≡ image_after (sectors self.now) sector image.old };

    // Gives a blank sector the image for good, and tells whether the sector is sound.
    fn burn(&mut self, sector: u32, image: &[u8]) -> Result<Verdict, Fault>
        ensures answer { result ≡ burning (sectors self.old) sector (length image.now) }
        ensures after { sectors self.new ≡ sectors_after (sectors self.old) sector image.now }
        ensures untouched { (e : Fault) → result ≡ Err e → self.new ≡ self.old };

    ghost lawful: { (m : Self) → Lawful (sectors m) };
}

// Refuses an image of another length than a sector's, and then a sector past the last.
pub fn reach(count: u32, sector: u32, image_len: usize) -> Result<(), Fault>
    ensures { result ≡ reaching count sector image_len }
{
    if image_len != IMAGE_BYTES {
        return Err(Layer::Medium.refuses(Refusal::WrongLength, 0));
    }
    if sector >= count {
        return Err(Layer::Medium.refuses(Refusal::NoSuchSector, sector));
    }
    Ok(())
}
