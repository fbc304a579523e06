// Why a call was refused: which refusal it is, which layer found it, and at what place.
ghost use Rattle.std.specs.Prelude.{◌≡◌, Some};
ghost use Rattle.medium.specs.Faults.{fault_in_words, fault_of, layer_name, number_of};

use std::fmt;

// The layer that found a fault; it is passed up whole by the layers above.
#[derive(Clone, Copy, PartialEq, Eq, Debug)]
pub enum Layer {
    Medium,
    Format,
    Volume,
}

impl Layer {
    // `Display` writes it; this is for who wants the word alone, with no formatter.
    pub fn name(self) -> &'static str
        ensures { result.now ≡ layer_name self }
    {
        match self {
            Layer::Medium => "medium",
            Layer::Format => "format",
            Layer::Volume => "volume",
        }
    }

    // A refusal that this layer found.
    pub fn refuses(self, refusal: Refusal, place: u32) -> Fault
        ensures { result ≡ fault_of self refusal place }
    {
        Fault {
            refusal,
            layer: self,
            place,
        }
    }
}

impl fmt::Display for Layer {
    ghost output = { λ layer. Some (layer_name layer) };

    fn fmt<W: fmt::Write>(&self, f: &mut fmt::Formatter<W>) -> fmt::Result {
        f.write_str(self.name())
    }
}

// Every way in which the engine says no. Where several hold, a call answers the one with the lowest number.
#[derive(Clone, Copy, PartialEq, Eq, Debug)]
pub enum Refusal {
    WrongMemory = 1,
    BrokenForm = 2,
    WrongLength = 3,
    NoSuchSector = 4,
    AlreadyBurnt = 5,
    WrongSectorCount = 6,
    NoSoundLayout = 7,
    BrokenLayout = 8,
    NotBlank = 9,
    LayoutNotBurnt = 10,
    FaultyLink = 11,
    NoSuchBlock = 12,
    BlockTaken = 13,
    NoPlaceLeft = 14,
    BlockUnwritten = 15,
    BlockLost = 16,
}

// The number by which people and other programs know the refusal.
impl From<Refusal> for u8 {
    ghost from_gives = { λ refusal number. number ≡ number_of refusal };

    fn from(refusal: Refusal) -> u8 {
        refusal as u8
    }
}

// A refusal with the layer that found it and its place: a sector, a block, or 0 where it has none. No `Option`: which
// place a refusal tells is laid down with its number, and 0 is what it tells where there is nothing to point to.
#[derive(Clone, Copy, PartialEq, Eq, Debug)]
pub struct Fault {
    pub refusal: Refusal,
    pub layer: Layer,
    pub place: u32,
}

impl fmt::Display for Fault {
    ghost output = { λ fault. Some (fault_in_words fault) };

    fn fmt<W: fmt::Write>(&self, f: &mut fmt::Formatter<W>) -> fmt::Result {
        let number = u8::from(self.refusal);
        let layer = self.layer;
        let place = self.place;
        write!(f, "refusal {number} of the {layer} at {place}")
    }
}
