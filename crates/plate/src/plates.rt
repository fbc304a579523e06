// A plate while it is open: the caller's bytes and flaws, which keep its form.
ghost use Rattle.std.specs.Prelude.{◌≡◌, length};
ghost use Rattle.plate.specs.Plates.{PlateOpenable, plate_sectors};

use crate::flaws::Flaw;
use medium::Fault;

pub mod access;
pub mod opening;

#[derive(Drop)]
pub struct Plate {
    memory: Vec<u8>,
    flaws: Vec<Flaw>,
    count: u32,
    ghost openable: { PlateOpenable memory.items flaws.items count },
    ghost row: { length (plate_sectors memory.items flaws.items count) ≡ count },
}

// Why a plate was not opened, and what was given to open it. A roll has no flaws, and one reason more, so each has its own.
#[derive(Drop)]
pub struct Unopened {
    pub fault: Fault,
    pub memory: Vec<u8>,
    pub flaws: Vec<Flaw>,
}
