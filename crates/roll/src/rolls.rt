// A roll while it is open: the caller's bytes, which keep its form, and an index from sectors to slots.
ghost use Rattle.std.specs.Prelude.{◌≡◌, ℕ, ◌+◌, ◌*◌, ◌≤◌, length};
ghost use Rattle.roll.specs.Rolls.{roll_sectors};
ghost use Rattle.roll.specs.Slots.{Filled, Verdicts};
ghost use Rattle.roll.specs.declared.rolls.WhyNot.TheVariants.{NoMemory, Refused};

use medium::Fault;
use std::alloc::AllocError;

pub mod access;
pub mod opening;

#[derive(Drop)]
pub struct Roll {
    memory: Vec<u8>,
    index: Vec<Option<u32>>,
    used: u32,
    // as many as the index has places; a number of sectors is a `u32` in every call
    count: u32,
    ghost some: { 1 ≤ count },
    ghost few: { count ≤ 640064 },
    ghost sized: { length memory.items ≡ 529 * count },
    ghost judged: { Verdicts memory.items count },
    ghost filled: { Filled memory.items count count index.items used },
    ghost row: { length (roll_sectors memory.items count) ≡ count },
}

// Why a roll was not opened.
#[derive(Clone, Copy, PartialEq, Eq, Debug)]
pub enum WhyNot {
    Refused(Fault),
    // There is no memory for the index.
    NoMemory,
}

impl From<Fault> for WhyNot {
    ghost from_gives = { λ f w. w ≡ Refused f };

    fn from(fault: Fault) -> WhyNot {
        WhyNot::Refused(fault)
    }
}

impl From<AllocError> for WhyNot {
    ghost from_gives = { λ _ w. w ≡ NoMemory };

    fn from(_error: AllocError) -> WhyNot {
        WhyNot::NoMemory
    }
}

// Why a roll was not opened, and the bytes that were given to open it. A plate has flaws besides, and no index to want
// memory for, so each has its own.
#[derive(Drop)]
pub struct Unopened {
    pub why: WhyNot,
    pub memory: Vec<u8>,
}
