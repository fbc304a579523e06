// Format A behind the interface of a format.
ghost use Rattle.std.specs.Prelude.{pos, refl};
ghost use Rattle.pointers_format.specs.Initialising.{initialised as left_by_initialising, initialising as initialise_answer};
ghost use Rattle.pointers_format.specs.Meaning.{blocks_of, home_of, left_of, links_of, stored_of};
ghost use Rattle.pointers_format.specs.Mounting.{mounting as mount_answer};
ghost use Rattle.format.specs.Addresses.{few_sectors, near_zero};
ghost use Rattle.pointers_format.specs.Mounted.{links_sound, some_blocks};
ghost use Rattle.pointers_format.specs.Begun;
ghost use Rattle.pointers_format.specs.Kept;
ghost use Rattle.pointers_format.specs.Kept.{storing_result, home_place};

use format::{Addressing, Block, Format, Sheet};
use medium::{Fault, Medium};
use pointers::{Pointers, SECTORS_A_TRACK};

// A layout on a medium of its size.
#[derive(Clone, Copy)]
pub struct FormatA {
    pub(crate) geometry: Pointers,
}

// The addressing of `Pointers`: a format is an addressing, and this type is another.
impl Addressing for FormatA {
    const SECTORS_PER_TRACK: u32 = SECTORS_A_TRACK;

    const FIRST_TRACK: i32 = 0;

    ghost SECTORS_PER_TRACK = { 31 };

    ghost FIRST_TRACK = { pos 0 };

    ghost few = { few_sectors 31 refl };

    ghost near = { near_zero (pos 0) refl };
}

impl Format for FormatA {
    ghost blocks = { blocks_of };

    ghost home = { home_of };

    ghost links = { links_of };

    ghost left = { left_of };

    ghost mounting = { mount_answer };

    ghost initialising = { initialise_answer };

    ghost initialised = { left_by_initialising };

    ghost stored = { stored_of };

    ghost linked = { links_sound };

    ghost fresh = { Begun.fresh };

    ghost remounts = { λ s f b bytes e known blank full. Kept.remounts s f e b bytes known blank full };

    ghost stores = { λ s f b bytes e known blank full. storing_result s f e b bytes known blank full };

    ghost some = { λ s f e. some_blocks f.geometry };

    ghost room = { λ s f b e known blank sound. home_place f.geometry.layout s b blank sound };

    fn initialise<M: Medium>(medium: &mut M, sheet: &Sheet) -> Result<FormatA, Fault> {
        FormatA::initialise(medium, sheet)
    }

    fn mount<M: Medium>(medium: &M) -> Result<FormatA, Fault> {
        FormatA::mount(medium)
    }

    #[tactic(auto, using(crate::proofs::Meant::fits))]
    fn store<M: Medium>(&self, medium: &mut M, block: u32, bytes: &Block) -> Result<(), Fault> {
        FormatA::store(self, medium, block, bytes)
    }

    fn block_count(&self) -> u32 {
        self.geometry.block_count()
    }

    fn home_of(&self, block: u32) -> u32 {
        self.geometry.home_of(block)
    }

    #[tactic(auto, using(crate::proofs::Meant::fits))]
    fn linked_spare<M: Medium>(&self, medium: &M, sector: u32) -> Option<u32> {
        FormatA::linked_spare(self, medium, sector).unwrap_or(None)
    }
}
