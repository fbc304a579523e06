// A recording format by its three meanings: each block's home, the links that stand, whether a place is left.
ghost use Rattle.std.specs.Prelude.{◌≡◌, ℕ, ◌<◌, ◌≤◌, Bool, true, false, List, length, Ok, Result};
ghost use Rattle.format.specs.Blocks.{Link, blank_at, spare_of};
ghost use Rattle.format.specs.Laws.{HomesBlank, LinksSound, StoringResult, storing};
ghost use Rattle.medium.specs.Sectors.{Sector, sector_at};
ghost use Rattle.medium.specs.declared.faults.Fault.{Fault};

use crate::addressing::Addressing;
use medium::{Fault, Medium};

// The bytes of one block. The sheet of a layout has as many.
pub const BLOCK_BYTES: usize = 512;

pub type Block = [u8; BLOCK_BYTES];

pub type Sheet = Block;

// A value of the type is a layout on a medium of some size.
pub trait Format: Addressing + Sized {
    ghost blocks: { Self → ℕ };

    ghost home: { Self → ℕ → ℕ };

    ghost links: { Self → List Sector → List Link };

    ghost left: { Self → List Sector → ℕ → Bool };

    // What the calls answer, and what they leave.
    ghost mounting: { List Sector → Result Self Fault };

    ghost initialising: { List Sector → List ℕ → Result Self Fault };

    ghost initialised: { List Sector → List ℕ → List Sector };

    ghost stored: { Self → List Sector → ℕ → List ℕ → List Sector };

    fn initialise<M: Medium>(medium: &mut M, sheet: &Sheet) -> Result<Self, Fault>
        ensures answer { result ≡ initialising (M.Medium.sectors medium.old) sheet.now }
        ensures after { M.Medium.sectors medium.new ≡ initialised (M.Medium.sectors medium.old) sheet.now };

    fn mount<M: Medium>(medium: &M) -> Result<Self, Fault>
        ensures { result ≡ mounting (M.Medium.sectors medium.now) };

    // What it promises holds where the medium mounts with this layout. That there is such a block, unwritten, the volume
    // has tested, once for all that it then asks.
    fn store<M: Medium>(&self, medium: &mut M, block: u32, bytes: &Block) -> Result<(), Fault>
        requires there { block < blocks self.now }
        requires unwritten { blank_at (M.Medium.sectors medium.old) (home self.now block) ≡ true }
        ensures answer { mounting (M.Medium.sectors medium.old) ≡ Ok self.now → result ≡ storing (left self.now (M.Medium.sectors medium.old) block) block }
        ensures after { mounting (M.Medium.sectors medium.old) ≡ Ok self.now → M.Medium.sectors medium.new ≡ stored self.now (M.Medium.sectors medium.old) block bytes.now };

    fn block_count(&self) -> u32
        ensures { result ≡ blocks self.now };

    fn home_of(&self, block: u32) -> u32
        requires { block < blocks self.now }
        ensures { result ≡ home self.now block };

    // The spare that is linked to the home, if one is.
    fn linked_spare<M: Medium>(&self, medium: &M, sector: u32) -> Option<u32>
        ensures { mounting (M.Medium.sectors medium.now) ≡ Ok self.now → result ≡ spare_of (links self.now (M.Medium.sectors medium.now)) sector };

    ghost linked: { (s : List Sector) (f : Self) → mounting s ≡ Ok f → LinksSound s (blocks f) (home f) (links f s) };

    ghost fresh: { (s : List Sector) (d : List ℕ) (f : Self) → initialising s d ≡ Ok f → (mounting (initialised s d) ≡ Ok f) × HomesBlank (initialised s d) (blocks f) (home f) };

    ghost remounts: { (s : List Sector) (f : Self) (b : ℕ) (bytes : List ℕ) → mounting s ≡ Ok f → b < blocks f → blank_at s (home f b) ≡ true → length bytes ≡ 512 → mounting (stored f s b bytes) ≡ Ok f };

    ghost stores: { (s : List Sector) (f : Self) (b : ℕ) (bytes : List ℕ) → mounting s ≡ Ok f → b < blocks f → blank_at s (home f b) ≡ true → length bytes ≡ 512 → StoringResult s (stored f s b bytes) (blocks f) (home f) (links f s) (links f (stored f s b bytes)) b bytes (left f s b) };

    ghost some: { (s : List Sector) (f : Self) → mounting s ≡ Ok f → 1 ≤ blocks f };

    // a blank sound home is a place
    ghost room: { (s : List Sector) (f : Self) (b : ℕ) → mounting s ≡ Ok f → b < blocks f → blank_at s (home f b) ≡ true → (sector_at s (home f b)).weak ≡ false → left f s b ≡ true };
}
