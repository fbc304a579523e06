// Storing a block: in its home, or else in the first of its spares that proves sound.
ghost use Rattle.std.specs.Prelude.{◌≡◌, ◌<◌, true, ◌++◌, length, Ok};
ghost use Rattle.format.specs.Blocks.{blank_at};
ghost use Rattle.format.specs.Sectors.{free, some_free};
ghost use Rattle.medium.specs.Calls.{sectors_after};
ghost use Rattle.medium.specs.Runs.{after_burns};
ghost use Rattle.pointers_format.specs.Pointing.{spare_tail};
ghost use Rattle.pointers_format.specs.Storing.{left, spare_burns, stored};
ghost use Rattle.pointers.specs.Places.{blocks, home};
ghost use Rattle.pointers.specs.Spares.{spares_of};

use crate::pointer::{home_tail, image_of, spare_tail};
use format::{Block, burn_blank, shows};
use medium::{Fault, Medium, Reading};
use pointers::Pointers;

// Layout and medium go side by side here, and not as in `OnMedium`: each burn would have to show anew that they fit.

// Burns the spare for the home if it is blank; whether the block then rests there.
fn try_spare<M: Medium>(medium: &mut M, spare: u32, home: u32, bytes: &Block) -> Result<bool, Fault>
    requires inside { (spare < length (M.Medium.sectors medium.old)) × (spare < 620000) }
    requires named { home < 620000 }
    ensures answer { result ≡ Ok (free (M.Medium.sectors medium.old) spare) }
    ensures after { M.Medium.sectors medium.new ≡ sectors_after (M.Medium.sectors medium.old) spare (bytes.now ++ spare_tail spare home) }
{
    if !shows(medium, spare, Reading::Blank)? {
        return Ok(false);
    }
    let image = image_of(bytes, spare_tail(spare, home));
    burn_blank(medium, spare, &image)
}

// Tries the spares of the block until one proves sound; whether one does.
#[tactic(auto, using(crate::proofs::Trying::trying_done, crate::proofs::Trying::trying_found))]
fn try_spares<M: Medium>(
    geometry: &Pointers,
    medium: &mut M,
    block: u32,
    bytes: &Block,
) -> Result<bool, Fault>
    requires sized { length (M.Medium.sectors medium.old) ≡ geometry.now.sectors }
    requires there { block < blocks geometry.now.layout }
    ensures answer { result ≡ Ok (some_free (M.Medium.sectors medium.old) (spares_of geometry.now.layout block)) }
    ensures after { M.Medium.sectors medium.new ≡ after_burns (M.Medium.sectors medium.old) (spare_burns (M.Medium.sectors medium.old) (home geometry.now.layout block) bytes.now (spares_of geometry.now.layout block)) }
{
    let home = geometry.home_of(block);
    for spare in geometry.candidates(block) {
        if try_spare(medium, spare, home, bytes)? {
            return Ok(true);
        }
    }
    Ok(false)
}

// Stores a block whose home is blank; whether a place was left to it.
#[tactic(auto, using(crate::specs::Stored::home_there, medium::proofs::Burns::after_length, crate::proofs::Placed::in_home, crate::proofs::Placed::in_spares))]
pub(crate) fn place<M: Medium>(
    geometry: &Pointers,
    medium: &mut M,
    block: u32,
    bytes: &Block,
) -> Result<bool, Fault>
    requires sized { length (M.Medium.sectors medium.old) ≡ geometry.now.sectors }
    requires there { block < blocks geometry.now.layout }
    requires unwritten { blank_at (M.Medium.sectors medium.old) (home geometry.now.layout block) ≡ true }
    ensures answer { result ≡ Ok (left geometry.now.layout (M.Medium.sectors medium.old) block) }
    ensures after { M.Medium.sectors medium.new ≡ stored geometry.now.layout (M.Medium.sectors medium.old) block bytes.now }
{
    let image = image_of(bytes, home_tail(geometry, block));
    if burn_blank(medium, geometry.home_of(block), &image)? {
        return Ok(true);
    }
    try_spares(geometry, medium, block, bytes)
}
