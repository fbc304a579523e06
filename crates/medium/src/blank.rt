// Whether a medium is blank.
ghost use Rattle.medium.specs.Blank.{LowestBurnt};
ghost use Rattle.std.specs.Result.{MatchResult};

use crate::faults::Fault;
use crate::interface::{IMAGE_BYTES, Medium, Reading};

// The lowest burnt sector, or none where every sector is blank. It is never refused.
pub fn lowest_burnt<M: Medium>(medium: &M) -> Result<Option<u32>, Fault>
    ensures { MatchResult result (LowestBurnt (M.Medium.sectors medium.now)) (λ _. ⊥) }
{
    let mut image = [0; IMAGE_BYTES];
    for sector in 0..medium.count() {
        if medium.read(sector, &mut image)? != Reading::Blank {
            return Ok(Some(sector));
        }
    }
    Ok(None)
}
