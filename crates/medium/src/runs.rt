// A whole run of burns on any medium.
ghost use Rattle.std.specs.Prelude.{◌≡◌, length, MatchResult};
ghost use Rattle.medium.specs.Calls.{burning, sectors_after};
ghost use Rattle.medium.specs.Runs.{BurntInOrder};

use crate::faults::Fault;
use crate::interface::{Image, Medium, Verdict};
use std::alloc::{AllocError, Global};

// A burn that is asked for: the sector, and the bytes that it is to hold.
#[derive(Clone, Copy)]
pub struct Burn {
    pub sector: u32,
    pub image: Image,
}

// Asks for the burns in order, and notes what each of them answered.
// Memory for the answers is taken first, so that want of it leaves the medium as it was.
pub fn burn_all<M: Medium>(
    heap: Global,
    medium: &mut M,
    burns: &[Burn],
) -> Result<Vec<Result<Verdict, Fault>>, AllocError>
    ensures { MatchResult result (λ v. BurntInOrder (M.Medium.sectors medium.old) burns.now v.items (M.Medium.sectors medium.new)) (λ _. medium.new ≡ medium.old) }
{
    let mut answers = Vec::with_capacity(heap, burns.len())?;
    for burn in burns {
        answers.push_reserved(ask(medium, burn));
    }
    Ok(answers)
}

fn ask<M: Medium>(medium: &mut M, burn: &Burn) -> Result<Verdict, Fault>
    ensures answer { result ≡ burning (M.Medium.sectors medium.old) burn.now.sector (length burn.now.image) }
    ensures after { M.Medium.sectors medium.new ≡ sectors_after (M.Medium.sectors medium.old) burn.now.sector burn.now.image }
{
    medium.burn(burn.sector, &burn.image)
}
