// A whole bench test.
ghost use Rattle.bench.specs.Trials.{Tested};
ghost use Rattle.std.specs.Prelude.{◌≡◌, MatchResult};

use crate::compare::{ReadBack, read_back};
use medium::{Burn, Fault, Medium, Verdict, burn_all};
use std::alloc::{AllocError, Global};

// What each burn of the list answered, and what was then read where it was asked for. Two lists, since all burns are
// asked for before the first reading, and a list of pairs would want memory once more.
#[derive(Drop)]
pub struct Account {
    pub burnt: Vec<Result<Verdict, Fault>>,
    pub read: Vec<Result<ReadBack, Fault>>,
}

// Memory for the account is taken first, so that want of it leaves the medium as it was.
pub fn bench_test<M: Medium>(
    heap: Global,
    medium: &mut M,
    burns: &[Burn],
) -> Result<Account, AllocError>
    ensures { MatchResult result (λ a. Tested (M.Medium.sectors medium.old) burns.now a (M.Medium.sectors medium.new)) (λ _. medium.new ≡ medium.old) }
{
    let mut read = Vec::with_capacity(heap, burns.len())?;
    let burnt = burn_all(heap, medium, burns)?;
    for burn in burns {
        read.push_reserved(read_back(medium, burn));
    }
    Ok(Account { burnt, read })
}
