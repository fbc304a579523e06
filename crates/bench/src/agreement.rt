// Comparing two bench tests.
ghost use Rattle.std.specs.Prelude.{◌≡◌, Decides};
ghost use Rattle.bench.specs.Agreement.{AlwaysAgree, SameAccount};

use crate::compare::ReadBack;
use crate::trial::Account;
use medium::{Fault, Verdict};

// Whether every burn was answered and read back alike. Tests of the same burns on media whose sectors are the same
// always agree, whatever the media are.
pub fn agree(a: &Account, b: &Account) -> bool
    ensures exactly { Decides result (SameAccount a.now b.now) }
    ensures always { AlwaysAgree a.now b.now result }
{
    same_answers(&a.burnt, &b.burnt) && same_readings(&a.read, &b.read)
}

fn same_answers(a: &[Result<Verdict, Fault>], b: &[Result<Verdict, Fault>]) -> bool
    ensures { Decides result (a.now ≡ b.now) }
{
    a == b
}

fn same_readings(a: &[Result<ReadBack, Fault>], b: &[Result<ReadBack, Fault>]) -> bool
    ensures { Decides result (a.now ≡ b.now) }
{
    a == b
}
