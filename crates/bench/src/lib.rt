// The bench test of a medium: a list of burns is asked for, and each of them is read back and compared.
#![tactic(auto)]

pub mod agreement;
pub mod compare;
pub mod trial;

pub use agreement::agree;
pub use compare::{ReadBack, count_alike, read_back};
pub use trial::{Account, bench_test};
