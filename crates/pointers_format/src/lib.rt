// Format A, pointers, on any medium: a spare names the home that it stands for by pointers beside its block.
#![tactic(auto)]

pub mod calls;
pub mod copies;
pub mod format_a;
pub mod linking;
pub mod pointer;
pub mod storing;

pub use format_a::FormatA;
