// The parts into which a layout divides a medium, for a person to read.
ghost use Rattle.std.specs.Prelude.{Some};
ghost use Rattle.pointers.specs.Words.{purpose_in_words};

use std::fmt;

// What an area is for; groups are numbered from 0 on. Another format has other uses, so each has a type of its own.
#[derive(Clone, Copy, PartialEq, Eq, Debug)]
pub enum Purpose {
    // The tracks that hold the copies of the layout, and no block.
    Copies,
    Secondary,
    Homes(u32),
    Spares(u32),
    Unused,
}

impl fmt::Display for Purpose {
    ghost output = { λ purpose. Some (purpose_in_words purpose) };

    fn fmt<W: fmt::Write>(&self, f: &mut fmt::Formatter<W>) -> fmt::Result {
        match self {
            Purpose::Copies => write!(f, "copies of the layout"),
            Purpose::Secondary => write!(f, "secondary spares"),
            Purpose::Homes(group) => write!(f, "homes of group {group}"),
            Purpose::Spares(group) => write!(f, "spares of group {group}"),
            Purpose::Unused => write!(f, "not used"),
        }
    }
}

// An area by its first and its last sector.
#[derive(Clone, Copy, PartialEq, Eq, Debug)]
pub struct Area {
    pub first: u32,
    pub last: u32,
    pub purpose: Purpose,
}
