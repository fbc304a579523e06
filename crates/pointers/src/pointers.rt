// The format on a medium: how many sectors that has, and a layout that keeps the rules there.
ghost use Rattle.std.specs.Prelude.{◌≡◌, true};
ghost use Rattle.pointers.specs.Rules.{fits_format, last_track, layout_valid};

use crate::layout::Layout;

pub mod listing;
pub mod lists;
pub mod places;
pub mod reading;
pub mod spares;

#[derive(Clone, Copy, PartialEq, Eq, Debug)]
pub struct Pointers {
    sectors: u32,
    layout: Layout,
    ghost sized: { fits_format sectors ≡ true },
    ghost valid: { layout_valid (last_track sectors) layout ≡ true },
}
