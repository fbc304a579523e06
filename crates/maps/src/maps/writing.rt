// Writing a layout into its sheet.
ghost use Rattle.std.specs.Prelude.{◌≡◌, Ok};
ghost use Rattle.maps.specs.Places.{sectors_for};
ghost use Rattle.maps.specs.Reading.{reading_layout};
ghost use Rattle.maps.specs.Sheets.{sheet_of};

use crate::maps::Maps;
use crate::sheet::sheet_byte;
use format::Sheet;
use std::array;

impl Maps {
    // The sheet of this layout. Read for a medium of as many sectors, it gives the same layout.
    pub fn write(&self) -> Sheet
        ensures bytes { result ≡ sheet_of self.now.layout }
        ensures back { reading_layout (sectors_for self.now.layout.last) result ≡ Ok self.now.layout }
    {
        array::from_fn(|at| sheet_byte(&self.layout, at))
    }
}
