// The format on a medium, by the sheet of its layout.
ghost use Rattle.std.specs.Prelude.{◌≡◌, ◌&&◌, Ok, MatchResult};
ghost use Rattle.pointers.specs.Reading.{SheetRead, SheetRefused, sheet_read};
ghost use Rattle.pointers.specs.Rules.{fits_format, last_track};
ghost use Rattle.pointers.specs.Sheets.{sheet_of};

use crate::layout::{LEAST_TRACKS, Layout, SECTORS_A_TRACK};
use crate::pointers::Pointers;
use format::{Sheet, are_whole_tracks};
use medium::{Fault, Layer, Refusal};

// The last track of a medium of so many sectors.
pub fn last_track(sectors: u32) -> u32
    ensures { result ≡ last_track sectors }
{
    (sectors / SECTORS_A_TRACK).saturating_sub(1)
}

// Whether a medium of so many sectors fits the format: whole tracks, neither too few nor too many.
pub fn fits_format(sectors: u32) -> bool
    ensures { result ≡ fits_format sectors }
{
    are_whole_tracks::<Pointers>(sectors, LEAST_TRACKS)
}

impl Pointers {
    // Reads the sheet of a layout for a medium of so many sectors.
    pub fn read(sectors: u32, sheet: &Sheet) -> Result<Pointers, Fault>
        ensures answer { result ≡ sheet_read sectors sheet.now }
        ensures meaning { MatchResult result (SheetRead sectors sheet.now) (SheetRefused sectors sheet.now) }
    {
        if !fits_format(sectors) {
            return Err(Layer::Format.refuses(Refusal::WrongSectorCount, 0));
        }
        let last = last_track(sectors);
        let layout = Layout::in_sheet(sheet);
        if !layout.stands(last, sheet) {
            return Err(Layer::Format.refuses(Refusal::BrokenLayout, 0));
        }
        Ok(Pointers { sectors, layout })
    }

    // The sheet of the layout; read for a medium of the same size, it gives the same again.
    pub fn write(&self) -> Sheet
        ensures bytes { result ≡ sheet_of self.now.layout }
        ensures back { sheet_read self.now.sectors result ≡ Ok self.now }
    {
        self.layout.to_sheet()
    }
}
