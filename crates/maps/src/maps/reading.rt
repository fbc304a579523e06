// Reading a layout from its sheet.
ghost use Rattle.std.specs.Prelude.{◌≡◌, MatchResult};
ghost use Rattle.maps.specs.Reading.{SheetRead, SheetRefused, fits_format, layout_answer, reading_layout};

use crate::bands::{SECTORS_PER_TRACK, TRACKS_BEFORE_END};
use crate::maps::Maps;
use crate::rules::is_valid;
use crate::sheet::{is_identified, layout_in};
use format::{Sheet, are_whole_tracks};
use medium::{Fault, Layer, Refusal};

// The tracks -2 to 8.
const LEAST_TRACKS: u32 = 11;

fn fits_format(sectors: u32) -> bool
    ensures { result ≡ fits_format sectors }
{
    are_whole_tracks::<Maps>(sectors, LEAST_TRACKS)
}

impl Maps {
    // The layout that a sheet gives to a medium of so many sectors, if they fit the format and it keeps the rules.
    pub fn read(sectors: u32, sheet: &Sheet) -> Result<Maps, Fault>
        ensures answer { layout_answer result ≡ reading_layout sectors sheet.now }
        ensures rules { MatchResult result (SheetRead sectors sheet.now) (SheetRefused sectors sheet.now) }
    {
        if !fits_format(sectors) {
            return Err(Layer::Format.refuses(Refusal::WrongSectorCount, 0));
        }
        let last = sectors / SECTORS_PER_TRACK - TRACKS_BEFORE_END;
        let layout = layout_in(last, sheet);
        if !(is_identified(sheet) && is_valid(&layout)) {
            return Err(Layer::Format.refuses(Refusal::BrokenLayout, 0));
        }
        Ok(Maps { layout })
    }
}
