// Single sectors, by what a format asks of them. The medium's faults pass up whole. That a sector is one of the medium's
// each format knows by its layout; a medium tests it again, so no type keeps it.
ghost use Rattle.std.specs.Prelude.{◌≡◌, ◌<◌, true, not, length, Ok};
ghost use Rattle.format.specs.Blocks.{blank_at};
ghost use Rattle.format.specs.Sectors.{shows, sound_image};
ghost use Rattle.medium.specs.Calls.{sectors_after};
ghost use Rattle.medium.specs.Sectors.{sector_at};

use medium::{Fault, IMAGE_BYTES, Image, Medium, Reading, Verdict};

// Whether this is what the sector shows.
pub fn shows<M: Medium>(medium: &M, sector: u32, wanted: Reading) -> Result<bool, Fault>
    requires { sector < length (M.Medium.sectors medium.now) }
    ensures { result ≡ Ok (shows (M.Medium.sectors medium.now) sector wanted) }
{
    let mut image = [0; IMAGE_BYTES];
    let shown = medium.read(sector, &mut image)?;
    Ok(shown == wanted)
}

// The bytes of the sector, if it is sound.
pub fn read_sound<M: Medium>(medium: &M, sector: u32) -> Result<Option<Image>, Fault>
    requires { sector < length (M.Medium.sectors medium.now) }
    ensures { result ≡ Ok (sound_image (M.Medium.sectors medium.now) sector) }
{
    let mut image = [0; IMAGE_BYTES];
    let shown = medium.read(sector, &mut image)?;
    if shown == Reading::Sound {
        return Ok(Some(image));
    }
    Ok(None)
}

// Burns a blank sector; whether it proves sound. No `Verdict`: who calls asks only that, and `|` gathers the answers.
pub fn burn_blank<M: Medium>(medium: &mut M, sector: u32, image: &Image) -> Result<bool, Fault>
    requires inside { sector < length (M.Medium.sectors medium.old) }
    requires blank { blank_at (M.Medium.sectors medium.old) sector ≡ true }
    ensures answer { result ≡ Ok (not (sector_at (M.Medium.sectors medium.old) sector).weak) }
    ensures after { M.Medium.sectors medium.new ≡ sectors_after (M.Medium.sectors medium.old) sector image.now }
{
    Ok(medium.burn(sector, image)? == Verdict::Sound)
}
