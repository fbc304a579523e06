// The copies of a layout, burnt and found again.
ghost use Rattle.std.specs.Prelude.{◌≡◌, ◌<◌, true, not, ◌||◌, length, Ok};
ghost use Rattle.format.specs.Blocks.{blank_at};
ghost use Rattle.format.specs.Sectors.{AllBlank, AllInside, Apart, copy_burns, some_free, sound_copy};
ghost use Rattle.medium.specs.Calls.{sectors_after};
ghost use Rattle.medium.specs.Runs.{after_burns};
ghost use Rattle.medium.specs.Sectors.{sector_at};

use crate::sectors::{burn_blank, read_sound};
use medium::{Fault, Image, Medium};

// Burns one copy; whether it, or one before it, proves sound.
fn burn_copy<M: Medium>(
    medium: &mut M,
    sector: u32,
    image: &Image,
    any_sound: bool,
) -> Result<bool, Fault>
    requires inside { sector < length (M.Medium.sectors medium.old) }
    requires blank { blank_at (M.Medium.sectors medium.old) sector ≡ true }
    ensures answer { result ≡ Ok (any_sound || not (sector_at (M.Medium.sectors medium.old) sector).weak) }
    ensures after { M.Medium.sectors medium.new ≡ sectors_after (M.Medium.sectors medium.old) sector image.now }
{
    Ok(any_sound | burn_blank(medium, sector, image)?)
}

// Burns the image into all the sectors, in their order; whether one of them proves sound.
pub fn burn_copies<M: Medium>(medium: &mut M, sectors: &[u32], image: &Image) -> Result<bool, Fault>
    requires apart { Apart sectors.now }
    requires blank { AllBlank (M.Medium.sectors medium.old) sectors.now }
    ensures answer { result ≡ Ok (some_free (M.Medium.sectors medium.old) sectors.now) }
    ensures after { M.Medium.sectors medium.new ≡ after_burns (M.Medium.sectors medium.old) (copy_burns image.now sectors.now) }
{
    let mut any_sound = false;
    for &sector in sectors {
        any_sound = burn_copy(medium, sector, image, any_sound)?;
    }
    Ok(any_sound)
}

// The first sound one among the sectors, with its bytes.
pub fn find_copy<M: Medium>(medium: &M, sectors: &[u32]) -> Result<Option<(u32, Image)>, Fault>
    requires { AllInside (M.Medium.sectors medium.now) sectors.now }
    ensures { result ≡ Ok (sound_copy (M.Medium.sectors medium.now) sectors.now) }
{
    for &sector in sectors {
        if let Some(image) = read_sound(medium, sector)? {
            return Ok(Some((sector, image)));
        }
    }
    Ok(None)
}
