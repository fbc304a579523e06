// The copies of the layout: burnt when a medium is initialised, and read when it is mounted.
ghost use Rattle.std.specs.Prelude.{◌≡◌, ◌≤◌, true, ◌++◌, length, None, Ok};
ghost use Rattle.format.specs.Sectors.{lowest_from, some_free};
ghost use Rattle.pointers_format.specs.Copies.{copies, copy_image};
ghost use Rattle.pointers_format.specs.Initialising.{with_copies};
ghost use Rattle.pointers_format.specs.Mounting.{geometry_of};
ghost use Rattle.pointers.specs.Rules.{fits_format, last_track};

use crate::pointer::image_of;
use format::{burn_copies, find_copy};
use medium::{Fault, Image, Layer, Medium, Refusal};
use pointers::{Pointers, SECTORS_A_TRACK, fits_format, last_track};

// Where the copies stand on a medium of so many sectors.
#[tactic(auto, unfolding(crate::specs::Copies::copies))]
fn copies(sectors: u32) -> [u32; 4]
    requires { fits_format sectors ≡ true }
    ensures { result ≡ copies (last_track sectors) }
{
    let last = last_track(sectors);
    [
        0,
        SECTORS_A_TRACK + 15,
        SECTORS_A_TRACK * (last - 2),
        SECTORS_A_TRACK * (last - 1) + 15,
    ]
}

// What is burnt into each of them: the sheet, and (FF) where pointers would stand.
fn copy_image(geometry: &Pointers) -> Image
    ensures { result ≡ copy_image geometry.now.layout }
{
    image_of(&geometry.write(), [0xFF; 12])
}

// Burns the sheet into all four sectors of a blank medium; whether one of them proves sound. Layout and medium go side by
// side, as in storing.rt.
#[tactic(auto, using(crate::specs::Begun::copies_apart, pointers::proofs::Ruled::size_held), unfolding(crate::specs::Initialising::with_copies))]
pub(crate) fn burn_sheet<M: Medium>(geometry: &Pointers, medium: &mut M) -> Result<bool, Fault>
    requires sized { length (M.Medium.sectors medium.old) ≡ geometry.now.sectors }
    requires blank { lowest_from 0 (M.Medium.sectors medium.old) ≡ None }
    ensures answer { result ≡ Ok (some_free (M.Medium.sectors medium.old) (copies (last_track geometry.now.sectors))) }
    ensures after { M.Medium.sectors medium.new ≡ with_copies geometry.now (M.Medium.sectors medium.old) }
{
    burn_copies(
        medium,
        &copies(geometry.sector_count()),
        &copy_image(geometry),
    )
}

// The geometry of a medium, by the first sound copy.
#[tactic(auto, using(crate::specs::Begun::copies_inside, pointers::proofs::Ruled::sized), unfolding(crate::specs::Mounting::geometry_of))]
pub(crate) fn read_geometry<M: Medium>(medium: &M) -> Result<Pointers, Fault>
    ensures { result ≡ geometry_of (M.Medium.sectors medium.now) }
{
    let sectors = medium.count();
    if !fits_format(sectors) {
        return Err(Layer::Format.refuses(Refusal::WrongSectorCount, 0));
    }
    let Some(copy) = find_copy(medium, &copies(sectors))? else {
        return Err(Layer::Format.refuses(Refusal::NoSoundLayout, 0));
    };
    let (_, image) = copy;
    Pointers::read(sectors, image.first_chunk().unwrap())
}
