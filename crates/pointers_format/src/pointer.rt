// The twelve bytes beside a block: three pointers to sectors.
ghost use Rattle.std.specs.Prelude.{◌≡◌, ◌<◌, ◌++◌, length, drop};
ghost use Rattle.pointers_format.specs.Pointing.{home_tail, pointer_to, pointer_to_first, spare_tail, target};
ghost use Rattle.pointers.specs.Places.{blocks, home};
ghost use Rattle.pointers.specs.Spares.{spares_of};
ghost use Rattle.std.specs.Str.{bytes_eq};

use crate::format_a::FormatA;
use format::{BLOCK_BYTES, Block, address_of};
use medium::{IMAGE_BYTES, Image, two_at};
use pointers::{Pointers, SECTORS_A_TRACK};

const FILLER: u8 = 0xFF;

// The bytes of one pointer, and those of all three.
type Pointer = [u8; 4];

pub(crate) type Tail = [u8; 12];

// Two bytes of track, one for the place on it, and (FF). What is required of a sector's number its caller knows; a type
// for such numbers would have to be made anew wherever one is read or counted.
fn pointer_to(sector: u32) -> Pointer
    requires { sector < 620000 }
    ensures { result ≡ pointer_to sector }
{
    let address = address_of::<FormatA>(sector).unwrap();
    let [high, low] = (address.track as u16).to_be_bytes();
    [high, low, address.sector as u8, FILLER]
}

// A pointer to the sector itself, and twice one to another. Byte by byte: cutting slices would say no more.
fn tail_of(own: Pointer, other: Pointer) -> Tail
    ensures { result ≡ own ++ (other ++ other) }
{
    let [a, b, c, d] = own;
    let [e, f, g, h] = other;
    [a, b, c, d, e, f, g, h, e, f, g, h]
}

// A spare points to itself, and twice to the home.
#[tactic(auto, unfolding(crate::specs::Pointing::spare_tail))]
pub(crate) fn spare_tail(spare: u32, home: u32) -> Tail
    requires { (spare < 620000) × (home < 620000) }
    ensures { result ≡ spare_tail spare home }
{
    tail_of(pointer_to(spare), pointer_to(home))
}

// The pointer to the first spare of a block, or (FF) where it has none.
fn pointer_to_spare(geometry: &Pointers, block: u32) -> Pointer
    requires { block < blocks geometry.now.layout }
    ensures { result ≡ pointer_to_first (spares_of geometry.now.layout block) }
{
    match geometry.candidates(block).next() {
        Some(spare) => pointer_to(spare),
        None => [FILLER; 4],
    }
}

// A home points to itself, and twice to its first spare.
#[tactic(auto, using(crate::specs::Mounted::few_sectors, crate::specs::Mounted::home_inside), unfolding(crate::specs::Pointing::home_tail))]
pub(crate) fn home_tail(geometry: &Pointers, block: u32) -> Tail
    requires { block < blocks geometry.now.layout }
    ensures { result ≡ home_tail (home geometry.now.layout block) (spares_of geometry.now.layout block) }
{
    tail_of(
        pointer_to(geometry.home_of(block)),
        pointer_to_spare(geometry, block),
    )
}

// A sector's image: a block, and the bytes beside it.
pub(crate) fn image_of(bytes: &Block, tail: Tail) -> Image
    ensures { result ≡ bytes.now ++ tail }
{
    let mut image = [0; IMAGE_BYTES];
    image[..BLOCK_BYTES].copy_from_slice(bytes);
    image[BLOCK_BYTES..].copy_from_slice(&tail);
    image
}

// The sector to which the second pointer of an image leads; whether there is such a sector is another matter.
#[tactic(auto, unfolding(crate::specs::Pointing::target))]
pub(crate) fn target(image: &Image) -> u32
    ensures { result ≡ target image.now }
{
    let track = u32::from(two_at(image, 516));
    track * SECTORS_A_TRACK + u32::from(image[518])
}

pub(crate) fn has_tail(image: &Image, tail: Tail) -> bool
    ensures { result ≡ bytes_eq (drop 512 image.now) tail }
{
    image[BLOCK_BYTES..] == tail[..]
}
