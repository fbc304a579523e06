// The cells of a plate: for each sector a mark, and then the bytes burnt there.
ghost use Rattle.std.specs.Prelude.{◌≡◌, ◌+◌, ◌*◌, ◌≤◌, length, Decides};
ghost use Rattle.plate.specs.Cells.{Marked, image_at, mark_at, with_image};

use medium::{IMAGE_BYTES, Image};

pub const CELL_BYTES: usize = IMAGE_BYTES + 1;

pub(crate) const BLANK: u8 = 0;

pub(crate) const BURNT: u8 = 1;

// The mark of a sector's cell, alone: opening asks for it of every sector.
pub(crate) fn mark_of(memory: &[u8], sector: u32) -> u8
    requires { 525 * sector + 525 ≤ length memory.now }
    ensures { result ≡ mark_at memory.now sector }
{
    memory[CELL_BYTES * sector as usize]
}

// The image behind the mark. The slice ends with the cell, so that no length is tested when it runs.
pub(crate) fn image_of(memory: &[u8], sector: u32) -> &Image
    requires { 525 * sector + 525 ≤ length memory.now }
    ensures { result.now ≡ image_at memory.now sector }
{
    let at = CELL_BYTES * sector as usize;
    memory[at + 1..at + CELL_BYTES].first_chunk().unwrap()
}

// Whether each mark says blank or burnt.
pub(crate) fn are_marked(memory: &[u8], count: u32) -> bool
    requires { 525 * count ≤ length memory.now }
    ensures { Decides result (Marked memory.now count) }
{
    (0..count).all(|sector| mark_of(memory, sector) <= BURNT)
}

// Writes the image into the sector's cell, and only then marks it as burnt. The image is a slice, as the interface hands it over.
pub(crate) fn fill_cell(memory: &mut [u8], sector: u32, image: &[u8])
    requires { (525 * sector + 525 ≤ length memory.old) × (length image.now ≡ 524) }
    ensures { memory.new ≡ with_image memory.old sector image.now }
{
    let at = CELL_BYTES * sector as usize;
    let cell = &mut memory[at..at + CELL_BYTES];
    cell[1..].copy_from_slice(image);
    cell[0] = BURNT;
}
