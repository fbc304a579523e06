// The bytes of a roll: a verdict for each sector, and then a slot for each sector that can be burnt.
// Until they are known to be a roll's they go with a bare count; from then on methods of Roll read them.
ghost use Rattle.std.specs.Prelude.{◌≡◌, ℕ, ◌+◌, ◌*◌, ◌≤◌, length, replicate, Decides, MatchOption, None};
ghost use Rattle.roll.specs.Rolls.{RollFormed};
ghost use Rattle.roll.specs.Slots.{Filled, Verdicts, with_slot};

use medium::{IMAGE_BYTES, four_at};

pub(crate) const NUMBER_BYTES: usize = 4;

const SLOT_BYTES: usize = NUMBER_BYTES + IMAGE_BYTES;

// A verdict and a slot.
pub const BYTES_A_SECTOR: usize = 1 + SLOT_BYTES;

pub(crate) const WEAK: u8 = 1;

// What stands in an unused slot in place of a sector's number.
const UNUSED: u32 = 0xFFFF_FFFF;

// Whether each verdict says sound or weak.
fn are_verdicts(memory: &[u8], count: u32) -> bool
    requires { count ≤ length memory.now }
    ensures { Decides result (Verdicts memory.now count) }
{
    memory[..count as usize]
        .iter()
        .all(|verdict| *verdict <= WEAK)
}

// Where a slot of a roll of `count` sectors begins.
pub(crate) fn slot_at(count: u32, slot: u32) -> usize
    ensures { result ≡ count + 528 * slot }
{
    count as usize + SLOT_BYTES * slot as usize
}

// Writes the sector's number and its image into the slot that begins at `at`.
// The image is a slice, as the interface of a medium hands it over.
pub(crate) fn write_slot(memory: &mut [u8], at: usize, sector: u32, image: &[u8])
    requires { (at + 528 ≤ length memory.old) × (length image.now ≡ 524) }
    ensures { memory.new ≡ with_slot memory.old at sector image.now }
{
    memory[at..at + NUMBER_BYTES].copy_from_slice(&sector.to_be_bytes());
    memory[at + NUMBER_BYTES..at + SLOT_BYTES].copy_from_slice(image);
}

// Notes in an empty index which slot holds each sector, and answers how many slots are used;
// none, where the verdicts or the slots break their form.
pub(crate) fn fill_index(memory: &[u8], index: &mut [Option<u32>], count: u32) -> Option<u32>
    requires { (length memory.now ≡ 529 * count) × (count ≤ 640064) × (index.old ≡ replicate count None) }
    ensures { MatchOption result (RollFormed memory.now count → ⊥) (λ u. Verdicts memory.now count × Filled memory.now count count index.new u) }
{
    if !are_verdicts(memory, count) {
        return None;
    }
    let mut used = 0;
    // By number and not by `chunks_exact`: the index keeps a slot's number, and slot_at alone says where it begins.
    for slot in 0..count {
        let number = four_at(memory, slot_at(count, slot));
        if number == UNUSED {
            continue;
        }
        if number >= count || used != slot || index[number as usize].is_some() {
            return None;
        }
        index[number as usize] = Some(slot);
        used += 1;
    }
    Some(used)
}
