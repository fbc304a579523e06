// The links: each sound spare names the home that it stands for.
ghost use Rattle.std.specs.Prelude.{◌≡◌, ◌<◌, true, false, not, length, Ok, slice_index_or, slice_set};
ghost use mathlib.Core.List.{Memᴰ};
ghost use Rattle.format.specs.Blocks.{spare_of};
ghost use Rattle.format.specs.Sectors.{image_at};
ghost use Rattle.pointers_format.specs.Linking.{faulty, links, marks_with, named_by, names, passes_unless, points_well};
ghost use Rattle.pointers_format.specs.Mounting.{links_checked};
ghost use Rattle.pointers.specs.Spares.{all_spares};

use crate::pointer::{has_tail, spare_tail, target};
use format::{read_sound, shows};
use medium::{Fault, Image, Layer, Medium, Reading, Refusal};
use pointers::Pointers;

// No medium of this format has more sectors.
const MOST_SECTORS: usize = 620_000;

// A mark for each sector. No set on the heap, since mounting must not want memory.
type Marks = [bool; MOST_SECTORS];

// Marks the home; whether it was not marked before.
fn mark(named: &mut Marks, home: usize) -> bool
    requires { home < 620000 }
    ensures answer { result ≡ not (slice_index_or named.old home false) }
    ensures after { named.new ≡ slice_set named.old home true }
{
    let marked = named[home];
    named[home] = true;
    !marked
}

// Whether the spare is sound and names the home.
#[tactic(auto, unfolding(crate::specs::Linking::names, crate::specs::Linking::named_by))]
fn is_named<M: Medium>(medium: &M, spare: u32, home: u32) -> Result<bool, Fault>
    requires { spare < length (M.Medium.sectors medium.now) }
    ensures { result ≡ Ok (names (M.Medium.sectors medium.now) spare home) }
{
    match read_sound(medium, spare)? {
        Some(image) => Ok(target(&image) == home),
        None => Ok(false),
    }
}

// A layout, and a medium of its size.
#[derive(Drop)]
pub(crate) struct OnMedium<'a, M: Medium> {
    pub(crate) geometry: &'a Pointers,
    pub(crate) medium: &'a M,
    ghost sized: { length (M.Medium.sectors medium.now) ≡ geometry.now.sectors },
}

impl<M: Medium> OnMedium<'_, M> {
    // Whether a sound spare with this image points to itself, and twice to a spoiled home that it may stand for.
    #[tactic(auto, using(crate::specs::Mounted::spare_inside, crate::specs::Mounted::few_sectors, crate::proofs::Checking::may_inside), unfolding(crate::specs::Linking::points_well, crate::specs::Linking::named_by))]
    fn points_well(&self, spare: u32, image: &Image) -> Result<bool, Fault>
        requires listed { Memᴰ spare (all_spares self.now.geometry.now.layout) }
        requires shown { image.now ≡ image_at (M.Medium.sectors self.now.medium.now) spare }
        ensures { result ≡ Ok (points_well self.now.geometry.now.layout (M.Medium.sectors self.now.medium.now) spare) }
    {
        let home = target(image);
        if !self.geometry.may_replace(spare, home) {
            return Ok(false);
        }
        if !has_tail(image, spare_tail(spare, home)) {
            return Ok(false);
        }
        shows(self.medium, home, Reading::Spoiled)
    }

    // Whether the spare is unsound, or a valid link to a home that is not marked yet; that home is then marked.
    #[tactic(auto, using(crate::specs::Mounted::spare_inside, crate::proofs::Checking::well_inside), unfolding(crate::specs::Linking::named_by))]
    fn check_link(&self, spare: u32, named: &mut Marks) -> Result<bool, Fault>
        requires { Memᴰ spare (all_spares self.now.geometry.now.layout) }
        ensures answer { result ≡ Ok (passes_unless self.now.geometry.now.layout (M.Medium.sectors self.now.medium.now) (slice_index_or named.old (named_by (M.Medium.sectors self.now.medium.now) spare) false) spare) }
        ensures marked { result ≡ Ok true → named.new ≡ marks_with (M.Medium.sectors self.now.medium.now) named.old spare }
    {
        let Some(image) = read_sound(self.medium, spare)? else {
            return Ok(true);
        };
        if !self.points_well(spare, &image)? {
            return Ok(false);
        }
        Ok(mark(named, target(&image) as usize))
    }

    // Checks every spare, the lowest first. Homes are marked as they are named, so that no spare is held against all others.
    pub(crate) fn check_links(&self) -> Result<(), Fault>
        ensures { result ≡ links_checked (faulty self.now.geometry.now.layout (M.Medium.sectors self.now.medium.now)) }
    {
        let mut named = [false; MOST_SECTORS];
        for spare in self.geometry.spares() {
            if !self.check_link(spare, &mut named)? {
                return Err(Layer::Format.refuses(Refusal::FaultyLink, spare));
            }
        }
        Ok(())
    }

    // The spare that is linked to the home, if one is.
    #[tactic(auto, using(crate::specs::Linked::found_step), unfolding(crate::specs::Linking::links))]
    pub(crate) fn find_spare(&self, home: u32) -> Result<Option<u32>, Fault>
        ensures { result ≡ Ok (spare_of (links self.now.geometry.now.layout (M.Medium.sectors self.now.medium.now)) home) }
    {
        for spare in self.geometry.spares() {
            if is_named(self.medium, spare, home)? {
                return Ok(Some(spare));
            }
        }
        Ok(None)
    }
}
