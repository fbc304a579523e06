// The calls of the format, by what they answer and leave, and by what that means.
ghost use Rattle.std.specs.Prelude.{◌≡◌, ◌<◌, true, length, Ok, MatchResult};
ghost use Rattle.format.specs.Blocks.{blank_at, spare_of};
ghost use Rattle.format.specs.Laws.{on_its_medium, stored_on, storing};
ghost use Rattle.pointers_format.specs.Initialising.{InitialiseRefused, Initialised, initialised, initialising};
ghost use Rattle.pointers_format.specs.Meaning.{BlockStored, blocks_of, home_of, left_of, links_of, size_of, stored_of};
ghost use Rattle.pointers_format.specs.Mounting.{MountRefused, Mounted, mounting};

use crate::copies::{burn_sheet, read_geometry};
use crate::format_a::FormatA;
use crate::linking::OnMedium;
use crate::storing::place;
use format::{Block, Sheet};
use medium::{Fault, Layer, Medium, Refusal, lowest_burnt};
use pointers::Pointers;

impl FormatA {
    // Initialises a blank medium with the layout of the sheet.
    #[tactic(auto, using(crate::proofs::Meant::initialise_means, format::proofs::Copying::lowest_is, crate::specs::Mounted::sheet_good), unfolding(crate::specs::Initialising::initialising, crate::specs::Initialising::initialised))]
    pub fn initialise<M: Medium>(medium: &mut M, sheet: &Sheet) -> Result<FormatA, Fault>
        ensures answer { result ≡ initialising (M.Medium.sectors medium.old) sheet.now }
        ensures after { M.Medium.sectors medium.new ≡ initialised (M.Medium.sectors medium.old) sheet.now }
        ensures meaning { MatchResult result (Initialised (M.Medium.sectors medium.old) sheet.now (M.Medium.sectors medium.new)) (InitialiseRefused (M.Medium.sectors medium.old) sheet.now (M.Medium.sectors medium.new)) }
    {
        let geometry = Pointers::read(medium.count(), sheet)?;
        if let Some(sector) = lowest_burnt(medium)? {
            return Err(Layer::Format.refuses(Refusal::NotBlank, sector));
        }
        if !burn_sheet(&geometry, medium)? {
            return Err(Layer::Format.refuses(Refusal::LayoutNotBurnt, 0));
        }
        Ok(FormatA { geometry })
    }

    // Mounts a medium by its first sound copy of the layout.
    #[tactic(auto, using(crate::proofs::Meant::mount_means), unfolding(crate::specs::Mounting::mounting))]
    pub fn mount<M: Medium>(medium: &M) -> Result<FormatA, Fault>
        ensures answer { result ≡ mounting (M.Medium.sectors medium.now) }
        ensures meaning { MatchResult result (Mounted (M.Medium.sectors medium.now)) (MountRefused (M.Medium.sectors medium.now)) }
    {
        let geometry = read_geometry(medium)?;
        let on_medium = OnMedium {
            geometry: &geometry,
            medium,
        };
        on_medium.check_links()?;
        Ok(FormatA { geometry })
    }

    // Refuses a medium of another size than the layout's.
    fn fit<M: Medium>(&self, medium: &M) -> Result<(), Fault>
        ensures { result ≡ on_its_medium (size_of self.now) (M.Medium.sectors medium.now) (Ok tt) }
    {
        if medium.count() != self.geometry.sector_count() {
            return Err(Layer::Format.refuses(Refusal::WrongSectorCount, 0));
        }
        Ok(())
    }

    // Stores a block, or refuses it by 14 where no place was left to it. Apart from `store`, so that what that means is
    // shown once, whatever way this ends.
    fn record<M: Medium>(&self, medium: &mut M, block: u32, bytes: &Block) -> Result<(), Fault>
        requires there { block < blocks_of self.now }
        requires unwritten { blank_at (M.Medium.sectors medium.old) (home_of self.now block) ≡ true }
        ensures answer { result ≡ on_its_medium (size_of self.now) (M.Medium.sectors medium.old) (storing (left_of self.now (M.Medium.sectors medium.old) block) block) }
        ensures after { M.Medium.sectors medium.new ≡ stored_on (size_of self.now) (M.Medium.sectors medium.old) (stored_of self.now (M.Medium.sectors medium.old) block bytes.now) }
    {
        self.fit(medium)?;
        if !place(&self.geometry, medium, block, bytes)? {
            return Err(Layer::Format.refuses(Refusal::NoPlaceLeft, block));
        }
        Ok(())
    }

    // Stores a block whose home is blank.
    #[tactic(auto, using(crate::proofs::Meant::block_stored))]
    pub fn store<M: Medium>(&self, medium: &mut M, block: u32, bytes: &Block) -> Result<(), Fault>
        requires there { block < blocks_of self.now }
        requires unwritten { blank_at (M.Medium.sectors medium.old) (home_of self.now block) ≡ true }
        ensures answer { result ≡ on_its_medium (size_of self.now) (M.Medium.sectors medium.old) (storing (left_of self.now (M.Medium.sectors medium.old) block) block) }
        ensures after { M.Medium.sectors medium.new ≡ stored_on (size_of self.now) (M.Medium.sectors medium.old) (stored_of self.now (M.Medium.sectors medium.old) block bytes.now) }
        ensures meaning { BlockStored self.now (M.Medium.sectors medium.old) block bytes.now result (M.Medium.sectors medium.new) }
    {
        self.record(medium, block, bytes)
    }

    // The spare that is linked to the home, if one is.
    pub fn linked_spare<M: Medium>(&self, medium: &M, home: u32) -> Result<Option<u32>, Fault>
        ensures { result ≡ on_its_medium (size_of self.now) (M.Medium.sectors medium.now) (Ok (spare_of (links_of self.now (M.Medium.sectors medium.now)) home)) }
    {
        self.fit(medium)?;
        let on_medium = OnMedium {
            geometry: &self.geometry,
            medium,
        };
        on_medium.find_spare(home)
    }
}
