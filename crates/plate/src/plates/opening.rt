// Opening a plate on the caller's bytes, and closing it again.
ghost use Rattle.plate.specs.Opening.{Closed, Opened, Refused};
ghost use Rattle.plate.specs.Plates.{PlateOpenable, PlateRefused};
ghost use Rattle.std.specs.Prelude.{MatchResult};

use crate::cells::{CELL_BYTES, are_marked};
use crate::flaws::{Flaw, are_formed};
use crate::plates::{Plate, Unopened};
use medium::{Fault, Layer, Refusal, is_sized};

impl Plate {
    // Takes the caller's bytes, whatever they hold, and hands them back with the fault if they are no plate's.
    #[tactic(auto, using(crate::specs::Sectored::length_plate, crate::specs::Sectored::plate_means))]
    pub fn open(memory: Vec<u8>, flaws: Vec<Flaw>, count: u32) -> Result<Plate, Unopened>
        ensures { MatchResult result (Opened memory flaws count) (Refused memory flaws count) }
    {
        match check(&memory, &flaws, count) {
            Ok(()) => Ok(Plate {
                memory,
                flaws,
                count,
            }),
            Err(fault) => Err(Unopened {
                fault,
                memory,
                flaws,
            }),
        }
    }

    // Hands back the bytes and the flaws as they are now; they can be opened again.
    pub fn close(self) -> (Vec<u8>, Vec<Flaw>)
        ensures { Closed self result.0 result.1 }
    {
        (self.memory, self.flaws)
    }
}

// Tries the size first, and then the form: one pass over the marks, and a few over the flaws.
fn check(memory: &[u8], flaws: &[Flaw], count: u32) -> Result<(), Fault>
    ensures { MatchResult result (λ _. PlateOpenable memory.now flaws.now count) (PlateRefused memory.now flaws.now count) }
{
    if !is_sized::<CELL_BYTES>(memory.len(), count) {
        return Err(Layer::Medium.refuses(Refusal::WrongMemory, 0));
    }
    if !are_marked(memory, count) || !are_formed(flaws, count) {
        return Err(Layer::Medium.refuses(Refusal::BrokenForm, 0));
    }
    Ok(())
}
