// Opening a roll on the caller's bytes, and closing it again.
ghost use Rattle.std.specs.Prelude.{length, MatchResult};
ghost use Rattle.roll.specs.Opening.{Closed, NotOpened, Opened, Rightly};
ghost use Rattle.roll.specs.Rolls.{RollSized};
ghost use Rattle.roll.specs.Slots.{Filled, Verdicts};

use crate::rolls::{Roll, Unopened, WhyNot};
use crate::slots::{BYTES_A_SECTOR, fill_index};
use medium::{Layer, Refusal, is_sized};
use std::alloc::Global;

impl Roll {
    // Takes the caller's bytes, whatever they hold, and hands them back with the reason if they are no roll's,
    // or if there is no memory for the index.
    pub fn open(heap: Global, memory: Vec<u8>, count: u32) -> Result<Roll, Unopened>
        ensures { MatchResult result (Opened memory count) (NotOpened memory count) }
    {
        match wind(heap, memory.as_slice(), count) {
            Ok((index, used)) => Ok(Roll {
                memory,
                index,
                used,
                count,
            }),
            Err(why) => Err(Unopened { why, memory }),
        }
    }

    // Hands back the bytes as they are now; they can be opened again.
    pub fn close(self) -> Vec<u8>
        ensures { Closed self result }
    {
        let Roll {
            memory,
            index: _,
            used: _,
            count: _,
        } = self;
        memory
    }
}

// Tries the size first, and then the form; answers the index, and how many slots are used.
// Memory for the index is taken in between, since the slots are tried with its help.
fn wind(heap: Global, memory: &[u8], count: u32) -> Result<(Vec<Option<u32>>, u32), WhyNot>
    ensures { MatchResult result (λ r. RollSized (length memory.now) count × Verdicts memory.now count × Filled memory.now count count r.0.items r.1) (Rightly memory.now count) }
{
    if !is_sized::<BYTES_A_SECTOR>(memory.len(), count) {
        return Err(Layer::Medium.refuses(Refusal::WrongMemory, 0).into());
    }
    let mut index = vec![in heap; None; count as usize]?;
    let broken = Layer::Medium.refuses(Refusal::BrokenForm, 0);
    let used = fill_index(memory, index.as_mut_slice(), count).ok_or(broken)?;
    Ok((index, used))
}
