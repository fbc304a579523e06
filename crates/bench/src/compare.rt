// Reading one burn back.
ghost use Rattle.std.specs.Prelude.{◌≡◌};
ghost use Rattle.bench.specs.Trials.{alike, found_same, reading_back};

use medium::{Burn, Fault, IMAGE_BYTES, Medium, Reading};

// What stands in a sector, beside the bytes that a burn asked for.
#[derive(Clone, Copy, PartialEq, Eq, Debug)]
pub enum ReadBack {
    Blank,
    Spoiled,
    Same,
    Different,
}

pub fn read_back<M: Medium>(medium: &M, burn: &Burn) -> Result<ReadBack, Fault>
    ensures { result ≡ reading_back (M.Medium.sectors medium.now) burn.now }
{
    let mut image = [0; IMAGE_BYTES];
    match medium.read(burn.sector, &mut image)? {
        Reading::Blank => Ok(ReadBack::Blank),
        Reading::Spoiled => Ok(ReadBack::Spoiled),
        Reading::Sound if image == burn.image => Ok(ReadBack::Same),
        Reading::Sound => Ok(ReadBack::Different),
    }
}

// How many of the readings found the bytes that were asked for.
pub fn count_alike(readings: &[Result<ReadBack, Fault>]) -> usize
    ensures { result ≡ alike readings.now }
{
    readings.iter().filter(|reading| is_same(reading)).count()
}

fn is_same(reading: &Result<ReadBack, Fault>) -> bool
    ensures { result ≡ found_same reading.now }
{
    matches!(reading, Ok(ReadBack::Same))
}
