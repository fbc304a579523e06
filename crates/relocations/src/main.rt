// A cartridge of Format A with weak homes: their blocks go to spares, and each spare says for which home it stands.
#![tactic(auto)]

use anyhow::anyhow;
use format::{BLOCK_BYTES, Format, Sheet, address_of};
use medium::{Fault, IMAGE_BYTES, Medium, Reading};
use plate::{CELL_BYTES, Flaw, Plate};
use pointers_format::FormatA;
use std::fmt;

// Ten tracks of 31 sectors.
const POINTERS_SECTORS: u32 = 310;

// The home of block 0 with all spares of its group, and the home of block 40.
const FLAWS: [Flaw; 3] = [
    Flaw {
        offset: 93,
        length: 1,
    },
    Flaw {
        offset: 133,
        length: 5,
    },
    Flaw {
        offset: 138,
        length: 1,
    },
];

const BLOCKS: [u32; 2] = [0, 40];

fn main(rt: HostRuntime) -> anyhow::Result<()> {
    print_relocations(&rt)
}

fn print_relocations(rt: &HostRuntime) -> anyhow::Result<()> {
    let heap = rt.alloc();
    let memory = vec![in heap; 0u8; CELL_BYTES * POINTERS_SECTORS as usize]?;
    let mut plate = match Plate::open(memory, FLAWS.to_vec(heap)?, POINTERS_SECTORS) {
        Ok(plate) => plate,
        Err(_) => return Err(anyhow!("the plate cannot be opened")),
    };
    let format = or_report(rt, FormatA::initialise(&mut plate, &pointers_sheet()))?;
    let blocks = format.block_count();
    println!(rt; "Format A on a plate with the sectors 93 and 133 to 138 weak: {blocks} blocks")?;
    for block in &BLOCKS {
        or_report(rt, store(&format, &mut plate, *block))?;
        print_block(rt, &format, &plate, *block)?;
    }
    or_report(rt, FormatA::mount(&plate))?;
    println!(rt; "  mounted again: every link is valid")?;
    Ok(())
}

// Stores a block of its own number, if it is one of an unwritten block.
fn store(format: &FormatA, plate: &mut Plate, block: u32) -> Result<(), Fault> {
    if block >= format.block_count() {
        return Ok(());
    }
    let mut image = [0; IMAGE_BYTES];
    if plate.read(format.home_of(block), &mut image)? != Reading::Blank {
        return Ok(());
    }
    format.store(plate, block, &[(block & 0xFF) as u8; BLOCK_BYTES])
}

// Where the block rests, and the pointers beside it.
fn print_block(
    rt: &HostRuntime,
    format: &FormatA,
    plate: &Plate,
    block: u32,
) -> anyhow::Result<()> {
    if block >= format.block_count() {
        return Ok(());
    }
    let home = format.home_of(block);
    match or_report(rt, format.linked_spare(plate, home))? {
        Some(spare) => print_spare(rt, plate, block, home, spare),
        None => {
            println!(rt; "  block {block}: in its home {home}")?;
            Ok(())
        }
    }
}

fn print_spare(
    rt: &HostRuntime,
    plate: &Plate,
    block: u32,
    home: u32,
    spare: u32,
) -> anyhow::Result<()> {
    let mut image = [0; IMAGE_BYTES];
    or_report(rt, plate.read(spare, &mut image))?;
    let Some(place) = address_of::<FormatA>(spare) else {
        return Err(anyhow!("a spare past the last track"));
    };
    let pointers = Bytes(&image[BLOCK_BYTES..IMAGE_BYTES]);
    println!(rt;
        "  block {block}: its home {home} is weak, it rests in {spare} ({place}), which ends {pointers}"
    )?;
    Ok(())
}

// Two groups of 40 homes and 5 spares, and a track of secondary spares behind them. Each program has its own example:
// a crate for eleven numbers would be no plainer.
fn pointers_sheet() -> Sheet {
    let mut sheet = [0xFF; 512];
    sheet[0..14].copy_from_slice(&[0x0A, 0x0A, 3, 0x10, 0, 2, 0, 0, 0, 40, 0, 0, 0, 5]);
    sheet[30..38].copy_from_slice(&[0, 0, 0, 6, 0, 0, 0, 31]);
    sheet
}

// Bytes in hexadecimal. Sector numbers are told otherwise in the other program: no common form.
#[derive(Drop)]
struct Bytes<'a>(&'a [u8]);

impl fmt::Display for Bytes<'_> {
    fn fmt<W: fmt::Write>(&self, f: &mut fmt::Formatter<W>) -> fmt::Result {
        for (i, byte) in self.0.iter().enumerate() {
            if i > 0 {
                write!(f, " ")?;
            }
            write!(f, "{byte:02X}")?;
        }
        Ok(())
    }
}

// What a call answered, or a report of why it was refused.
fn or_report<T>(rt: &HostRuntime, answer: Result<T, Fault>) -> anyhow::Result<T> {
    match answer {
        Ok(value) => Ok(value),
        Err(fault) => {
            println!(rt; "{fault}")?;
            Err(anyhow!("a call was refused"))
        }
    }
}
