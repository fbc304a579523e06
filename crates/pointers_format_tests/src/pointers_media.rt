// Format A on a plate: what is refused, where, and what that leaves.
use format::{BLOCK_BYTES, Sheet};
use medium::{Fault, IMAGE_BYTES, Medium, lowest_burnt};
use plate::{CELL_BYTES, Flaw, Plate};
use pointers_format::FormatA;
use std::alloc::{AllocError, Global};
use std::test::Fail;

// Ten tracks of 31 sectors.
const EXAMPLE_SECTORS: u32 = 310;

// Two groups of 40 homes and 5 spares, and a track of secondary spares behind them. Tests have examples of their own.
fn example() -> Sheet {
    let mut sheet = [0xFF; BLOCK_BYTES];
    sheet[0..14].copy_from_slice(&[0x0A, 0x0A, 3, 0x10, 0, 2, 0, 0, 0, 40, 0, 0, 0, 5]);
    sheet[30..38].copy_from_slice(&[0, 0, 0, 6, 0, 0, 0, 31]);
    sheet
}

// A blank plate for the example, with some weak sectors; the flaws are the test's own and stand in order.
fn plate(heap: Global, flaws: &[Flaw]) -> Result<Option<Plate>, AllocError> {
    let memory = vec![in heap; 0u8; CELL_BYTES * EXAMPLE_SECTORS as usize]?;
    match Plate::open(memory, flaws.to_vec(heap)?, EXAMPLE_SECTORS) {
        Ok(plate) => Ok(Some(plate)),
        Err(_) => Ok(None),
    }
}

// A line for each crate of tests: one for both would be a crate of its own.
fn flaw(offset: u32, length: u32) -> Flaw {
    Flaw { offset, length }
}

// The number and the place of a refusal, or zeros: the tests compare numbers alone.
fn told<T: Drop>(answer: Result<T, Fault>) -> (u8, u32) {
    match answer {
        Ok(_) => (0, 0),
        Err(fault) => (u8::from(fault.refusal), fault.place),
    }
}

// The sheet, and then whatever is burnt by hand.
fn initialised(heap: Global, flaws: &[Flaw]) -> Result<Option<Plate>, AllocError> {
    let Some(mut plate) = plate(heap, flaws)? else {
        return Ok(None);
    };
    match FormatA::initialise(&mut plate, &example()) {
        Ok(_) => Ok(Some(plate)),
        Err(_) => Ok(None),
    }
}

#[test]
fn initialising(rt: HostRuntime) -> Result<(), Fail> {
    let heap = rt.alloc();
    let Some(mut used) = initialised(heap, &[])? else {
        return Err(Fail::new("the plate was not initialised"));
    };
    assert_eq!(rt;
        told(FormatA::initialise(&mut used, &example())),
        (9, 0),
        "twice"
    );
    Ok(())
}
