// Where a plate is just opened, and where just not; what a call of a wrong length or number is told.
use medium::{Fault, Layer, Medium, Reading, Refusal, Verdict, is_sized};
use plate::{CELL_BYTES, Flaw, Plate};
use std::alloc::{AllocError, Global};
use std::test::Fail;

// A line for each crate of tests: one for both would be a crate of its own.
fn flaw(offset: u32, length: u32) -> Flaw {
    Flaw { offset, length }
}

// The number of the refusal that a blank plate of `count` sectors with these flaws is opened with, or 0: the tests compare numbers alone.
fn refusal_for(heap: Global, flaws: &[Flaw], count: u8) -> Result<u8, AllocError> {
    let memory = vec![in heap; 0u8; CELL_BYTES * usize::from(count)]?;
    match Plate::open(memory, flaws.to_vec(heap)?, u32::from(count)) {
        Ok(_) => Ok(0),
        Err(unopened) => Ok(u8::from(unopened.fault.refusal)),
    }
}

#[test]
fn sizes(rt: HostRuntime) {
    assert!(rt; !is_sized::<CELL_BYTES>(0, 0));
    assert!(rt; is_sized::<CELL_BYTES>(525, 1));
    assert!(rt; !is_sized::<CELL_BYTES>(524, 1));
    assert!(rt; !is_sized::<CELL_BYTES>(526, 1));
    assert!(rt; is_sized::<CELL_BYTES>(525 * 640_064, 640_064));
    assert!(rt; !is_sized::<CELL_BYTES>(525 * 640_065, 640_065));
}

#[test]
fn flaw_lists(rt: HostRuntime) -> Result<(), Fail> {
    let heap = rt.alloc();
    assert_eq!(rt; refusal_for(heap, &[], 0)?, 1, "no sector");
    assert_eq!(rt; refusal_for(heap, &[], 1)?, 0, "one sector");
    assert_eq!(rt;
        refusal_for(heap, &[flaw(0, 2), flaw(2, 1)], 4)?,
        0,
        "touching"
    );
    assert_eq!(rt;
        refusal_for(heap, &[flaw(0, 3), flaw(2, 1)], 4)?,
        2,
        "overlapping"
    );
    assert_eq!(rt;
        refusal_for(heap, &[flaw(2, 1), flaw(0, 1)], 4)?,
        2,
        "out of order"
    );
    assert_eq!(rt; refusal_for(heap, &[flaw(1, 0)], 4)?, 2, "empty");
    assert_eq!(rt;
        refusal_for(heap, &[flaw(2, 2)], 4)?,
        0,
        "ends with the plate"
    );
    assert_eq!(rt;
        refusal_for(heap, &[flaw(2, 3)], 4)?,
        2,
        "ends past the plate"
    );
    assert_eq!(rt;
        refusal_for(heap, &[flaw(u32::MAX, u32::MAX)], 4)?,
        2,
        "ends past all numbers"
    );
    Ok(())
}

#[test]
fn flaw_counts(rt: HostRuntime) -> Result<(), Fail> {
    let heap = rt.alloc();
    let mut flaws = Vec::new(heap);
    for k in 0..64u32 {
        flaws.push(flaw(2 * k, 1))?;
    }
    assert_eq!(rt; refusal_for(heap, flaws.as_slice(), 200)?, 0, "64 flaws");
    flaws.push(flaw(128, 1))?;
    assert_eq!(rt; refusal_for(heap, flaws.as_slice(), 200)?, 2, "65 flaws");
    Ok(())
}

#[test]
fn marks(rt: HostRuntime) -> Result<(), Fail> {
    let heap = rt.alloc();
    let mut memory = vec![in heap; 7u8; 2 * CELL_BYTES]?;
    memory[0] = 1;
    memory[CELL_BYTES] = 2;
    match Plate::open(memory, Vec::new(heap), 2) {
        Ok(_) => Err(Fail::new("a mark of 2 was taken")),
        Err(unopened) => {
            assert_eq!(rt; unopened.fault.refusal, Refusal::BrokenForm);
            assert_eq!(rt; unopened.memory.len(), 2 * CELL_BYTES);
            Ok(())
        }
    }
}

// Written out, so that a medium that named another layer would be seen.
fn medium_fault(refusal: Refusal, place: u32) -> Fault {
    Fault {
        refusal,
        layer: Layer::Medium,
        place,
    }
}

fn burn_of(
    heap: Global,
    plate: &mut Plate,
    sector: u32,
    len: usize,
) -> Result<Result<Verdict, Fault>, AllocError> {
    let image = vec![in heap; 9u8; len]?;
    Ok(plate.burn(sector, image.as_slice()))
}

fn read_of(
    heap: Global,
    plate: &Plate,
    sector: u32,
    len: usize,
) -> Result<Result<Reading, Fault>, AllocError> {
    let mut image = vec![in heap; 0u8; len]?;
    Ok(plate.read(sector, image.as_mut_slice()))
}

#[test]
fn images(rt: HostRuntime) -> Result<(), Fail> {
    let heap = rt.alloc();
    let Ok(mut plate) = Plate::open(vec![in heap; 0u8; CELL_BYTES]?, Vec::new(heap), 1) else {
        return Err(Fail::new("a blank plate was refused"));
    };
    let wrong_length = medium_fault(Refusal::WrongLength, 0);
    assert_eq!(rt; burn_of(heap, &mut plate, 1, 523)?, Err(wrong_length));
    assert_eq!(rt; burn_of(heap, &mut plate, 0, 525)?, Err(wrong_length));
    assert_eq!(rt;
        burn_of(heap, &mut plate, 1, 524)?,
        Err(medium_fault(Refusal::NoSuchSector, 1))
    );
    assert_eq!(rt; read_of(heap, &plate, 0, 524)?, Ok(Reading::Blank));
    assert_eq!(rt; burn_of(heap, &mut plate, 0, 524)?, Ok(Verdict::Sound));
    assert_eq!(rt;
        burn_of(heap, &mut plate, 0, 524)?,
        Err(medium_fault(Refusal::AlreadyBurnt, 0))
    );
    assert_eq!(rt; read_of(heap, &plate, 0, 523)?, Err(wrong_length));
    assert_eq!(rt; read_of(heap, &plate, 0, 525)?, Err(wrong_length));
    assert_eq!(rt; read_of(heap, &plate, 0, 524)?, Ok(Reading::Sound));
    Ok(())
}
