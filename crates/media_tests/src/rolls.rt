// Where a roll is just opened, and where just not; how its last slots are used.
use medium::{Fault, Layer, Medium, Reading, Refusal, Verdict, is_sized};
use roll::{BYTES_A_SECTOR, Roll, WhyNot};
use std::alloc::{AllocError, Global};
use std::test::Fail;

// In place of a sector's number: the slot is not used.
const UNUSED: u32 = u32::MAX;

// The bytes of a roll with these verdicts, and with these numbers in its slots.
fn memory_of(heap: Global, verdicts: &[u8], numbers: &[u32]) -> Result<Vec<u8>, AllocError> {
    let mut memory = verdicts.to_vec(heap)?;
    for number in numbers {
        memory.extend_from_slice(&number.to_be_bytes())?;
        memory.extend_from_slice(&[7u8; 524])?;
    }
    Ok(memory)
}

// The number of the refusal that a roll of three sectors is opened with, or 0: the tests compare numbers alone.
fn refusal_for(heap: Global, verdicts: &[u8], numbers: &[u32]) -> Result<u8, AllocError> {
    match Roll::open(heap, memory_of(heap, verdicts, numbers)?, 3) {
        Ok(_) => Ok(0),
        Err(unopened) => match unopened.why {
            WhyNot::Refused(fault) => Ok(u8::from(fault.refusal)),
            WhyNot::NoMemory => Err(AllocError),
        },
    }
}

#[test]
fn sizes(rt: HostRuntime) {
    assert!(rt; !is_sized::<BYTES_A_SECTOR>(0, 0));
    assert!(rt; is_sized::<BYTES_A_SECTOR>(529, 1));
    assert!(rt; !is_sized::<BYTES_A_SECTOR>(528, 1));
    assert!(rt; !is_sized::<BYTES_A_SECTOR>(530, 1));
    assert!(rt; is_sized::<BYTES_A_SECTOR>(529 * 640_064, 640_064));
    assert!(rt; !is_sized::<BYTES_A_SECTOR>(529 * 640_065, 640_065));
}

#[test]
fn forms(rt: HostRuntime) -> Result<(), Fail> {
    let heap = rt.alloc();
    let sound = [0, 1, 0];
    assert_eq!(rt;
        refusal_for(heap, &sound, &[UNUSED, UNUSED])?,
        1,
        "a slot too few"
    );
    assert_eq!(rt;
        refusal_for(heap, &sound, &[UNUSED, UNUSED, UNUSED])?,
        0,
        "blank"
    );
    assert_eq!(rt;
        refusal_for(heap, &[0, 2, 0], &[UNUSED, UNUSED, UNUSED])?,
        2,
        "a verdict of 2"
    );
    assert_eq!(rt;
        refusal_for(heap, &sound, &[2, UNUSED, UNUSED])?,
        0,
        "the last sector"
    );
    assert_eq!(rt;
        refusal_for(heap, &sound, &[3, UNUSED, UNUSED])?,
        2,
        "a number equal to P"
    );
    assert_eq!(rt;
        refusal_for(heap, &sound, &[1, 1, UNUSED])?,
        2,
        "a number twice"
    );
    assert_eq!(rt;
        refusal_for(heap, &sound, &[UNUSED, 1, UNUSED])?,
        2,
        "behind an unused slot"
    );
    assert_eq!(rt; refusal_for(heap, &sound, &[2, 0, 1])?, 0, "full");
    Ok(())
}

fn burn_of(roll: &mut Roll, sector: u32) -> Result<Verdict, Fault> {
    roll.burn(sector, &[9u8; 524])
}

fn first_byte(roll: &Roll, sector: u32) -> Result<(Reading, u8), Fault> {
    let mut image = [0u8; 524];
    let reading = roll.read(sector, &mut image)?;
    Ok((reading, image[0]))
}

// Written out, so that a medium that named another layer would be seen.
fn already_burnt(sector: u32) -> Fault {
    Fault {
        refusal: Refusal::AlreadyBurnt,
        layer: Layer::Medium,
        place: sector,
    }
}

#[test]
fn last_free_slot(rt: HostRuntime) -> Result<(), Fail> {
    let heap = rt.alloc();
    let Ok(mut roll) = Roll::open(heap, memory_of(heap, &[0, 1, 0], &[1, 0, UNUSED])?, 3) else {
        return Err(Fail::new("a roll was not opened"));
    };
    assert_eq!(rt; first_byte(&roll, 0), Ok((Reading::Sound, 7)));
    assert_eq!(rt; first_byte(&roll, 1), Ok((Reading::Spoiled, 0)));
    assert_eq!(rt; first_byte(&roll, 2), Ok((Reading::Blank, 0)));
    assert_eq!(rt; burn_of(&mut roll, 0), Err(already_burnt(0)));
    assert_eq!(rt;
        burn_of(&mut roll, 2),
        Ok(Verdict::Sound),
        "the last free slot"
    );
    assert_eq!(rt; first_byte(&roll, 2), Ok((Reading::Sound, 9)));
    assert_eq!(rt; burn_of(&mut roll, 2), Err(already_burnt(2)), "a full roll");
    Ok(())
}
