// Format B: which layouts are read, and where their areas and blocks lie.
use maps::{Maps, Purpose, SHEET_BYTES};
use std::alloc::{AllocError, Global};
use std::test::Fail;

// In an overflow band, in place of the first prime track and of the number of prime tracks.
const NONE: u16 = 0xFFFF;

// An entry of the sheet: where the map, the alternatives and the primes begin, and how many prime tracks there are.
type Entry = [u16; 4];

// A small cartridge: twenty tracks and two of layout, a band and an overflow band.
const EXAMPLE: [Entry; 2] = [[8, 4, 0, 4], [16, 12, NONE, NONE]];

const EXAMPLE_SECTORS: u32 = 704;

// A full-size cartridge with four bands and an overflow band.
const FULL: [Entry; 5] = [
    [9988, 4990, 0, 4990],
    [9992, 9984, 4994, 4990],
    [9996, 15002, 10012, 4990],
    [10000, 19996, 15006, 4990],
    [10004, 10008, NONE, NONE],
];

fn sheet(heap: Global, count: u8, entries: &[Entry]) -> Result<Vec<u8>, AllocError> {
    let mut sheet = vec![in heap; 0u8, 0u8]?;
    sheet.push(count)?;
    for entry in entries {
        for number in entry {
            sheet.extend_from_slice(&number.to_be_bytes())?;
        }
    }
    sheet.extend_from_slice(&[0xFF; 512])?;
    sheet.truncate(512);
    Ok(sheet)
}

// The number of the refusal that a sheet gets on a medium of so many sectors, or 0; 255 if it has not 512 bytes: the tests compare numbers alone.
fn refusal_for(sectors: u32, sheet: &[u8]) -> u8 {
    let Ok(sheet) = <&[u8; SHEET_BYTES]>::try_from(sheet) else {
        return 255;
    };
    match Maps::read(sectors, sheet) {
        Ok(_) => 0,
        Err(fault) => u8::from(fault.refusal),
    }
}

fn refusal_of(heap: Global, entries: &[Entry]) -> Result<u8, AllocError> {
    let count = if entries.len() == 1 { 1 } else { 2 };
    Ok(refusal_for(EXAMPLE_SECTORS, sheet(heap, count, entries)?.as_slice()))
}

#[test]
fn sizes(rt: HostRuntime) -> Result<(), Fail> {
    let heap = rt.alloc();
    let smallest = sheet(heap, 1, &[[5, 1, 0, 1]])?;
    assert_eq!(rt;
        refusal_for(32 * 10, smallest.as_slice()),
        6,
        "last track 7"
    );
    assert_eq!(rt;
        refusal_for(32 * 11, smallest.as_slice()),
        0,
        "last track 8"
    );
    assert_eq!(rt;
        refusal_for(32 * 11 + 1, smallest.as_slice()),
        6,
        "no whole track"
    );
    assert_eq!(rt;
        refusal_for(32 * 20_002, smallest.as_slice()),
        0,
        "last track 19,999"
    );
    assert_eq!(rt;
        refusal_for(32 * 20_003, smallest.as_slice()),
        6,
        "last track 20,000"
    );
    Ok(())
}

#[test]
fn rules(rt: HostRuntime) -> Result<(), Fail> {
    let heap = rt.alloc();
    assert_eq!(rt; refusal_of(heap, &EXAMPLE)?, 0, "the example");
    assert_eq!(rt;
        refusal_of(heap, &[[8, 4, 0, 4], [17, 12, NONE, NONE]])?,
        8,
        "a map past the end"
    );
    assert_eq!(rt;
        refusal_of(heap, &[[8, 3, 0, 4], [16, 12, NONE, NONE]])?,
        8,
        "an alternative in the primes"
    );
    assert_eq!(rt;
        refusal_of(heap, &[[8, 4, 0, 4], [7, 12, NONE, NONE]])?,
        8,
        "two maps overlap"
    );
    assert_eq!(rt;
        refusal_of(heap, &[[8, 4, 0, 0], [16, 12, NONE, NONE]])?,
        8,
        "a prime area of no track"
    );
    assert_eq!(rt;
        refusal_of(heap, &[[8, 4, NONE, 4], [16, 12, NONE, NONE]])?,
        8,
        "half an overflow band"
    );
    assert_eq!(rt;
        refusal_of(heap, &[[8, 4, 0, NONE], [16, 12, NONE, NONE]])?,
        8,
        "the other half"
    );
    assert_eq!(rt;
        refusal_of(heap, &[[8, 4, NONE, NONE]])?,
        8,
        "no prime area"
    );
    assert_eq!(rt;
        refusal_of(heap, &[[4, 8, 2, 1], [12, 16, 0, 1]])?,
        8,
        "prime areas that fall"
    );
    assert_eq!(rt;
        refusal_of(heap, &[[4, 8, 0, 1], [12, 16, 2, 1]])?,
        0,
        "prime areas that rise"
    );
    Ok(())
}

#[test]
fn counts(rt: HostRuntime) -> Result<(), Fail> {
    let heap = rt.alloc();
    let none = sheet(heap, 0, &EXAMPLE)?;
    assert_eq!(rt; refusal_for(EXAMPLE_SECTORS, none.as_slice()), 8, "no band");
    let nine = sheet(heap, 9, &EXAMPLE)?;
    assert_eq!(rt;
        refusal_for(EXAMPLE_SECTORS, nine.as_slice()),
        8,
        "nine bands"
    );
    let mut other = sheet(heap, 2, &EXAMPLE)?;
    assert!(rt; other.len() == 512);
    other[1] = 1;
    assert_eq!(rt;
        refusal_for(EXAMPLE_SECTORS, other.as_slice()),
        8,
        "another second byte"
    );
    Ok(())
}

// First and last track, band and use, in rising order.
const FULL_AREAS: [(u32, u32, u8, Purpose); 14] = [
    (0, 4989, 1, Purpose::Prime),
    (4990, 4993, 1, Purpose::Alternative),
    (4994, 9983, 2, Purpose::Prime),
    (9984, 9987, 2, Purpose::Alternative),
    (9988, 9991, 1, Purpose::Map),
    (9992, 9995, 2, Purpose::Map),
    (9996, 9999, 3, Purpose::Map),
    (10000, 10003, 4, Purpose::Map),
    (10004, 10007, 5, Purpose::Map),
    (10008, 10011, 5, Purpose::Alternative),
    (10012, 15001, 3, Purpose::Prime),
    (15002, 15005, 3, Purpose::Alternative),
    (15006, 19995, 4, Purpose::Prime),
    (19996, 19999, 4, Purpose::Alternative),
];

#[test]
fn full_size(rt: HostRuntime) -> Result<(), Fail> {
    let heap = rt.alloc();
    let sheet = sheet(heap, 5, &FULL)?;
    let Ok(sheet) = <&[u8; SHEET_BYTES]>::try_from(sheet.as_slice()) else {
        return Err(Fail::new("the sheet has not 512 bytes"));
    };
    let Ok(layout) = Maps::read(640_064, sheet) else {
        return Err(Fail::new("the full-size layout was refused"));
    };
    assert_eq!(rt; layout.block_count(), 4 * 4990 * 32);
    let areas = layout.areas(heap)?;
    assert_eq!(rt; areas.len(), FULL_AREAS.len());
    for (area, expected) in areas.iter().zip(FULL_AREAS.iter()) {
        let told = (area.first, area.last, area.band, area.purpose);
        assert_eq!(rt; told, *expected);
    }
    Ok(())
}

#[test]
fn example(rt: HostRuntime) -> Result<(), Fail> {
    let sheet = sheet(rt.alloc(), 2, &EXAMPLE)?;
    let Ok(sheet) = <&[u8; SHEET_BYTES]>::try_from(sheet.as_slice()) else {
        return Err(Fail::new("the sheet has not 512 bytes"));
    };
    let Ok(layout) = Maps::read(EXAMPLE_SECTORS, sheet) else {
        return Err(Fail::new("the example was refused"));
    };
    assert!(rt; layout.block_count() == 128);
    assert_eq!(rt; layout.home_of(33), 97);
    assert!(rt; layout.write().as_slice() == sheet.as_slice());
    Ok(())
}
