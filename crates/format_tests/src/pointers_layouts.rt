// Format A: which layouts are read, and where their blocks lie.
use format::Sheet;
use pointers::{Pointers, SHEET_BYTES};
use std::test::Fail;

// In place of the first track of a secondary area: there is none.
const NONE: u32 = 0xFFFF_FFFF;

// What a sheet says, but for the bytes that are the same in all.
#[derive(Clone, Copy)]
struct Numbers {
    first_data_track: u8,
    groups: u16,
    homes: u32,
    spares: u32,
    start: u32,
    secondary: u32,
}

// A home and nothing else.
const SMALLEST: Numbers = Numbers {
    first_data_track: 3,
    groups: 1,
    homes: 1,
    spares: 0,
    start: NONE,
    secondary: 0,
};

// A small cartridge: ten tracks, two groups, a track of secondary spares behind them. Tests have examples of their own.
const EXAMPLE: Numbers = Numbers {
    first_data_track: 3,
    groups: 2,
    homes: 40,
    spares: 5,
    start: 6,
    secondary: 31,
};

const EXAMPLE_SECTORS: u32 = 310;

fn sheet(numbers: Numbers) -> Sheet {
    let mut sheet = [0xFFu8; SHEET_BYTES];
    sheet[0..4].copy_from_slice(&[0x0A, 0x0A, numbers.first_data_track, 0x10]);
    sheet[4..6].copy_from_slice(&numbers.groups.to_be_bytes());
    sheet[6..10].copy_from_slice(&numbers.homes.to_be_bytes());
    sheet[10..14].copy_from_slice(&numbers.spares.to_be_bytes());
    sheet[30..34].copy_from_slice(&numbers.start.to_be_bytes());
    sheet[34..38].copy_from_slice(&numbers.secondary.to_be_bytes());
    sheet
}

// The example's sheet with another byte at a place.
fn example_with(at: usize, byte: u8) -> Sheet {
    let mut sheet = sheet(EXAMPLE);
    if at < SHEET_BYTES {
        sheet[at] = byte;
    }
    sheet
}

// The number of the refusal that a sheet gets on a medium of so many sectors, or 0: the tests compare numbers alone.
fn refusal_for(sectors: u32, sheet: Sheet) -> u8 {
    match Pointers::read(sectors, &sheet) {
        Ok(_) => 0,
        Err(fault) => u8::from(fault.refusal),
    }
}

#[test]
fn sizes(rt: HostRuntime) {
    assert_eq!(rt; refusal_for(31 * 6, sheet(SMALLEST)), 6, "last track 5");
    assert_eq!(rt; refusal_for(31 * 7, sheet(SMALLEST)), 0, "last track 6");
    assert_eq!(rt;
        refusal_for(31 * 7 + 1, sheet(SMALLEST)),
        6,
        "no whole track"
    );
    assert_eq!(rt;
        refusal_for(31 * 20_000, sheet(SMALLEST)),
        0,
        "last track 19,999"
    );
    assert_eq!(rt;
        refusal_for(31 * 20_001, sheet(SMALLEST)),
        6,
        "last track 20,000"
    );
}

fn with_spares(spares: u32) -> Numbers {
    Numbers { spares, ..SMALLEST }
}

fn with_secondary(spares: u32) -> Numbers {
    Numbers {
        first_data_track: 36,
        spares,
        start: 3,
        secondary: 1023,
        ..SMALLEST
    }
}

#[test]
fn spares(rt: HostRuntime) {
    assert_eq!(rt;
        refusal_for(3100, sheet(with_spares(1024))),
        0,
        "1,024 spares of a group"
    );
    assert_eq!(rt;
        refusal_for(3100, sheet(with_spares(1025))),
        8,
        "1,025 spares of a group"
    );
    assert_eq!(rt;
        refusal_for(3100, sheet(with_secondary(1))),
        0,
        "1,023 secondary spares and one"
    );
    assert_eq!(rt;
        refusal_for(3100, sheet(with_secondary(2))),
        8,
        "1,023 secondary spares and two"
    );
}

fn example_at(start: u32, first_data_track: u8) -> Sheet {
    sheet(Numbers {
        first_data_track,
        start,
        ..EXAMPLE
    })
}

#[test]
fn secondary_areas(rt: HostRuntime) {
    assert_eq!(rt;
        refusal_for(EXAMPLE_SECTORS, example_at(6, 3)),
        0,
        "behind the groups"
    );
    assert_eq!(rt;
        refusal_for(EXAMPLE_SECTORS, example_at(3, 4)),
        0,
        "before the groups"
    );
    assert_eq!(rt;
        refusal_for(EXAMPLE_SECTORS, example_at(3, 3)),
        8,
        "byte 2 says another track"
    );
    assert_eq!(rt;
        refusal_for(EXAMPLE_SECTORS, example_at(5, 3)),
        8,
        "neither place"
    );
    assert_eq!(rt;
        refusal_for(EXAMPLE_SECTORS, example_at(NONE, 3)),
        8,
        "no start for 31 spares"
    );
}

#[test]
fn fixed_bytes(rt: HostRuntime) {
    for at in [0, 1, 2, 3, 14, 29] {
        assert_eq!(rt;
            refusal_for(EXAMPLE_SECTORS, example_with(at, 0)),
            8,
            "a fixed byte"
        );
    }
    for at in [38, 511] {
        assert_eq!(rt;
            refusal_for(EXAMPLE_SECTORS, example_with(at, 0)),
            0,
            "a byte that is ignored"
        );
    }
}

#[test]
fn counts(rt: HostRuntime) {
    assert_eq!(rt;
        refusal_for(EXAMPLE_SECTORS, example_with(5, 0)),
        8,
        "no group"
    );
    assert_eq!(rt;
        refusal_for(EXAMPLE_SECTORS, example_with(9, 0)),
        8,
        "no home"
    );
    assert_eq!(rt;
        refusal_for(EXAMPLE_SECTORS, example_with(5, 3)),
        8,
        "three groups do not fit"
    );
    assert_eq!(rt;
        refusal_for(EXAMPLE_SECTORS, example_with(37, 30)),
        8,
        "30 secondary spares"
    );
    assert_eq!(rt;
        refusal_for(EXAMPLE_SECTORS, example_with(37, 0)),
        8,
        "none, but a start"
    );
}

#[test]
fn example(rt: HostRuntime) -> Result<(), Fail> {
    let Ok(layout) = Pointers::read(EXAMPLE_SECTORS, &sheet(EXAMPLE)) else {
        return Err(Fail::new("the example was refused"));
    };
    assert!(rt; layout.block_count() == 80);
    assert_eq!(rt; layout.home_of(39), 132);
    assert_eq!(rt; layout.home_of(40), 138);
    assert!(rt; layout.write() == sheet(EXAMPLE));
    Ok(())
}
