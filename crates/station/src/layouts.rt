// One layout of each format, by its areas in rising order, as a person would want to see them.
use anyhow::anyhow;
use format::{Address, Sheet, address_of};
use maps::Maps;
use pointers::Pointers;

// Ten tracks of 31 sectors.
const POINTERS_SECTORS: u32 = 310;

// Twenty tracks of 32 sectors, and two before them.
const MAPS_SECTORS: u32 = 704;

pub(crate) fn print_layouts(rt: &HostRuntime) -> anyhow::Result<()> {
    print_pointers(rt)?;
    print_maps(rt)
}

// Two groups of 40 homes and 5 spares, and a track of secondary spares behind them. Each program has its own example:
// a crate for eleven numbers would be no plainer.
fn pointers_sheet() -> Sheet {
    let mut sheet = [0xFF; 512];
    sheet[0..14].copy_from_slice(&[0x0A, 0x0A, 3, 0x10, 0, 2, 0, 0, 0, 40, 0, 0, 0, 5]);
    sheet[30..38].copy_from_slice(&[0, 0, 0, 6, 0, 0, 0, 31]);
    sheet
}

fn print_pointers(rt: &HostRuntime) -> anyhow::Result<()> {
    let Ok(layout) = Pointers::read(POINTERS_SECTORS, &pointers_sheet()) else {
        return Err(anyhow!("the layout of Format A was refused"));
    };
    let blocks = layout.block_count();
    println!(rt;
        "A layout of Format A on {POINTERS_SECTORS} sectors: {blocks} blocks, by track/sector"
    )?;
    for area in layout.areas(rt.alloc())?.iter() {
        let from = on_track(area.first)?;
        let to = on_track(area.last)?;
        let purpose = area.purpose;
        println!(rt; "  {from} to {to}: {purpose}")?;
    }
    Ok(())
}

// A band with four prime tracks, and an overflow band.
fn maps_sheet() -> Sheet {
    let mut sheet = [0xFF; 512];
    sheet[0..15].copy_from_slice(&[0, 0, 2, 0, 8, 0, 4, 0, 0, 0, 4, 0, 16, 0, 12]);
    sheet
}

fn print_maps(rt: &HostRuntime) -> anyhow::Result<()> {
    let Ok(layout) = Maps::read(MAPS_SECTORS, &maps_sheet()) else {
        return Err(anyhow!("the layout of Format B was refused"));
    };
    let blocks = layout.block_count();
    println!(rt; "A layout of Format B on {MAPS_SECTORS} sectors: {blocks} blocks")?;
    for area in layout.areas(rt.alloc())?.iter() {
        let first = area.first;
        let last = area.last;
        let used = area.purpose;
        let band = area.band;
        println!(rt; "  tracks {first} to {last}: {used} area of band {band}")?;
    }
    Ok(())
}

// A sector of Format A as track and place. Each program says in its own words that there is none.
fn on_track(sector: u32) -> anyhow::Result<Address> {
    match address_of::<Pointers>(sector) {
        Some(address) => Ok(address),
        None => Err(anyhow!("an area past the last track")),
    }
}
