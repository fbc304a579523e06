// The station's program. As yet it is the bench test of a cartridge, on a plate and on a roll with the same weak
// sectors: the three runs of a ranging evening are burnt, read back and compared, and what must be refused is tried.
#![tactic(auto)]

use crate::report::Trial;
use anyhow::anyhow;
use bench::{Account, agree, bench_test};
use medium::{Burn, Medium};
use plate::{CELL_BYTES, Flaw, Plate};
use roll::{BYTES_A_SECTOR, Roll};
use std::alloc::{AllocError, Global};

mod evening;
mod layouts;
mod report;

// Enough for the evening, and eight to spare.
const SECTORS: u32 = 48;

// Weak sectors in the pass, and one in the closing calibration.
const FLAWS: [Flaw; 3] = [
    Flaw {
        offset: 9,
        length: 2,
    },
    Flaw {
        offset: 20,
        length: 1,
    },
    Flaw {
        offset: 36,
        length: 1,
    },
];

fn main(rt: HostRuntime) -> anyhow::Result<()> {
    run(&rt)
}

fn run(rt: &HostRuntime) -> anyhow::Result<()> {
    let plan = evening::plan(rt.alloc(), SECTORS)?;
    let on_plate = test_plate(rt, plan.as_slice())?;
    let on_roll = test_roll(rt, plan.as_slice())?;
    if !agree(&on_plate, &on_roll) {
        return Err(anyhow!("plate and roll do not agree"));
    }
    println!(rt; "Plate and roll agree on every burn and on every reading")?;
    layouts::print_layouts(rt)
}

fn test_plate(rt: &HostRuntime, plan: &[Burn]) -> anyhow::Result<Account> {
    let heap = rt.alloc();
    let memory = vec![in heap; 0u8; CELL_BYTES * SECTORS as usize]?;
    report::print_medium(rt, "plate", SECTORS, memory.len())?;
    let mut plate = open_plate(rt, memory, FLAWS.to_vec(heap)?)?;
    let account = test_medium(rt, &mut plate, plan)?;
    let (memory, flaws) = plate.close();
    let reopened = open_plate(rt, memory, flaws)?;
    report::print_reopened(rt, &reopened)?;
    Ok(account)
}

fn test_roll(rt: &HostRuntime, plan: &[Burn]) -> anyhow::Result<Account> {
    let memory = blank_roll(rt.alloc())?;
    report::print_medium(rt, "roll", SECTORS, memory.len())?;
    let mut roll = open_roll(rt, memory)?;
    let account = test_medium(rt, &mut roll, plan)?;
    let reopened = open_roll(rt, roll.close())?;
    report::print_reopened(rt, &reopened)?;
    Ok(account)
}

// The bench test, whatever the medium. Only opening and closing differ, in what they are given and hand back.
fn test_medium<M: Medium>(
    rt: &HostRuntime,
    medium: &mut M,
    plan: &[Burn],
) -> anyhow::Result<Account> {
    report::print_lowest_burnt(rt, medium)?;
    let account = bench_test(rt.alloc(), medium, plan)?;
    let trial = Trial {
        plan,
        account: &account,
    };
    trial.print(rt)?;
    Ok(account)
}

fn open_plate(rt: &HostRuntime, memory: Vec<u8>, flaws: Vec<Flaw>) -> anyhow::Result<Plate> {
    match Plate::open(memory, flaws, SECTORS) {
        Ok(plate) => Ok(plate),
        Err(unopened) => {
            report::print_fault(rt, unopened.fault)?;
            Err(anyhow!("the plate cannot be opened"))
        }
    }
}

fn open_roll(rt: &HostRuntime, memory: Vec<u8>) -> anyhow::Result<Roll> {
    match Roll::open(rt.alloc(), memory, SECTORS) {
        Ok(roll) => Ok(roll),
        Err(unopened) => {
            report::print_why_not(rt, unopened.why)?;
            Err(anyhow!("the roll cannot be opened"))
        }
    }
}

// The bytes of a blank roll: a verdict for each sector, and slots that are not used.
fn blank_roll(heap: Global) -> Result<Vec<u8>, AllocError> {
    let mut memory: Vec<u8> = (0..SECTORS)
        .map(|sector| u8::from(is_weak(sector)))
        .collect(heap)?;
    let unused = vec![in heap; 0xFFu8; (BYTES_A_SECTOR - 1) * SECTORS as usize]?;
    memory.extend_from_slice(unused.as_slice())?;
    Ok(memory)
}

fn is_weak(sector: u32) -> bool {
    FLAWS.iter().any(|flaw| flaw.covers(sector))
}
