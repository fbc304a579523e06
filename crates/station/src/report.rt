// The account of a bench test, for a person to read.
use crate::evening::{RUNS, Run};
use bench::{Account, ReadBack, count_alike};
use medium::{Burn, Fault, IMAGE_BYTES, Medium, Refusal, Verdict, lowest_burnt};
use roll::WhyNot;
use std::{fmt, io};

// Sector numbers beside each other, or the word `none`. Bytes are told otherwise in the other program: no common form.
#[derive(Drop)]
struct Numbers<'a>(&'a [u32]);

impl fmt::Display for Numbers<'_> {
    fn fmt<W: fmt::Write>(&self, f: &mut fmt::Formatter<W>) -> fmt::Result {
        if self.0.is_empty() {
            return write!(f, "none");
        }
        for (i, number) in self.0.iter().enumerate() {
            if i > 0 {
                write!(f, " ")?;
            }
            write!(f, "{number}")?;
        }
        Ok(())
    }
}

pub(crate) fn print_medium(
    rt: &HostRuntime,
    kind: &str,
    sectors: u32,
    bytes: usize,
) -> io::Result<()> {
    println!(rt; "Bench test of a {kind} of {sectors} sectors in {bytes} bytes")
}

// The burns that were asked for, and the account of them.
#[derive(Drop)]
pub(crate) struct Trial<'a> {
    pub plan: &'a [Burn],
    pub account: &'a Account,
}

impl Trial<'_> {
    pub(crate) fn print(&self, rt: &HostRuntime) -> anyhow::Result<()> {
        println!(rt; "Burnt")?;
        for run in &RUNS {
            self.print_run(rt, run)?;
        }
        println!(rt; "Refused")?;
        self.print_refusals(rt)?;
        println!(rt; "Read back")?;
        self.print_readings(rt)
    }

    // How many sectors of the run proved sound, and which proved weak.
    fn print_run(&self, rt: &HostRuntime, run: &Run) -> anyhow::Result<()> {
        let sectors = run.sectors();
        let answers = self.account.burnt.as_slice();
        let sound = self
            .plan
            .iter()
            .zip(answers.iter())
            .filter(|(burn, answer)| {
                sectors.contains(&burn.sector) && matches!(answer, Ok(Verdict::Sound))
            })
            .count();
        let mut weak = Vec::new(rt.alloc());
        for (burn, answer) in self.plan.iter().zip(answers.iter()) {
            if sectors.contains(&burn.sector) && matches!(answer, Ok(Verdict::Weak)) {
                weak.push(burn.sector)?;
            }
        }
        let name = run.name;
        let first = run.first_sector;
        let last = run.last_sector();
        let weak = Numbers(weak.as_slice());
        println!(rt; "  {name}, sectors {first} to {last}: {sound} sound, weak: {weak}")?;
        Ok(())
    }

    fn print_refusals(&self, rt: &HostRuntime) -> anyhow::Result<()> {
        for (burn, answer) in self.plan.iter().zip(self.account.burnt.iter()) {
            if let Err(fault) = answer {
                let sector = burn.sector;
                print!(rt; "  burning sector {sector}: ")?;
                print_fault(rt, *fault)?;
            }
        }
        Ok(())
    }

    fn print_readings(&self, rt: &HostRuntime) -> anyhow::Result<()> {
        let mut spoiled = Vec::new(rt.alloc());
        let mut changed = Vec::new(rt.alloc());
        let outcomes = self.account.burnt.iter().zip(self.account.read.iter());
        for (burn, (answer, reading)) in self.plan.iter().zip(outcomes) {
            match (answer, reading) {
                (Ok(_), Ok(ReadBack::Same)) => {}
                (Ok(_), Ok(ReadBack::Spoiled)) => spoiled.push(burn.sector)?,
                (Ok(_), _) => changed.push(burn.sector)?,
                (Err(_), _) => {}
            }
        }
        let same = count_alike(self.account.read.as_slice());
        let bytes = same.saturating_mul(IMAGE_BYTES);
        println!(rt; "  {same} sectors hold the bytes asked for: {bytes} bytes compared equal")?;
        let spoiled = Numbers(spoiled.as_slice());
        println!(rt; "  spoiled: {spoiled}")?;
        let changed = Numbers(changed.as_slice());
        println!(rt; "  changed: {changed}")?;
        Ok(())
    }
}

pub(crate) fn print_fault(rt: &HostRuntime, fault: Fault) -> io::Result<()> {
    let meaning = meaning(fault.refusal);
    println!(rt; "{fault}, {meaning}")
}

pub(crate) fn print_why_not(rt: &HostRuntime, why: WhyNot) -> io::Result<()> {
    match why {
        WhyNot::Refused(fault) => print_fault(rt, fault),
        WhyNot::NoMemory => println!(rt; "there is no memory for the index"),
    }
}

// What a medium refuses, in the words of this test; the other refusals come from layers that the bench test does not reach.
fn meaning(refusal: Refusal) -> &'static str {
    match refusal {
        Refusal::WrongMemory => "the memory has not the medium's length",
        Refusal::BrokenForm => "the memory or the flaw list has not the medium's form",
        Refusal::WrongLength => "the image has not 524 bytes",
        Refusal::NoSuchSector => "there is no such sector",
        Refusal::AlreadyBurnt => "the sector is burnt",
        _ => "not a matter of the medium",
    }
}

pub(crate) fn print_lowest_burnt<M: Medium>(rt: &HostRuntime, medium: &M) -> io::Result<()> {
    match lowest_burnt(medium) {
        Ok(None) => println!(rt; "  every sector is blank"),
        Ok(Some(sector)) => println!(rt; "  the lowest burnt sector is {sector}"),
        Err(fault) => print_fault(rt, fault),
    }
}

pub(crate) fn print_reopened<M: Medium>(rt: &HostRuntime, medium: &M) -> io::Result<()> {
    println!(rt; "Closed and opened again")?;
    print_lowest_burnt(rt, medium)
}
