// Replays the jobs of data/jobs.bin and the single objects of data/objects.bin, which have the Rust's answers beside them
// (oracle/compare/src/bin), and prints how many differ, and how often each answer was due. A read or a write that fails ends it with an error.
#![tactic(auto)]

mod files;
mod jobs;
mod lent;
mod list;
mod numbers;
mod objects;

use files::load;
use lent::LONGEST;
use list::{Entry, first_entry};
use std::io;

// What was counted: entries, those that differ, and the answers that were due, by number. Numbers are below 32.
#[derive(Clone, Copy, Default)]
struct Counts {
    entries: u32,
    differ: u32,
    due: [u32; 32],
}

impl Counts {
    fn count(&mut self, number: u32, agrees: bool) {
        let k = (number % 32) as usize;
        self.entries = self.entries.wrapping_add(1);
        self.differ = self.differ.wrapping_add(u32::from(!agrees));
        self.due[k] = self.due[k].wrapping_add(1);
    }
}

// Whether an entry ends as recorded: `agrees` takes it, and a buffer of the length that it says. One that has no room differs.
fn replayed<F: Fn(Entry, &mut [u8]) -> bool>(entry: Entry, agrees: &F, buffer: &mut [u8]) -> bool
    requires { F.IsAlwaysCallable agrees.now }
{
    let size = entry.buffer;
    if size > buffer.len() {
        return false;
    }
    let lent = &mut buffer[..size];
    lent::fill(lent);
    agrees(entry, lent)
}

// Replays a list. One that is cut counts as one more entry that differs.
fn replay<F: Fn(Entry, &mut [u8]) -> bool>(list: &[u8], agrees: &F, buffer: &mut [u8]) -> Counts
    requires { F.IsAlwaysCallable agrees.now }
{
    let mut counts = Counts::default();
    let mut list = list;
    // By while: what is left of the list tells when it ends.
    while !list.is_empty() {
        let Some((first, rest)) = first_entry(list) else {
            counts.count(0, false);
            return counts;
        };
        let same = replayed(first, agrees, buffer);
        counts.count(first.number, same);
        list = rest;
    }
    counts
}

fn print_refusals(rt: &impl Print, due: [u32; 32]) -> io::Result<()> {
    for (number, count) in due.iter().enumerate().skip(1) {
        if *count > 0 {
            println!(rt; "refused {number}: {count}")?;
        }
    }
    Ok(())
}

// Prints the counts of a list. `entries` is the word for its entries, `accepted` the one for an answer that is no refusal.
fn report(rt: &impl Print, entries: &str, accepted: &str, counts: Counts) -> io::Result<()> {
    println!(rt; "{}{entries}, {} differ", counts.entries, counts.differ)?;
    println!(rt; "{accepted}{}", counts.due[0])?;
    print_refusals(rt, counts.due)
}

fn main(rt: HostRuntime) -> io::Result<()> {
    let mut list = [0u8; 327680];
    let mut buffer = [0u8; LONGEST];
    let size = load(&rt, "jobs.bin", &mut list)?;
    report(
        &rt,
        " jobs",
        "charts: ",
        replay(&list[..size], &jobs::agrees, &mut buffer),
    )?;
    let size = load(&rt, "objects.bin", &mut list)?;
    report(
        &rt,
        " objects",
        "made: ",
        replay(&list[..size], &objects::agrees, &mut buffer),
    )
}
