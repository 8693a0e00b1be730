//! What is left where memory is refused: a session's lines are served over a disk in memory and it is opened again, or endings
//! are solved with a cache, after as many allocations as the second word says.
//!
//! ```sh
//! rt try --fail-alloc 2300 -- evening 123
//! ```
//!
//! refuses the 2,300th allocation of such a run, so that with other numbers each of the work is refused in turn; `.ci/look`
//! does that. What was refused is tried once more, and must then be done. The program prints what was refused, and `done`, or
//! `wrong` and why.
#![tactic(auto)]

mod club;
mod evening;
mod outcome;
mod solved;

use outcome::{Outcome, Refusals};
use sector_disk::MemoryDisk;
use std::alloc::{AllocError, Global};
use std::env;
use std::io::Error;

/// What there is to be done.
#[derive(Drop)]
enum Work {
    /// Endings are solved.
    Endings,
    /// Lines are served over a disk, which is made before.
    Evening(MemoryDisk),
}

/// Takes memory so many times, and once more.
fn allocate(alloc: Global, count: usize) -> Result<Vec<Box<usize>>, AllocError> {
    let mut boxes = Vec::with_capacity(alloc, count.max(1))?;
    for number in 0..count {
        boxes.push(Box::new(alloc, number)?)?;
    }
    Ok(boxes)
}

/// Does the work of that name after so many allocations.
fn run(alloc: Global, name: &str, count: usize, refusals: &mut Refusals) -> Outcome {
    let work = match name {
        "endings" => Work::Endings,
        _ => Work::Evening(evening::formatted(alloc)?),
    };
    let Ok(_taken) = allocate(alloc, count) else {
        refusals.note("what comes before");
        return Ok(());
    };
    match work {
        Work::Endings => solved::solve_all(alloc, refusals),
        Work::Evening(disk) => evening::play(alloc, disk, refusals),
    }
}

/// The word of that number, which is empty where there is none.
fn word_of(words: &[String], number: usize) -> &str {
    match words.get(number) {
        Some(word) => word.as_str(),
        None => "",
    }
}

fn main(rt: HostRuntime) -> Result<(), Error> {
    println!(rt; "begun")?;
    let words: Vec<String> = env::args(&rt)?.skip(1).collect(rt.alloc())?;
    let name = word_of(&words, 0);
    let count = word_of(&words, 1).parse().unwrap_or(0);
    let mut refusals = Refusals::default();
    let outcome = run(rt.alloc(), name, count, &mut refusals);
    for what in refusals.all() {
        println!(rt; "refused: {what}")?;
    }
    match outcome {
        Ok(()) => println!(rt; "done"),
        Err(wrong) => println!(rt; "wrong: {wrong}"),
    }
}
