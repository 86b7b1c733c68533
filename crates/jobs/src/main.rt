//! The jobs that users of the gateway wait for, as a benchmark. `jobs NAME COUNT SEED` does one of them, on inputs that
//! it makes from the seed and from the words and index files of the folder that it runs in. It prints a digest of all
//! that came back.
#![tactic(auto)]

mod awkward;
mod digest;
mod drops;
mod faults;
mod heads;
mod job;
mod mails;
mod marks;
mod openings;
mod ram_disk;
mod random;
mod scripts;
mod server;
mod texts;
mod tongues;
mod transfers;
mod words;

use digest::Digest;
use faults::Fault;
use job::Job;
use random::Random;
use std::env;
use std::process::ExitCode;
use transfers::Direction;
use words::Material;

fn main(rt: HostRuntime) -> ExitCode {
    match run(&rt) {
        Ok(()) => ExitCode::SUCCESS,
        Err(fault) => {
            // If standard error fails too, only the exit status reports the fault.
            let reported = eprintln!(rt; "jobs: {fault}");
            drop(reported);
            ExitCode::FAILURE
        }
    }
}

// Does the job that the command line names.
fn run(rt: &HostRuntime) -> Result<(), Fault> {
    let alloc = rt.alloc();
    let mut given = Vec::new(alloc);
    for word in env::args(rt)? {
        given.push(word)?;
    }
    let [_, name, count, seed] = given.as_slice() else {
        return Err(Fault::Usage);
    };
    let (Ok(count), Ok(seed)) = (count.parse::<u32>(), seed.parse::<u32>()) else {
        return Err(Fault::Usage);
    };
    let material = Material::read(rt, alloc)?;
    let job = Job {
        alloc,
        count,
        material: &material,
        random: Random::new(seed as u64),
    };
    let digest = done(name.as_str(), job)?;
    println!(rt; "{name} {count}: {digest}")?;
    Ok(())
}

// The digest of all that a job gave.
fn done(name: &str, job: Job<'_>) -> Result<Digest, Fault> {
    match name {
        "texts" => transfers::run(job, Direction::In),
        "back" => transfers::run(job, Direction::Back),
        "marks" => transfers::run(job, Direction::Marked),
        "mails" => mails::run(job),
        "drops" => drops::run(job),
        "openings" => openings::run(job),
        "awkward" => awkward::run(job),
        _ => Err(Fault::Usage),
    }
}
