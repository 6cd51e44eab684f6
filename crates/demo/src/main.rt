#![tactic(auto)]

// One job served on a slice in its worst phase, and on the same slice as the known blunder counts it, with its closing tick inside.
use faults::error::Error;
use servers::fixed::Fixed;
use servers::server::Server;
use servers::settings::Settings;
use serving::serve;
use std::alloc::Global;
use std::{fmt, io};

const WORK: usize = 6;

// A job that was served: the ticks that it was granted, and the worst wait for so many.
#[derive(Drop)]
struct Job {
    settings: Settings,
    times: Vec<u64>,
    worst: u64,
}

impl Job {
    // Serves a job on a fixed slice in its worst phase, with every tick claimed by others.
    fn served(heap: Global, period: u64, slice: u64) -> Result<Job, Error> {
        let any_phase = Settings {
            period,
            slice,
            phase: 0,
        };
        let phase = Fixed::new(any_phase, 0)?.worst_phase();
        let settings = Settings { phase, ..any_phase };
        let mut server = Fixed::new(settings, 0)?;
        let worst = server.worst(WORK as u64)?;
        let mut times = vec![in heap; 0; WORK]?;
        serve(&mut server, true, &mut times)?;
        Ok(Job {
            settings,
            times,
            worst,
        })
    }

    // The tick at which the last of the work was granted.
    fn finish(&self) -> u64 {
        // 0 where nothing was granted, which cannot be: there is work.
        self.times.last().copied().unwrap_or(0)
    }
}

impl fmt::Display for Job {
    fn fmt<W: fmt::Write>(&self, f: &mut fmt::Formatter<W>) -> fmt::Result {
        let Settings {
            period,
            slice,
            phase,
        } = self.settings;
        writeln!(f, "slice {slice} of period {period}, phase {phase}")?;
        for time in &self.times {
            writeln!(f, "granted at tick {time}")?;
        }
        let finish = self.finish();
        let worst = self.worst;
        write!(
            f,
            "job of {WORK} ticks finished at tick {finish}, worst wait {worst}"
        )
    }
}

fn tell(rt: &HostRuntime, job: &Job, blunder: &Job) -> io::Result<()> {
    println!(rt; "as it is: {job}")?;
    println!(rt; "with the closing tick counted as inside: {blunder}")?;
    let finish = job.finish();
    let told = blunder.worst;
    if told < finish {
        println!(rt;
            "the blunder tells {told}, and the job needs {finish}: too early by {}",
            finish - told
        )?;
    }
    Ok(())
}

fn both(heap: Global) -> Result<(Job, Job), Error> {
    Ok((Job::served(heap, 10, 4)?, Job::served(heap, 10, 5)?))
}

fn main(rt: HostRuntime) -> io::Result<()> {
    // A match: a refusal is printed as its line alone, and is no failure of the program as want of memory is.
    match both(rt.alloc()) {
        Ok((job, blunder)) => tell(&rt, &job, &blunder),
        Err(Error::Refused(fault)) => println!(rt; "{fault}"),
        Err(Error::Memory) => Err(io::Error::from(io::ErrorKind::OutOfMemory)),
    }
}
