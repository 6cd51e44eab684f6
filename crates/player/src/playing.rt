ghost use Rattle.std.specs.Prelude.{◌≡◌, ◌+◌, ◌<◌, ◌≤◌, ℕ, List, [], replicate, vec_len, vec_capacity};

use crate::player::Player;
use crate::records::{LONGEST_LINE, put_records};
use crate::work::Ask;
use faults::fault::Fault;
use graph::parts::MOST_TASKS;
use racks::rack::Rack;
use std::alloc::AllocError;
use texts::fault::put_fault;

/// Room for what one call prints: the line of a record of each task, or of a refusal.
pub const ROOM: usize = MOST_TASKS * LONGEST_LINE;

/// So many calls are made at once: few enough that what they print shows within milliseconds.
pub const CALLS: u64 = 65_536;

impl<'b, R: Rack> Player<'b, R> {
    ghost use Rattle.runs.specs.Runs.{arrive as arrival, need as need_of, tick as tick_with};
    ghost use Rattle.texts.specs.Puts.{Added};
    ghost use Rattle.player.specs.Works.{call_of, call_room};
    ghost use Rattle.player.specs.Players.{Does, Puts, Stepped, Went};

    // An arrival at the task, which the ledger knows too.
    fn arrive(&mut self, task: usize) -> Result<(), Fault>
        ensures does { Does R.Rack.places R.Rack.service R.Rack.steps self.old (arrival task) result [] self.new }
        ensures work { self.new.work ≡ self.old.work }
    {
        self.runner.arrive(task)?;
        self.ledger.arrive(task, self.runner.clock());
        Ok(())
    }

    // A need of later firings of the task.
    fn need(&mut self, task: usize, ticks: u64) -> Result<(), Fault>
        ensures does { Does R.Rack.places R.Rack.service R.Rack.steps self.old (need_of task ticks) result [] self.new }
        ensures work { self.new.work ≡ self.old.work }
    {
        self.runner.need(task, ticks)
    }

    // A tick with the same claim at every place, and the lines of the firings that end by it.
    fn tick(&mut self, claimed: bool, out: &mut Vec<u8>) -> Result<(), Fault>
        requires room { vec_len out.old + call_room ≤ vec_capacity out.old }
        ensures does { Puts R.Rack.places R.Rack.service R.Rack.steps self.old (tick_with (replicate (vec_len self.old.runner.graph.tasks) claimed)) result out.old self.new out.new }
        ensures work { self.new.work ≡ self.old.work }
    {
        let claims = [claimed; MOST_TASKS];
        let graph = self.runner.graph();
        let tasks = graph.tasks.len();
        self.runner.tick(&claims[..tasks], &mut self.records)?;
        put_records(
            out,
            &mut self.records,
            &mut self.ledger,
            self.runner.graph(),
            &self.tasks,
        );
        Ok(())
    }

    // The call of the line under way, made once.
    fn call(&mut self, out: &mut Vec<u8>) -> Result<(), Fault>
        requires room { vec_len out.old + call_room ≤ vec_capacity out.old }
        ensures does { Puts R.Rack.places R.Rack.service R.Rack.steps self.old (call_of (vec_len self.old.runner.graph.tasks) self.old.work.ask) result out.old self.new out.new }
        ensures work { self.new.work ≡ self.old.work }
    {
        match self.work.ask {
            Ask::Arrive(task) => self.arrive(task),
            Ask::Need(task, ticks) => self.need(task, ticks),
            Ask::Tick(claimed) => self.tick(claimed, out),
        }
    }

    /// Makes the call of the line under way once, and appends the lines of the records that it puts, or the line of its refusal, which ends the line.
    /// Nothing happens where no line is under way. Where the buffer lacks room and no memory is to be had, all is left as it was.
    pub fn step(&mut self, out: &mut Vec<u8>) -> Result<(), AllocError>
        ensures { Stepped R.Rack.places R.Rack.service R.Rack.steps self.old out.old result self.new out.new }
    {
        if self.work.left == 0 {
            return Ok(());
        }
        out.reserve(ROOM)?;
        match self.call(out) {
            Ok(()) => self.work.left -= 1,
            Err(fault) => {
                self.work.left = 0;
                put_fault(out, fault).unwrap();
            }
        }
        Ok(())
    }

    /// Makes calls of the line under way, until it is done, or so many bytes are in the buffer, or as many calls are made as are at once. Answers how many were made.
    /// Where the buffer lacks room and no memory is to be had, the calls before that were made.
    pub fn go(&mut self, out: &mut Vec<u8>, most: usize) -> Result<u64, AllocError>
        ensures { Went R.Rack.places R.Rack.service R.Rack.steps self.old out.old most result self.new out.new }
    {
        let mut calls = 0;
        while self.work.left > 0 && calls < CALLS && out.len() < most {
            self.step(out)?;
            calls += 1;
        }
        Ok(calls)
    }
}
