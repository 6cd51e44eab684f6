ghost use Rattle.std.specs.Prelude.{◌≡◌, ◌+◌, ◌<◌, ◌≤◌, ◌↔◌, ℕ, List, IsTrue, false, IfOk, MatchResult, vec_len, vec_capacity};

use crate::session::Session;
use ahead::given::Given;
use player::playing::{CALLS, ROOM};
use racks::rack::Rack;
use std::alloc::AllocError;
use texts::fault::put_fault;

/// As many bytes as are to be written at once.
pub const FULL: usize = 4096;

impl<R: Rack> Session<'_, '_, R> {
    ghost use Rattle.ahead.specs.Steps.{Stops, TooLong};
    ghost use Rattle.player.specs.Works.{call_room};
    ghost use Rattle.session.specs.Sessions.{full, Reads, Works, Worked, Idle, Done, Finishes, Ends};

    /// Whether something that was read is still to be worked off.
    pub fn is_busy(&self) -> bool
        ensures { (result ≡ false) ↔ Idle self.now }
    {
        self.player.is_busy() || !self.given.is_empty()
    }

    /// Whether nothing is left to do, whatever comes behind what was read: a line was refused, and all above it is worked off.
    pub fn is_done(&self) -> bool
        ensures value { IsTrue result ↔ Done self.now }
        ensures whole { IsTrue result → Finishes R.Rack.places R.Rack.service R.Rack.steps self.now }
    {
        self.ahead.is_over() && !self.is_busy()
    }

    /// Reads bytes that come next. Answers how many of them were read: all, or those up to where what was read has first to be worked off.
    /// Memory is wanted only for a line that is longer than a call's; then the lines above it were read.
    pub fn take(&mut self, bytes: &[u8]) -> Result<usize, AllocError>
        ensures reads { MatchResult result (λ n. Reads R.Rack.places R.Rack.service R.Rack.steps self.old bytes.now n self.new) (λ _. (n : ℕ) × Reads R.Rack.places R.Rack.service R.Rack.steps self.old bytes.now n self.new × TooLong self.old.ahead bytes.now n self.new.ahead) }
        ensures stops { IfOk result (λ n. Stops bytes.now n self.new.ahead self.new.given) }
    {
        self.ahead.take(bytes, &mut self.given)
    }

    // One line that was read, where none is under way. Answers how many calls were made.
    fn work_off(&mut self, given: Given, out: &mut Vec<u8>) -> u64
        requires idle { self.old.player.work.left ≡ 0 }
        requires few { vec_len out.old < full }
        requires room { full + call_room ≤ vec_capacity out.old }
        ensures { Worked R.Rack.places R.Rack.service R.Rack.steps self.old given out.old result self.new out.new }
    {
        match given {
            Given::Call(line) => {
                self.player.begin(line, out).unwrap();
                self.player.go(out, FULL).unwrap()
            }
            Given::Fault(fault) => {
                put_fault(out, fault).unwrap();
                0
            }
        }
    }

    /// Works off what was read, until nothing of it is left, or as many bytes are in the buffer as are to be written at once, or as many calls are made as are at once.
    /// Where the buffer lacks room and no memory is to be had, all is left as it was.
    pub fn go(&mut self, out: &mut Vec<u8>) -> Result<(), AllocError>
        ensures { Works R.Rack.places R.Rack.service R.Rack.steps self.old out.old result self.new out.new }
    {
        out.reserve(FULL + ROOM)?;
        let mut calls = self.player.go(out, FULL).unwrap();
        while out.len() < FULL && calls < CALLS {
            let Some(given) = self.given.take() else {
                break;
            };
            calls += self.work_off(given, out);
        }
        Ok(())
    }

    /// The text has ended. Where a line is left without its end, or there was no line at all, its refusal is what is printed last.
    /// Where the buffer lacks room and no memory is to be had, it is left as it was.
    pub fn end(&self, out: &mut Vec<u8>) -> Result<(), AllocError>
        ensures { Ends R.Rack.places R.Rack.service R.Rack.steps self.now out.old result out.new }
    {
        out.reserve(ROOM)?;
        if let Err(fault) = self.ahead.end() {
            put_fault(out, fault).unwrap();
        }
        Ok(())
    }
}
