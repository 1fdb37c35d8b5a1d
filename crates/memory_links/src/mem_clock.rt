//! A clock in memory, for runs that are to repeat exactly.
ghost use Rattle.std.specs.Prelude.{◌≡◌, ◌≤◌};
ghost use Rattle.driver_link.specs.Clock.{capped_sum};

use driver_link::Clock;
use std::marker::Model;

/// A clock that goes on by a step at each reading, and by each sleep.
#[derive(Debug, Drop)]
pub struct MemClock {
    present: u64,
    step: u64,
    last: u64,
    slept: u64,
}

impl Model for MemClock {
    ghost use Rattle.std.specs.Prelude.{◌≤◌};
    ghost use Rattle.memory_links.specs.MemClock.{ClockState};

    ghost Value = { ClockState };

    ghost view = { λ clock. record
        { present = clock.present; step = clock.step; last = clock.last; slept = clock.slept } };

    ghost invariant = { λ clock. clock.last ≤ clock.present };
}

impl MemClock {
    /// A clock that answers `start` first. It has not been read and has not slept.
    pub fn new(start: u64, step: u64) -> MemClock
        ensures { result ≡ record { present = start; step = step; last = 0; slept = 0 } }
    {
        MemClock {
            present: start,
            step,
            last: 0,
            slept: 0,
        }
    }
}

impl Clock for MemClock {
    ghost use Rattle.driver_link.specs.Clock.{ReadsClock, SleepsFor, capped_sum};
    ghost use Rattle.memory_links.specs.MemClock.{clock_tells};

    ghost tells = { clock_tells };

    #[tactic(auto, using(crate::proofs::Readings::reads_clock))]
    fn now_ms(&mut self) -> u64
        ensures reads { ReadsClock (clock_tells self.old) (clock_tells self.new) result }
        ensures present { result ≡ self.old.present }
        ensures steps { self.new ≡ record self.old {
          present = capped_sum self.old.present self.old.step;
          last = self.old.present;
        } }
    {
        let now = self.present;
        self.last = now;
        self.present = now.saturating_add(self.step);
        now
    }

    fn sleep_ms(&mut self, ms: u64)
        ensures sleeps { SleepsFor (clock_tells self.old) (clock_tells self.new) ms }
        ensures goes_on { self.new ≡ record self.old {
          present = capped_sum self.old.present ms;
          slept = capped_sum self.old.slept ms;
        } }
    {
        self.present = self.present.saturating_add(ms);
        self.slept = self.slept.saturating_add(ms);
    }
}
