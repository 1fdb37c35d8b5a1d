//! A clock, in whole milliseconds.
ghost use Rattle.driver_link.specs.Clock.{ClockTells, ReadsClock, SleepsFor};

/// Readings that never go back, and sleeps.
pub trait Clock {
    // Its last reading, the sum of its sleeps, and its readings to come.
    ghost tells: { Self → ClockTells };

    /// The present time in milliseconds.
    fn now_ms(&mut self) -> u64
        ensures { ReadsClock (tells self.old) (tells self.new) result };

    /// Waits for so many milliseconds.
    fn sleep_ms(&mut self, ms: u64)
        ensures { SleepsFor (tells self.old) (tells self.new) ms };
}
