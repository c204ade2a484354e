//! The clocks of a site's maintenance.
use std::sync::atomic::{AtomicBool, AtomicU64, Ordering};
use std::time::Duration;
use std::{thread, time};

/// A clock for the maintenance of a site.
pub trait Clock {
    ghost use Rattle.std.specs.Prelude.{ℕ};

    // The times that the clock may show.
    ghost tells: { Self → ℕ → Type 0 };

    /// Returns the milliseconds since a time of the clock's own choice.
    fn now(&self) -> u64
        ensures { tells self.now result };
}

/// The system's clock. It sleeps for a millisecond before it is read, so that a thread that reads it in a loop
/// does little else. A clock that cannot be read shows 0.
#[derive(Drop)]
pub struct SystemClock<'a, R: time::Clock> {
    rt: &'a R,
}

impl<'a, R: time::Clock> SystemClock<'a, R> {
    /// Makes the clock of a handle to the system.
    pub fn new(rt: &'a R) -> Self {
        SystemClock { rt }
    }
}

impl<R: time::Clock> Clock for SystemClock<'_, R> {
    ghost tells = { λ clock now. Unit {0} };

    fn now(&self) -> u64 {
        thread::sleep(self.rt, Duration::from_millis(1));
        match self.rt.monotonic() {
            Ok(gone) => u64::try_from(gone.as_millis()).unwrap_or(u64::MAX),
            Err(_) => 0,
        }
    }
}

/// A clock that counts how many times it was read.
#[derive(Drop)]
pub struct CountedClock {
    looks: AtomicU64,
}

impl CountedClock {
    /// Makes a clock that was not read yet.
    pub fn new() -> CountedClock {
        CountedClock {
            looks: AtomicU64::new(0),
        }
    }
}

impl Clock for CountedClock {
    ghost tells = { λ clock now. Unit {0} };

    fn now(&self) -> u64 {
        self.looks.fetch_add(1, Ordering::SeqCst)
    }
}

/// The last time that the clock of a site showed, for all of its threads.
#[derive(Drop)]
pub struct SharedClock {
    now: AtomicU64,
}

impl SharedClock {
    /// Makes a value before any reading.
    pub fn new() -> SharedClock {
        SharedClock {
            now: AtomicU64::new(0),
        }
    }

    /// Stores the time that the clock showed.
    pub fn set(&self, now: u64) {
        self.now.store(now, Ordering::SeqCst);
    }

    /// Returns the last time that the clock showed, in milliseconds, or 0 if it was not read.
    pub fn get(&self) -> u64 {
        self.now.load(Ordering::SeqCst)
    }
}

/// A flag for the site's maintenance: the worker threads have ended.
#[derive(Drop)]
pub struct StopFlag {
    given: AtomicBool,
}

impl StopFlag {
    /// Makes a flag that is not set.
    pub fn new() -> StopFlag {
        StopFlag {
            given: AtomicBool::new(false),
        }
    }

    /// Sets the flag.
    pub fn give(&self) {
        self.given.store(true, Ordering::SeqCst);
    }

    /// Returns `true` if the flag is set.
    pub fn is_given(&self) -> bool {
        self.given.load(Ordering::SeqCst)
    }
}
