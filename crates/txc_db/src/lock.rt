//! Waiting for a lock that is mostly held for less time than a sleep takes: a thread tries it for a while
//! before it sleeps.
use std::hint::spin_loop;
use std::sync::{Mutex, MutexGuard, Wait};
use std::thread::yield_now;

/// Number of tries before the thread yields the processor between two tries.
const PAUSES: u32 = 20;

/// Number of tries before the thread sleeps.
const TRIES: u32 = 2_020;

// Pauses grow, since each try slows down the thread that holds the lock. Later the thread yields: the holder
// may need its processor.
fn pause_after(tried: u32) {
    if tried < PAUSES {
        for _ in 0..tried {
            spin_loop();
        }
    } else {
        yield_now();
    }
}

/// Acquires the lock, as [`Mutex::lock`] does, but tries it for a while before it sleeps: waking a sleeping
/// thread mostly takes longer than the lock is held.
pub fn lock_spinning<'a, T, R: Wait>(rt: &R, lock: &'a Mutex<T>) -> MutexGuard<'a, T> {
    for tried in 0..TRIES {
        if let Some(guard) = lock.try_lock() {
            return guard;
        }
        pause_after(tried);
    }
    lock.lock(rt)
}
