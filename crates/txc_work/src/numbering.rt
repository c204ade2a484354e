//! The numbers of the jobs of a batch, and of their results.
ghost use Rattle.std.specs.Prelude.{◌≡◌, ◌==◌, ℕ, min, count_by, All, Contains, Err, IfErr, IfNone, IfOk, IfSome, IsPermutation, IsSorted};
ghost use Rattle.std.specs.List.{reduce};
ghost use Rattle.std.specs.Ordering.{nat_cmp};
ghost use Rattle.std.specs.List.Sorted.{IsStrictlyIncreasing};
ghost use Rattle.txc_work.specs.Batches.{job_numbers, result_numbers, IsLeastTwice, NamesOneOf, twice_in};

use crate::error::BatchError;
use crate::job::{Job, Receipted};
use std::alloc::{AllocError, Global};

/// Returns the numbers of the jobs, in ascending order. Fails if two jobs have one number, which it reports
/// even if memory cannot be allocated.
pub(crate) fn distinct_numbers(alloc: Global, jobs: &[Job]) -> Result<Vec<u32>, BatchError>
    ensures same { IfOk result (λ numbers. IsPermutation (job_numbers jobs.now) numbers.items) }
    ensures rising { IfOk result (λ numbers. IsStrictlyIncreasing numbers.items) }
    ensures twice { (number : ℕ) → IsLeastTwice (job_numbers jobs.now) number
        → result ≡ Err (BatchError.Twice number) }
    ensures named { IfErr result (NamesOneOf (job_numbers jobs.now)) }
{
    let Ok(numbers) = sorted_numbers(alloc, jobs) else {
        return match least_twice(jobs) {
            Some(number) => Err(BatchError::Twice(number)),
            None => Err(BatchError::Memory),
        };
    };
    match first_twice(&numbers) {
        Some(number) => Err(BatchError::Twice(number)),
        None => Ok(numbers),
    }
}

fn sorted_numbers(alloc: Global, jobs: &[Job]) -> Result<Vec<u32>, AllocError>
    ensures same { IfOk result (λ numbers. IsPermutation (job_numbers jobs.now) numbers.items) }
    ensures sorted { IfOk result (λ numbers. IsSorted nat_cmp numbers.items) }
{
    let mut numbers: Vec<u32> = jobs.iter().map(|job| job.number).collect(alloc)?;
    numbers.sort_unstable();
    Ok(numbers)
}

// Returns the least number that occurs twice. The numbers are in ascending order.
fn first_twice(numbers: &[u32]) -> Option<u32>
    requires { IsSorted nat_cmp numbers.now }
    ensures none { IfNone result (IsStrictlyIncreasing numbers.now) }
    ensures there { IfSome result (Contains numbers.now) }
    ensures least { IfSome result (IsLeastTwice numbers.now) }
{
    for place in 1..numbers.len() {
        if numbers[place - 1] == numbers[place] {
            return Some(numbers[place]);
        }
    }
    None
}

// Returns the least number that two of the jobs have. It compares them pair by pair, and does not allocate.
fn least_twice(jobs: &[Job]) -> Option<u32>
    ensures { result ≡ reduce min (twice_in (job_numbers jobs.now)) }
{
    jobs.iter()
        .map(|job| job.number)
        .filter(|number| 2 <= count_of(jobs, *number))
        .min()
}

// Returns how many of the jobs have the number.
fn count_of(jobs: &[Job], number: u32) -> usize
    ensures { result ≡ count_by (λ n. n == number) (job_numbers jobs.now) }
{
    jobs.iter().filter(|job| job.number == number).count()
}

/// Returns the results in the order of the numbers. Fails if a number has no result, or two.
pub(crate) fn in_order(
    mut results: Vec<Receipted>,
    numbers: &[u32],
) -> Result<Vec<Receipted>, BatchError>
    requires { All (λ told. Contains numbers.now told.number) results.items }
    ensures ok { IfOk result (λ sorted. IsPermutation results.items sorted.items
        × (result_numbers sorted.items ≡ numbers.now)) }
    ensures named { IfErr result (NamesOneOf numbers.now) }
{
    results.sort_unstable_by_key(|told| told.number);
    match find_fault(results.as_slice(), numbers) {
        None => Ok(results),
        Some(fault) => Err(fault),
    }
}

// Returns the first number, in ascending order, that has no result or two.
fn find_fault(results: &[Receipted], numbers: &[u32]) -> Option<BatchError>
    requires { All (λ told. Contains numbers.now told.number) results.now }
    ensures none { IfNone result (result_numbers results.now ≡ numbers.now) }
    ensures named { IfSome result (NamesOneOf numbers.now) }
{
    for (place, number) in numbers.iter().enumerate() {
        let Some(found) = results.get(place) else {
            return Some(BatchError::Missing(*number));
        };
        if found.number < *number {
            return Some(BatchError::Twice(found.number));
        }
        if found.number > *number {
            return Some(BatchError::Missing(*number));
        }
    }
    match results.get(numbers.len()) {
        Some(found) => Some(BatchError::Twice(found.number)),
        None => None,
    }
}
