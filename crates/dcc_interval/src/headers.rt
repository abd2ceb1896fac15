//! The headers of intervals.

ghost use Rattle.std.specs.Prelude.{◌≡◌, ◌≤◌, ◌^◌, true, length, IfOk};
ghost use Rattle.dcc_ir.specs.WellFormed.{all_differ};
ghost use Rattle.dcc_interval.specs.Intervals.{headers_of, intervals_in};

use crate::interval::Interval;
use std::alloc::{AllocError, Global};

/// The header of each of these intervals.
pub fn headers(alloc: Global, intervals: &Vec<Interval>) -> Result<Vec<u32>, AllocError>
    ensures { IfOk result (λ list. list.items ≡ headers_of (intervals_in intervals.now.items)) }
{
    let mut list = Vec::new(alloc);
    for interval in intervals {
        list.push(interval.header)?;
    }
    Ok(list)
}

// How many headers there are: a number of 32 bits tells each from the others.
fn count(headers: &[u32]) -> usize
    requires { all_differ headers.now ≡ true }
    ensures all { result ≡ length headers.now }
    ensures few { result ≤ 2 ^ 32 }
{
    headers.len()
}

/// How many intervals there are: a number of 32 bits, their header, tells each from the others.
pub(crate) fn count_intervals(alloc: Global, intervals: &Vec<Interval>) -> Result<usize, AllocError>
    requires { all_differ (headers_of (intervals_in intervals.now.items)) ≡ true }
    ensures all { IfOk result (λ n. n ≡ length intervals.now.items) }
    ensures few { IfOk result (λ n. n ≤ 2 ^ 32) }
{
    Ok(count(headers(alloc, intervals)?.as_slice()))
}
