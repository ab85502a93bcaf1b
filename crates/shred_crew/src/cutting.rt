//! Groups dealt to workers by their times.
ghost use Rattle.std.specs.Prelude.{◌≡◌, ◌<◌, ◌^◌, [], length, map, replicate, IfOk, OnOk};
ghost use Rattle.std.specs.List.{All, enumerate_from, range_with_len};
ghost use Rattle.shred_crew.specs.Deals.{lists, put_at};
ghost use Rattle.shred_crew.specs.Cuts.{place_of_least as least, with_time, went_to, worker_of_each as workers_of};
ghost use Rattle.shred_crew.specs.Cuts.{groups_of, by_falling_time as by_time, cut as shares, IsShared};

use std::alloc::{AllocError, Global};
use std::cmp::Reverse;

/// The times of some groups, each with the number of its group: the longest first, those of equal time by number.
///
/// Errors: want of memory.
fn by_falling_time(alloc: Global, times: &[u32]) -> Result<Vec<(Reverse<u32>, usize)>, AllocError>
    ensures value { IfOk result (λ order. map (λ one. (one.1, one.0.0)) order.items
        ≡ by_time (enumerate_from 0 times.now)) }
    ensures range { IfOk result (λ order. All (λ one. one.1 < length times.now) order.items) }
{
    let mut order = Vec::with_capacity(alloc, times.len())?;
    for (number, time) in times.iter().enumerate() {
        order.push_reserved((Reverse(*time), number));
    }
    order.sort_unstable();
    Ok(order)
}

/// The place of the least of some numbers, of equal ones the first.
fn place_of_least(numbers: &[u128]) -> usize
    requires { 0 < length numbers.now }
    ensures value { result ≡ least numbers.now }
    ensures range { result < length numbers.now }
{
    let mut place = 0;
    for other in 1..numbers.len() {
        if numbers[other] < numbers[place] {
            place = other;
        }
    }
    place
}

/// Lets the worker that has the least time so far take a group of some time, and tells which one that is.
fn take_group(sums: &mut Vec<u128>, time: u32) -> usize
    requires some { 0 < length sums.old.items }
    requires small { All (λ sum. sum < 2 ^ 127) sums.old.items }
    ensures value { result ≡ least sums.old.items }
    ensures range { result < length sums.old.items }
    ensures sums { sums.new.items ≡ with_time sums.old.items result time }
{
    let worker = place_of_least(sums);
    sums[worker] += u128::from(time);
    worker
}

/// Writes down the worker of each group: they go, one after the other, each to the worker that has the least time so far.
fn send_each(order: &[(Reverse<u32>, usize)], sums: &mut Vec<u128>, workers: &mut Vec<usize>)
    requires some { 0 < length sums.old.items }
    requires none { sums.old.items ≡ replicate (length sums.old.items) 0 }
    requires range { All (λ one. one.1 < length workers.old.items) order.now }
    requires known { All (λ worker. worker < length sums.old.items) workers.old.items }
    ensures value { workers.new.items ≡ went_to sums.old.items (map (λ one. (one.1, one.0.0)) order.now)
        workers.old.items }
    ensures count { length workers.new.items ≡ length workers.old.items }
    ensures known { All (λ worker. worker < length sums.old.items) workers.new.items }
{
    for (time, number) in order {
        workers[*number] = take_group(sums, time.0);
    }
}

/// The worker of each group, by the groups' times.
///
/// Errors: want of memory.
fn worker_of_each(alloc: Global, times: &[u32], workers: usize) -> Result<Vec<usize>, AllocError>
    requires { 0 < workers }
    ensures value { IfOk result (λ chosen. chosen.items ≡ workers_of times.now workers) }
    ensures count { IfOk result (λ chosen. length chosen.items ≡ length times.now) }
    ensures known { IfOk result (λ chosen. All (λ worker. worker < workers) chosen.items) }
{
    let order = by_falling_time(alloc, times)?;
    let mut sums = vec![in alloc; 0; workers]?;
    let mut chosen = vec![in alloc; 0; times.len()]?;
    send_each(&order, &mut sums, &mut chosen);
    Ok(chosen)
}

/// Puts a group at the end of a worker's list.
///
/// Errors: want of memory.
fn add(shares: &mut Vec<Vec<usize>>, worker: usize, group: usize) -> Result<(), AllocError>
    requires { worker < length shares.old.items }
    ensures ok { OnOk result (lists shares.new.items ≡ put_at (lists shares.old.items) worker group) }
    ensures count { OnOk result (length shares.new.items ≡ length shares.old.items) }
{
    shares[worker].push(group)?;
    Ok(())
}

/// The groups of each worker, by the worker of each group.
///
/// Errors: want of memory.
fn groups_of_each(
    alloc: Global,
    chosen: &[usize],
    workers: usize,
) -> Result<Vec<Vec<usize>>, AllocError>
    requires { All (λ worker. worker < workers) chosen.now }
    ensures value { IfOk result (λ made. lists made.items ≡ map (groups_of chosen.now) (range_with_len 0 workers)) }
    ensures count { IfOk result (λ made. length made.items ≡ workers) }
    ensures shared { IfOk result (λ made. IsShared (length chosen.now) (lists made.items)) }
{
    let mut made = empty_lists(alloc, workers)?;
    for (group, worker) in chosen.iter().enumerate() {
        add(&mut made, *worker, group)?;
    }
    Ok(made)
}

/// As many empty lists.
///
/// Errors: want of memory.
fn empty_lists(alloc: Global, count: usize) -> Result<Vec<Vec<usize>>, AllocError>
    ensures value { IfOk result (λ made. lists made.items ≡ replicate count []) }
    ensures count { IfOk result (λ made. length made.items ≡ count) }
{
    let mut made = Vec::with_capacity(alloc, count)?;
    for _list in 0..count {
        made.push_reserved(Vec::new(alloc));
    }
    Ok(made)
}

/// Cuts groups into a list for each worker, by the units of time that each takes; a group's number is its place, from 0.
///
/// The groups go by falling time, those of equal time by number, each to the worker that has the least time so far, of
/// equal ones to the lowest. Each group stands in one list, once, and the numbers of a list rise. It takes some
/// n · log n + n · workers steps for n groups.
///
/// Errors: want of memory.
pub fn cut(alloc: Global, times: &[u32], workers: usize) -> Result<Vec<Vec<usize>>, AllocError>
    requires { 0 < workers }
    ensures value { IfOk result (λ made. lists made.items ≡ shares times.now workers) }
    ensures count { IfOk result (λ made. length made.items ≡ workers) }
    ensures shared { IfOk result (λ made. IsShared (length times.now) (lists made.items)) }
{
    let chosen = worker_of_each(alloc, times, workers)?;
    groups_of_each(alloc, &chosen, workers)
}
