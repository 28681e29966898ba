ghost use Rattle.std.specs.Prelude.{◌≡◌, ◌<◌, ◌≤◌, ◌^◌, length, All, IfOk};
ghost use Rattle.std.specs.List.{range_with_len, zip};
ghost use Rattle.std.specs.List.Sorted.{IsPermutation};
ghost use Rattle.mixer.specs.Groups.{commands_of, number_after as after, numbers_of, group_count as count_in, members, task_of as task_in, tasks_from, groups_of, places_in};

use crate::conflict::conflict;
use item_steps::{Group, Steps, Task, steps_of};
use proto::Command;
use sessions::Request;
use std::alloc::{AllocError, Global};

/// The groups in which the requests of a batch run, in order: in batch order a request's group is
/// the first if no earlier request conflicts with it, and else the one after the last group of
/// those. Each group has the places of its requests in the batch, and their steps.
pub fn mix(alloc: Global, requests: &[Request]) -> Result<Vec<Group>, AllocError>
    requires { length requests.now ≤ 2 ^ 32 }
    ensures groups { IfOk result (λ groups. groups.items ≡ groups_of requests.now) }
    ensures each_place_once { IfOk result (λ groups.
        IsPermutation (range_with_len 0 (length requests.now)) (places_in groups.items)) }
{
    let numbers = group_numbers(alloc, requests)?;
    let count = group_count(&numbers);
    let mut groups = Vec::with_capacity(alloc, count)?;
    for number in 0..count {
        groups.push(group_at(alloc, requests, &numbers, number)?)?;
    }
    Ok(groups)
}

/// The number of the group in which each request runs, in batch order: see `mix`.
pub fn group_numbers(alloc: Global, requests: &[Request]) -> Result<Vec<usize>, AllocError>
    ensures numbers { IfOk result (λ numbers. numbers.items ≡ numbers_of requests.now) }
    ensures one_each { IfOk result (λ numbers. length numbers.items ≡ length requests.now) }
    ensures small { IfOk result (λ numbers. All (λ n. n < length requests.now) numbers.items) }
{
    let mut numbers = Vec::with_capacity(alloc, requests.len())?;
    for (i, request) in requests.iter().enumerate() {
        numbers.push(number_after(&requests[..i], &numbers, &request.command))?;
    }
    Ok(numbers)
}

/// The number of the command's group, after requests with these numbers.
fn number_after(earlier: &[Request], numbers: &[usize], command: &Command) -> usize
    requires one_each { length numbers.now ≡ length earlier.now }
    requires small { All (λ n. n < length numbers.now) numbers.now }
    ensures number { result ≡ after (zip (commands_of earlier.now) numbers.now) command.now }
    ensures small { result ≤ length numbers.now }
{
    let mut most = 0;
    for i in 0..numbers.len() {
        if conflict(&earlier[i].command, command) {
            most = most.max(numbers[i] + 1);
        }
    }
    most
}

/// How many groups there are.
fn group_count(numbers: &[usize]) -> usize
    requires { All (λ n. n < length numbers.now) numbers.now }
    ensures { result ≡ count_in numbers.now }
{
    let mut count = 0;
    for number in numbers {
        count = count.max(*number + 1);
    }
    count
}

/// The group of this number.
fn group_at(
    alloc: Global,
    requests: &[Request],
    numbers: &[usize],
    number: usize,
) -> Result<Group, AllocError>
    requires one_each { length numbers.now ≡ length requests.now }
    requires fits { length requests.now ≤ 2 ^ 32 }
    ensures { IfOk result (λ group. group
        ≡ members number (zip numbers.now (tasks_from 0 requests.now))) }
{
    let mut tasks = Vec::new(alloc);
    for (i, request) in requests.iter().enumerate() {
        if numbers[i] == number {
            tasks.push(task_of(alloc, i, request)?)?;
        }
    }
    Ok(Group::new(tasks))
}

/// The request at this place, as a task.
fn task_of(alloc: Global, place: usize, request: &Request) -> Result<Task, AllocError>
    requires { place < 2 ^ 32 }
    ensures { IfOk result (λ task. task ≡ task_in place request.now) }
{
    Ok(Task {
        place: place as u32,
        steps: Steps::new(steps_of(alloc, &request.command)?),
    })
}
