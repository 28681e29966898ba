//! What is left of a group, and in which group a batch goes on.

ghost use Rattle.std.specs.Prelude.{◌≡◌, ◌==◌, ◌||◌, true, Some, None, IfSome, length, not};
ghost use Rattle.std.specs.List.{list_all};
ghost use Rattle.executor.specs.Through.{IsFirstLeft};
ghost use Rattle.executor.specs.Work.{comes_after as after, IsNextGroup, IsLast, is_complete, lesser, least_of};

use crate::batch_request::BatchRequest;

/// Whether no request of the group has a step left.
pub fn is_group_done(running: &[BatchRequest], group: usize) -> bool
    ensures { result ≡ list_all (λ r. not (r.group == group) || is_complete r) running.now }
{
    running
        .iter()
        .all(|r| r.group() != group || r.is_complete())
}

/// Whether no request made a step.
pub fn is_untouched(running: &[BatchRequest]) -> bool
    ensures { result ≡ list_all (λ r. length r.answers == 0) running.now }
{
    running.iter().all(|r| r.answers().is_empty())
}

/// The place of the first request of the group that has a step left.
pub fn next_place(running: &[BatchRequest], group: usize) -> Option<u32>
    ensures first { IfSome result (λ place. IsFirstLeft running.now group place) }
    ensures none { result ≡ None → list_all (λ r. not (r.group == group) || is_complete r) running.now ≡ true }
{
    for r in running {
        if r.group() == group && !r.is_complete() {
            return Some(r.place());
        }
    }
    None
}

fn comes_after(last: Option<usize>, group: usize) -> bool
    ensures { result ≡ after last group }
{
    match last {
        None => true,
        Some(last) => last < group,
    }
}

/// The lesser of the least group so far and this one, if this one comes after the last.
fn lesser_of(last: Option<usize>, least: Option<usize>, group: usize) -> Option<usize>
    ensures { result ≡ lesser last least group }
{
    if !comes_after(last, group) {
        return least;
    }
    match least {
        None => Some(group),
        Some(least) => Some(least.min(group)),
    }
}

fn least_group(running: &[BatchRequest], last: Option<usize>) -> Option<usize>
    ensures { result ≡ least_of last None running.now }
{
    let mut least = None;
    for r in running {
        least = lesser_of(last, least, r.group());
    }
    least
}

/// The first of the groups after the last one in which a request runs, if there is one.
#[tactic(auto, using(crate::proofs::GroupLemmas::least_is_next, crate::proofs::GroupLemmas::none_is_last))]
pub fn next_group(running: &[BatchRequest], last: Option<usize>) -> Option<usize>
    ensures some { IfSome result (λ next. IsNextGroup running.now last next) }
    ensures none { result ≡ None → IsLast running.now last }
{
    least_group(running, last)
}
