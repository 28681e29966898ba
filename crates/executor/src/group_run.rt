//! A group that runs as a round.

ghost use Rattle.std.specs.Prelude.{◌≡◌, ◌++◌, List, map, IfOk, OnOk};
ghost use Rattle.std.specs.Vec.Iter.{into_iter_items};
ghost use Rattle.item_steps.specs.declared.step.Answer.{Answer};
ghost use Rattle.item_steps.specs.declared.group.Task as task_type;
ghost use Rattle.executor.specs.BatchRequest.{BatchRequest as running_type};
ghost use Rattle.executor.specs.GroupRun.{task_at, tasks_in, emptied, answered_by, ran_of};

use crate::batch_request::BatchRequest;
use item_steps::Task;
use round::Ran;
use std::alloc::{AllocError, Global};
use std::vec::IntoIter;

/// Adds the request as a round takes it, if it is in the group: its steps are taken out.
fn take_next(
    alloc: Global,
    request: &mut BatchRequest,
    group: usize,
    tasks: &mut Vec<Task>,
) -> Result<(), AllocError>
    ensures task { OnOk result (tasks.new.items ≡ tasks.old.items ++ task_at group request.old) }
    ensures emptied { OnOk result (request.new ≡ emptied group request.old) }
{
    if request.group() == group {
        tasks.push(request.take_task(alloc))?;
    }
    Ok(())
}

/// The requests of the group as a round takes them: their steps are taken out.
pub fn take_tasks(
    alloc: Global,
    running: &mut Vec<BatchRequest>,
    group: usize,
) -> Result<Vec<Task>, AllocError>
    ensures tasks { IfOk result (λ tasks. tasks.items ≡ tasks_in group running.old.items) }
    ensures emptied { OnOk result (running.new.items ≡ map (emptied group) running.old.items) }
{
    let mut tasks = Vec::with_capacity(alloc, running.len())?;
    for request in running.iter_mut() {
        take_next(alloc, request, group, &mut tasks)?;
    }
    Ok(tasks)
}

/// Puts the steps back, with their answers, if the request is in the group: it is the next that ran.
fn put_next(request: &mut BatchRequest, group: usize, ran: &mut IntoIter<Ran>)
    ensures { (before : running_type) (answers_to : task_type.Task → List Answer) (later : List task_type.Task)
        → request.old ≡ emptied group before
        → into_iter_items ran.old ≡ map (ran_of answers_to) (task_at group before ++ later)
        → (request.new ≡ answered_by group answers_to before) × (into_iter_items ran.new ≡ map (ran_of answers_to) later) }
{
    if request.group() != group {
        return;
    }
    if let Some(next) = ran.next() {
        request.put_back(next);
    }
}

/// Puts the steps of the group's requests back, with their answers.
pub fn put_back(running: &mut Vec<BatchRequest>, group: usize, ran: Vec<Ran>)
    ensures { (before : List running_type) (answers_to : task_type.Task → List Answer)
        → running.old.items ≡ map (emptied group) before
        → ran.items ≡ map (ran_of answers_to) (tasks_in group before)
        → running.new.items ≡ map (answered_by group answers_to) before }
{
    let mut ran = ran.into_iter();
    for request in running.iter_mut() {
        put_next(request, group, &mut ran);
    }
}
