//! A request of a seat, with the answers to the steps that it made.

ghost use Rattle.std.specs.Prelude.{◌≡◌, ◌<◌, ◌≤◌, ◌-◌, ◌++◌, ◌∷◌, [], true, false, Some, None, IfOk, OnOk, OnErr, option_map, length, slice_get};
ghost use Rattle.std.specs.Option.{option_copied};
ghost use Rattle.items.specs.Map.{Items};
ghost use Rattle.item_steps.specs.Effect.{effect};
ghost use Rattle.item_steps.specs.Schedule.{stamped};
ghost use Rattle.item_steps.specs.declared.step.Step.{Step};
ghost use Rattle.pages.specs.Step.{step_key};
ghost use Rattle.round.specs.Sittings.{next_of, is_done, task_fits};

use item_steps::{Answer, Stamp, Step, Task, apply};
use pages::Page;
use proto::Key;
use std::alloc::{AllocError, Global};
use std::marker::Model;

/// A request that ran, and the answers to its steps.
#[derive(Drop)]
pub struct Ran {
    task: Task,
    answers: Vec<Answer>,
}

impl Model for Ran {
    ghost use Rattle.round.specs.Sittings.{Running};

    ghost Value = { Running };

    ghost view = { λ r. record { task = r.task; answers = r.answers.items } };
}

impl Ran {
    /// The answers to its steps, in order.
    pub fn answers(&self) -> &[Answer]
        ensures { result.now ≡ self.now.answers }
    {
        self.answers.as_slice()
    }

    /// The request, and the answers to its steps, in order.
    pub fn into_parts(self) -> (Task, Vec<Answer>)
        ensures task { result.0 ≡ self.task }
        ensures answers { result.1.items ≡ self.answers }
    {
        (self.task, self.answers)
    }
}

/// A request, and the answers to the steps that it made.
#[derive(Drop)]
pub(crate) struct Running {
    task: Task,
    answers: Vec<Answer>,
}

impl Model for Running {
    ghost use Rattle.round.specs.Sittings.{Running};

    ghost Value = { Running };

    ghost view = { λ r. record { task = r.task; answers = r.answers.items } };
}

/// The key of a step.
fn key_of(step: &Step) -> &Key
    ensures { result.now ≡ step_key step.now }
{
    match step {
        Step::Read(key) => key,
        Step::ReadAndTouch { key, .. } => key,
        Step::Update(update) => update.key(),
    }
}

impl Running {
    /// The request before its first step.
    pub(crate) fn new(alloc: Global, task: Task) -> Running
        ensures { result ≡ record { task = task; answers = [] } }
    {
        Running {
            task,
            answers: Vec::new(alloc),
        }
    }

    pub(crate) fn place(&self) -> u32
        ensures { result ≡ self.now.task.place }
    {
        self.task.place
    }

    /// Whether no step is left.
    pub(crate) fn is_done(&self) -> bool
        ensures { result ≡ is_done self.now }
    {
        self.task.steps.as_slice().len() <= self.answers.len()
    }

    /// The key of the step that comes next, if one is left.
    pub(crate) fn next_key(&self) -> Option<&Key>
        ensures { option_copied result ≡ option_map step_key (next_of self.now) }
    {
        match self.task.steps.as_slice().get(self.answers.len()) {
            Some(step) => Some(key_of(step)),
            None => None,
        }
    }

    /// Makes the next step on its page, and notes its answer. It errs only if an allocation fails; then
    /// nothing changes.
    pub(crate) fn make(
        &mut self,
        alloc: Global,
        page: &mut Page,
        base: Stamp,
    ) -> Result<(), AllocError>
        requires left { is_done self.old ≡ false }
        requires fits { task_fits base self.old.task ≡ true }
        ensures ok { OnOk result ((step : Step) × (next_of self.old ≡ Some step)
            × (page.new.items ≡ (effect page.old.items step (stamped base self.old.task.place)).0)
            × (self.new ≡ record {
              task = self.old.task;
              answers = self.old.answers ++ (effect page.old.items step (stamped base self.old.task.place)).1 ∷ [];
            })) }
        ensures err { OnErr result ((page.new.items ≡ page.old.items) × (self.new ≡ self.old)) }
    {
        self.answers.reserve(1)?;
        let step = &self.task.steps.as_slice()[self.answers.len()];
        let at = Stamp {
            moment: base.moment,
            stamp: base.stamp + u64::from(self.task.place),
        };
        let answer = apply(alloc, page, step, at)?;
        if self.answers.push(answer).is_err() {
            unreachable!();
        }
        Ok(())
    }

    /// The last step that was made, and its answer.
    pub(crate) fn last(&self) -> (&Step, &Answer)
        requires some { 0 < length self.now.answers }
        requires steps { length self.now.answers ≤ length self.now.task.steps }
        ensures step { slice_get self.now.task.steps (length self.now.answers - 1) ≡ Some result.0.now }
        ensures answer { slice_get self.now.answers (length self.now.answers - 1) ≡ Some result.1.now }
    {
        let last = self.answers.len() - 1;
        (&self.task.steps.as_slice()[last], &self.answers[last])
    }

    /// The request once it ran.
    pub(crate) fn into_ran(self) -> Ran
        ensures { result ≡ self }
    {
        let Running { task, answers } = self;
        Ran { task, answers }
    }
}
