//! The requests of a batch that run.

ghost use Rattle.std.specs.Prelude.{◌≡◌, ◌≤◌, ◌<◌, ◌++◌, ◌∷◌, [], ◌==◌, ◌&&◌, ◌↔◌, true, false, None, Some, IfOk, IfSome, OnOk, OnErr, IfNone, IsTrue, length, take, slice_get, slice_index, All, not, nat_lt, if◌then◌else◌};
ghost use Rattle.std.specs.List.{list_any};
ghost use Rattle.mixer.specs.Groups.{numbers_of};
ghost use Rattle.executor.specs.Fresh.{runs};
ghost use Rattle.executor.specs.Work.{is_complete, is_ready, StepDone};
ghost use Rattle.executor.specs.GroupRun.{task_of_request};

use item_steps::{Answer, Stamp, Steps, Task, apply};
use mixer::group_numbers;
use pages::Pages;
use round::Ran;
use sessions::{Request, Sessions};
use std::alloc::{AllocError, Global};
use std::marker::Model;
use std::mem;

/// A request that runs: its place in the batch, the group that it is in, its steps, and the answers
/// to those that were made.
pub struct BatchRequest {
    place: u32,
    group: usize,
    steps: Steps,
    answers: Vec<Answer>,
}

impl Drop for BatchRequest {
    fn drop(self) {
        let BatchRequest {
            place: _,
            group: _,
            steps: _,
            answers: _,
        } = self;
    }
}

impl Model for BatchRequest {
    ghost use Rattle.executor.specs.BatchRequest.{BatchRequest};

    ghost Value = { BatchRequest };

    ghost view = { λ r. record { place = r.place; group = r.group; steps = r.steps; answers = r.answers.items } };
}

impl BatchRequest {
    /// The request before its first step.
    pub fn new(alloc: Global, place: u32, group: usize, steps: Steps) -> BatchRequest
        ensures { result ≡ record { place = place; group = group; steps = steps; answers = [] } }
    {
        BatchRequest {
            place,
            group,
            steps,
            answers: Vec::new(alloc),
        }
    }

    pub fn place(&self) -> u32
        ensures { result ≡ self.now.place }
    {
        self.place
    }

    pub fn group(&self) -> usize
        ensures { result ≡ self.now.group }
    {
        self.group
    }

    pub fn answers(&self) -> &[Answer]
        ensures { result.now ≡ self.now.answers }
    {
        self.answers.as_slice()
    }

    /// Whether no step is left.
    pub fn is_complete(&self) -> bool
        ensures { result ≡ is_complete self.now }
    {
        self.steps.as_slice().len() <= self.answers.len()
    }

    /// Whether the request is the one at the place, in the group, and has a step left.
    pub fn is_ready(&self, group: usize, place: u32) -> bool
        ensures { result ≡ is_ready group place self.now }
    {
        self.place == place && self.group == group && !self.is_complete()
    }

    /// Makes the next step on the pages, and notes its answer. If an allocation fails nothing changes.
    pub fn step(&mut self, alloc: Global, pages: &mut Pages, at: Stamp) -> Result<(), AllocError>
        requires { is_complete self.old ≡ false }
        ensures ok { OnOk result (StepDone self.old pages.old at self.new pages.new) }
        ensures err { OnErr result ((pages.new ≡ pages.old) × (self.new ≡ self.old)) }
    {
        self.answers.reserve(1)?;
        let answer = apply(alloc, pages, &self.steps.as_slice()[self.answers.len()], at)?;
        if self.answers.push(answer).is_err() {
            unreachable!();
        }
        Ok(())
    }

    /// The request as a round takes it: its steps are taken out.
    pub fn take_task(&mut self, alloc: Global) -> Task
        ensures task { result ≡ task_of_request self.old }
        ensures emptied { self.new ≡ record self.old { steps = [] } }
    {
        let none = Steps::new(Vec::new(alloc));
        Task {
            place: self.place,
            steps: mem::replace(&mut self.steps, none),
        }
    }

    /// Puts the steps back, with the answers that a round gave to them.
    pub fn put_back(&mut self, ran: Ran)
        ensures { self.new ≡ record self.old { steps = ran.task.steps; answers = ran.answers } }
    {
        let (task, answers) = ran.into_parts();
        self.steps = task.steps;
        self.answers = answers;
    }
}
