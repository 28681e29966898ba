//! Requests that run at once, as their steps.

ghost use Rattle.std.specs.Prelude.{◌≡◌};

use crate::step::Step;
use std::alloc::AllocError;
use std::marker::Model;

/// The steps of one request, in order.
pub struct Steps {
    steps: Vec<Step>,
}

impl Drop for Steps {
    fn drop(self) {
        let Steps { steps: _ } = self;
    }
}

impl Model for Steps {
    ghost use Rattle.std.specs.Prelude.{List};
    ghost use Rattle.item_steps.specs.declared.step.Step.{Step};

    ghost Value = { List Step };

    ghost view = { λ a. a.steps.items };
}

impl Steps {
    /// These steps, in their order.
    pub fn new(steps: Vec<Step>) -> Steps
        ensures { result ≡ steps.items }
    {
        Steps { steps }
    }

    /// The steps, in their order.
    pub fn as_slice(&self) -> &[Step]
        ensures { result.now ≡ self.now }
    {
        self.steps.as_slice()
    }
}

/// A request of a batch by its place, and its steps.
#[derive(Drop)]
pub struct Task {
    pub place: u32,
    pub steps: Steps,
}

/// The requests that run at once.
pub struct Group {
    tasks: Vec<Task>,
}

impl Drop for Group {
    fn drop(self) {
        let Group { tasks: _ } = self;
    }
}

impl Model for Group {
    ghost use Rattle.std.specs.Prelude.{List};
    ghost use Rattle.item_steps.specs.declared.group.Task.{Task};

    ghost Value = { List Task };

    ghost view = { λ a. a.tasks.items };
}

impl Group {
    /// These requests, in batch order.
    pub fn new(tasks: Vec<Task>) -> Group
        ensures { result ≡ tasks.items }
    {
        Group { tasks }
    }

    /// The requests, in batch order.
    pub fn as_slice(&self) -> &[Task]
        ensures { result.now ≡ self.now }
    {
        self.tasks.as_slice()
    }
}

impl Clone for Steps {
    ghost is_clone = { λ steps copy. copy ≡ steps };

    fn clone(&self) -> Result<Steps, AllocError> {
        Ok(Steps {
            steps: self.steps.clone()?,
        })
    }
}

impl Clone for Task {
    ghost is_clone = { λ task copy. copy ≡ task };

    fn clone(&self) -> Result<Task, AllocError> {
        Ok(Task {
            place: self.place,
            steps: self.steps.clone()?,
        })
    }
}

impl Clone for Group {
    ghost is_clone = { λ group copy. copy ≡ group };

    fn clone(&self) -> Result<Group, AllocError> {
        Ok(Group {
            tasks: self.tasks.clone()?,
        })
    }
}
