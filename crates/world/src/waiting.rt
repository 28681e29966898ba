//! What the executors wait for, if no letter comes.

ghost use Rattle.std.specs.Prelude.{◌≡◌};
ghost use Rattle.world.specs.Work.{work_event};

use crate::world::World;
use events::Event;
use exec_lines::NextWork;

/// The event by which an executor does what comes next of its work.
fn event_of(executor: u8, next: NextWork) -> Event
    ensures { result ≡ work_event executor next }
{
    match next {
        NextWork::Step(place) => Event::Step { executor, place },
        NextWork::Finish => Event::Finish { executor },
    }
}

impl World {
    ghost use Rattle.std.specs.Prelude.{slice_get};
    ghost use Rattle.world.specs.Work.{ComesOf, IsNextWork};

    /// What comes next of the work of this executor, if it is there, is up and has work.
    fn work_of(&self, id: u8) -> Option<Event>
        ensures { ComesOf (slice_get self.now.executors id) id result }
    {
        let slot = self.executors.get(usize::from(id))?;
        let next = slot.next_work()?;
        Some(event_of(id, next))
    }

    /// What comes next of the work of the lowest executor that is up and has work. None: none has.
    pub fn next_work(&self) -> Option<Event>
        ensures { IsNextWork self.now.executors result }
    {
        for id in 0..2 * self.u + 1 {
            if let Some(event) = self.work_of(id) {
                return Some(event);
            }
        }
        None
    }
}
