ghost use Rattle.std.specs.Prelude.{◌≡◌};
ghost use Rattle.decrees.specs.Start.{first_start, could_stand as could};

use crate::standing::Standing;

/// Where a log begins: the place of the last decree before it, and what stands after that.
#[derive(Clone, Copy, Debug, PartialEq, Eq)]
pub struct Start {
    pub place: u64,
    pub standing: Standing,
}

impl Start {
    /// Before any decree.
    pub fn first() -> Start
        ensures { result ≡ first_start }
    {
        Start {
            place: 0,
            standing: Standing::first(),
        }
    }

    /// Whether this could stand there: its numbers count as many decrees, and there is a Commit or a
    /// Rollback if they say so.
    pub fn could_stand(&self) -> bool
        ensures { result ≡ could self.now.place self.now.standing }
    {
        self.standing.could_stand(self.place)
    }
}
