ghost use Rattle.std.specs.Prelude.{◌≡◌, [], length, take, is_ok};
ghost use Rattle.head.specs.BoundaryBytes.{boundary_bytes};
ghost use Rattle.message.specs.Groups.{innermost as number_in};
ghost use Rattle.levels.specs.Opened.{groups, pushed, popped};

use super::{DEPTH, Level, Levels, TooDeep};
use head::Boundary;

impl Level {
    /// What stands where no group is open.
    fn none() -> Self {
        Level {
            number: 0,
            boundary: Boundary::empty(),
        }
    }
}

impl Levels {
    /// No group is open.
    #[tactic(auto, unfolding(crate::specs::Opened::groups))]
    pub fn new() -> Self
        ensures { groups result ≡ [] }
    {
        Levels {
            slots: [Level::none(); DEPTH],
            count: 0,
        }
    }

    /// The open groups' levels.
    pub(super) fn open(&self) -> &[Level]
        ensures { result.now ≡ take self.now.count self.now.slots }
    {
        &self.slots[..self.count]
    }

    /// How many groups are open.
    #[tactic(auto, using(crate::proofs::Stacks::count_is))]
    pub fn depth(&self) -> u32
        ensures { result ≡ length (groups self.now) }
    {
        self.count as u32
    }

    /// The number of the innermost open group, 0 for none.
    // 0 and no Option, as an event tells its parent.
    pub fn innermost(&self) -> u32
        ensures { result ≡ number_in (groups self.now) }
    {
        self.open().last().map_or(0, |level| level.number)
    }

    /// Opens a group inside the others, unless eight are open.
    pub fn push(&mut self, number: u32, boundary: Boundary) -> Result<(), TooDeep>
        ensures { (is_ok result, groups self.new) ≡ pushed (record { number = number; boundary = boundary_bytes boundary }) (groups self.old) }
    {
        if self.count == DEPTH {
            return Err(TooDeep);
        }
        self.slots[self.count] = Level { number, boundary };
        self.count += 1;
        Ok(())
    }

    /// Closes the innermost group, if one is open, and answers its number.
    pub fn pop(&mut self) -> Option<u32>
        ensures { (result, groups self.new) ≡ popped (groups self.old) }
    {
        let number = self.open().last()?.number;
        self.count -= 1;
        Some(number)
    }
}
