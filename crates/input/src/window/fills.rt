ghost use Rattle.std.specs.Prelude.{◌≡◌, ◌+◌, ◌-◌, ◌<◌, ◌≤◌, ◌||◌, min, length, is_some, Some, None, nat_le};
ghost use Rattle.source.specs.declared.ends.End.{End};
ghost use Rattle.input.specs.Inputs.{meaning, shown, known, overlong as overlong_end, Kept, AllShown};
ghost use Rattle.input.specs.Filling.{wanting};

use super::{Input, LIMIT, WINDOW};
use source::{End, Fault, Source};

/// The end of an input whose source has more bytes.
fn overlong() -> End
    ensures { result ≡ overlong_end }
{
    End::Faulty(Fault {
        number: 31,
        layer: 3,
        place: LIMIT as u32,
    })
}

impl<S: Source> Input<S> {
    /// Pulls until the window shows `need` bytes, or as many as it can, or all that is left.
    pub fn fill(&mut self, need: usize)
        ensures keeps { Kept S.Source.meaning self.old self.new }
        ensures shows { length (shown self.new) < min need 16384 → AllShown S.Source.meaning self.new (meaning S.Source.meaning self.new).ending }
        ensures idle { min need 16384 ≤ length (shown self.old) → self.new ≡ self.old }
        ensures ended { (e : End) → known self.old ≡ Some e → self.new ≡ self.old }
    {
        let wanted = need.min(WINDOW);
        if self.shows(wanted) {
            return;
        }
        self.make_room(wanted);
        while !self.shows(wanted) {
            self.pull_more();
        }
    }

    /// Whether the window shows `wanted` bytes, or all that is left.
    fn shows(&self, wanted: usize) -> bool
        ensures { result ≡ (nat_le wanted (self.now.to - self.now.from) || is_some self.now.end) }
    {
        self.to - self.from >= wanted || self.end.is_some()
    }

    /// Moves what the window shows to its start, unless `wanted` bytes fit where it stands.
    #[tactic(auto, unfolding(crate::specs::Inputs::meaning, crate::specs::Inputs::shown))]
    fn make_room(&mut self, wanted: usize)
        requires { wanted ≤ 16384 }
        ensures keeps { Kept S.Source.meaning self.old self.new }
        ensures room { self.new.from + wanted ≤ 16384 }
    {
        if self.from <= WINDOW - wanted {
            return;
        }
        self.window.copy_within(self.from..self.to, 0);
        self.to -= self.from;
        self.from = 0;
    }

    /// One pull more into the free end of the window, as far as the limit goes. At the limit a byte more makes the end a fault.
    fn pull_more(&mut self)
        requires room { self.old.to < 16384 }
        requires unended { self.old.end ≡ None }
        ensures keeps { Kept S.Source.meaning self.old self.new }
        ensures nearer { wanting self.new < wanting self.old }
        ensures stands { self.new.from ≡ self.old.from }
    {
        let most = LIMIT - (self.at + (self.to - self.from));
        let room = (WINDOW - self.to).min(most.max(1));
        match self.source.pull(&mut self.window[self.to..self.to + room]) {
            Ok(_) if most == 0 => self.end = Some(overlong()),
            Ok(n) => self.to += n,
            Err(end) => self.end = Some(end),
        }
    }
}
