ghost use Rattle.std.specs.Prelude.{◌≡◌, [], ◌∷◌, length, MatchOption, ◌≢◌};
ghost use Rattle.byte_lines.specs.Bytes.{Bytes};
ghost use Rattle.message.specs.Groups.{role};
ghost use Rattle.levels.specs.Opened.{group_of, groups};
ghost use Rattle.levels.specs.Fits.{role_by, InDepth, mark_of, Decides};

use super::{Fit, Level, Levels, NEAR};
use byte_lines::first_line;

const HYPHEN: u8 = b'-';

/// A line of one group.
#[derive(Clone, Copy)]
enum Mark {
    Separator,
    Closing,
}

/// What follows two hyphens at the text's start, if they stand there.
fn after_hyphens(text: &[u8]) -> Option<&[u8]>
    ensures { MatchOption result ((t : Bytes) → text.now ≢ 45 ∷ (45 ∷ t)) (λ t. text.now ≡ 45 ∷ (45 ∷ t.now)) }
{
    match text {
        [HYPHEN, HYPHEN, rest @ ..] => Some(rest),
        _ => None,
    }
}

/// Which line of a group it is whose boundary stands in it behind two hyphens, with `tail` behind the boundary.
fn ending(tail: &[u8]) -> Option<Mark>
    ensures { result ≡ mark_of [] tail.now }
{
    match tail {
        [] => Some(Mark::Separator),
        [HYPHEN, HYPHEN] => Some(Mark::Closing),
        [_, ..] => None,
    }
}

impl Level {
    /// Which line of this group it is, by what follows the line's two hyphens.
    fn mark(&self, after: &[u8]) -> Option<Mark>
        ensures { result ≡ mark_of (group_of self.now).boundary after.now }
    {
        ending(after.strip_prefix(self.boundary.as_bytes())?)
    }
}

impl Levels {
    /// What a line is, by what follows its two hyphens. The innermost group that it fits counts.
    fn fit_after(&self, after: &[u8]) -> Option<Fit>
        ensures is { role_by (groups self.now) result ≡ role (groups self.now) (45 ∷ (45 ∷ after.now)) }
        ensures within { InDepth (length (groups self.now)) result }
    {
        for (i, level) in self.open().iter().rev().enumerate() {
            match level.mark(after) {
                Some(Mark::Separator) => return Some(Fit::Separates(i)),
                Some(Mark::Closing) => return Some(Fit::Closes(i)),
                None => {}
            }
        }
        None
    }

    /// What a whole line is to the open groups.
    #[tactic(auto, using(crate::proofs::LineTests::role_other))]
    pub fn fit(&self, line: &[u8]) -> Option<Fit>
        ensures is { role_by (groups self.now) result ≡ role (groups self.now) line.now }
        ensures within { InDepth (length (groups self.now)) result }
    {
        self.fit_after(after_hyphens(line)?)
    }

    /// What the first line of a text is to the open groups, by a view of at least 76 bytes of the text, or of all of it.
    pub fn fit_view(&self, view: &[u8]) -> Option<Fit>
        ensures is { Decides (groups self.now) view.now result }
        ensures within { InDepth (length (groups self.now)) result }
    {
        let after = after_hyphens(&view[..view.len().min(NEAR)])?;
        self.fit_after(&after[..first_line(after).len])
    }
}
