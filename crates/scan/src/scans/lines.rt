ghost use Rattle.scan.specs.GroupLines.{NextLine};

use super::Scan;
use byte_lines::first_line;
use levels::{Fit, NEAR};
use source::Source;

/// A line of an open group, and the offset at which it stands.
#[derive(Clone, Copy)]
pub struct GroupLine {
    pub fit: Fit,
    pub at: u32,
}

impl<S: Source> Scan<S> {
    /// Goes behind the body at hand, or behind what is dropped, and over the line that ends it; none where the input's end does.
    pub fn next_line(&mut self) -> Option<GroupLine>
        ensures { NextLine S.Source.meaning self.old self.new result }
    {
        self.skip_body();
        let fit = self.fit()?;
        let lines = self.leave_body();
        let at = lines.offset();
        lines.fill(NEAR);
        let width = first_line(lines.view()).width;
        lines.pass(width);
        Some(GroupLine { fit, at })
    }
}
