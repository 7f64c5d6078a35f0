ghost use Rattle.std.specs.Prelude.{◌≡◌, ◌<◌, ◌≤◌, min, ◌++◌, length, drop, is_ok};
ghost use Rattle.head.specs.BoundaryBytes.{boundary_bytes};
ghost use Rattle.input.specs.Inputs.{meaning, shown, unseen, known, passed, Kept, AllShown, Knows};
ghost use Rattle.levels.specs.Opened.{groups, pushed, popped};
ghost use Rattle.spans.specs.Found.{Finds, width as span_width, in_depth};

use head::Boundary;
use input::Input;
use levels::{Levels, TooDeep};
use source::{End, Source};
use spans::{HeadSpan, find_head};

/// An input inside the open groups. It is lent between bodies, and stands before a line then.
#[derive(Drop)]
pub struct Lines<S: Source> {
    pub(crate) input: Input<S>,
    pub(crate) levels: Levels,
}

impl<S: Source> Lines<S> {
    /// The open groups.
    pub fn levels(&self) -> &Levels
        ensures { result.now ≡ self.now.levels }
    {
        &self.levels
    }

    /// What the window shows: the first bytes of what is left of the input.
    pub fn view(&self) -> &[u8]
        ensures shows { result.now ≡ shown self.now.input }
        ensures front { (meaning S.Source.meaning self.now.input).left ≡ result.now ++ unseen S.Source.meaning self.now.input }
    {
        self.input.view()
    }

    /// The offset in the input of the first byte left.
    pub fn offset(&self) -> u32
        ensures { result ≡ (meaning S.Source.meaning self.now.input).offset }
    {
        self.input.offset()
    }

    /// The input's end, once it is known.
    pub fn end(&self) -> Option<End>
        ensures is { result ≡ known self.now.input }
        ensures means { Knows S.Source.meaning self.now.input result }
    {
        self.input.end()
    }

    /// Has the window show `need` bytes, or as many as it can, or all that is left.
    pub fn fill(&mut self, need: usize)
        ensures keeps { Kept S.Source.meaning self.old.input self.new.input }
        ensures shows { length (shown self.new.input) < min need 16384 → AllShown S.Source.meaning self.new.input (meaning S.Source.meaning self.new.input).ending }
        ensures inside { self.new.levels ≡ self.old.levels }
    {
        self.input.fill(need);
    }

    /// Passes over the first n bytes that the window shows, or all of them.
    pub fn pass(&mut self, n: usize)
        ensures means { meaning S.Source.meaning self.new.input ≡ passed (min n (length (shown self.old.input))) (meaning S.Source.meaning self.old.input) }
        ensures shows { shown self.new.input ≡ drop (min n (length (shown self.old.input))) (shown self.old.input) }
        ensures knows { known self.new.input ≡ known self.old.input }
        ensures inside { self.new.levels ≡ self.old.levels }
    {
        self.input.consume(n);
    }

    /// Opens a group inside the others, unless eight are open.
    pub fn push(&mut self, number: u32, boundary: Boundary) -> Result<(), TooDeep>
        ensures groups { (is_ok result, groups self.new.levels) ≡ pushed (record { number = number; boundary = boundary_bytes boundary }) (groups self.old.levels) }
        ensures input { self.new.input ≡ self.old.input }
    {
        self.levels.push(number, boundary)
    }

    /// Closes the innermost group, if one is open, and answers its number.
    pub fn pop(&mut self) -> Option<u32>
        ensures groups { (result, groups self.new.levels) ≡ popped (groups self.old.levels) }
        ensures input { self.new.input ≡ self.old.input }
    {
        self.levels.pop()
    }

    /// Finds the head that begins where the input stands. The window shows it then, with the empty line if one ends it.
    pub fn find_head(&mut self) -> HeadSpan
        ensures keeps { Kept S.Source.meaning self.old.input self.new.input }
        ensures shows { span_width result ≤ length (shown self.new.input) }
        ensures within { in_depth (length (groups self.old.levels)) result }
        ensures finds { Finds (groups self.old.levels) (meaning S.Source.meaning self.old.input).offset (meaning S.Source.meaning self.old.input).left result }
        ensures inside { self.new.levels ≡ self.old.levels }
    {
        let Lines { input, levels } = self;
        find_head(input, levels)
    }
}
