ghost use Rattle.std.specs.Prelude.{◌≡◌, [], ◌∷◌, ◌≢◌};
ghost use Rattle.source.specs.Meanings.{fault};
ghost use Rattle.message.specs.Entries.{closed};
ghost use Rattle.message.specs.Rows.{last_entry};
ghost use Rattle.levels.specs.Fits.{FitsIn};
ghost use Rattle.reader.specs.Readers.{meaning, last_of};
ghost use Rattle.reader.specs.Nexts.{Passed, end_by, Standing, Closing, closing_by, deeper_of, Tells};
ghost use Rattle.reader.specs.declared.reader.Stage.TheVariants.{Body as InBody, Between as IsBetween, Line as AtGroupLine};

use super::{Reader, Stage};
use coding::Coding;
use levels::Fit;
use message::{Event, Kind};
use scan::GroupLine;
use source::{End, Fault, Source};

/// The mark of a group that no line of its own closed.
const UNTERMINATED: u32 = 4;

/// The fit of a line where one group more is open inside the others.
fn deeper(fit: Fit) -> Fit
    requires { FitsIn 8 fit }
    ensures { result ≡ deeper_of fit }
{
    match fit {
        Fit::Separates(i) => Fit::Separates(i + 1),
        Fit::Closes(i) => Fit::Closes(i + 1),
    }
}

/// How a line closes the innermost open group: the mark that its closing has, and where the reader stands then.
fn closing(fit: Fit, at: u32) -> (u32, Stage)
    ensures { result ≡ closing_by fit at }
{
    match fit {
        Fit::Closes(0) => (0, Stage::Between),
        Fit::Closes(i) => (
            UNTERMINATED,
            Stage::Line {
                fit: Fit::Closes(i - 1),
                at,
            },
        ),
        Fit::Separates(0) => (UNTERMINATED, Stage::Head),
        Fit::Separates(i) => (
            UNTERMINATED,
            Stage::Line {
                fit: Fit::Separates(i - 1),
                at,
            },
        ),
    }
}

/// The fault of a message that ends at the offset `at` inside a group.
fn unclosed(at: u32) -> Fault
    ensures { result ≡ fault 32 3 at }
{
    Fault {
        number: 32,
        layer: 3,
        place: at,
    }
}

/// The input's end, as it is met inside so many groups, at the offset `at`.
fn end_in(end: Option<End>, depth: u32, at: u32) -> End
    ensures { result ≡ end_by end depth at }
{
    match end {
        Some(End::Clean) if depth > 0 => End::Faulty(unclosed(at)),
        _ => end.unwrap_or(End::Clean),
    }
}

/// What a message of so many entities ends with, at the offset `at`.
fn last_entry(end: End, entities: u32, at: u32) -> Result<Event, Fault>
    ensures { last_of result ∷ [] ≡ last_entry end entities at }
{
    match end {
        End::Clean => Ok(Event {
            kind: Kind::End,
            number: entities,
            parent: 0,
            depth: 0,
            at,
            coding: Coding::Plain,
            marks: 0,
            fields: 0,
        }),
        End::Faulty(fault) => Err(fault),
    }
}

impl<S: Source> Reader<S> {
    /// Goes behind a part, or over what is dropped, to the next line of a group or to the message's end.
    fn pass_between(&mut self)
        requires { self.old.stage ≡ IsBetween }
        ensures means { meaning S.Source.meaning self.new ≡ meaning S.Source.meaning self.old }
        ensures passed { Passed self.new.stage }
    {
        let Some(GroupLine { fit, at }) = self.scan.next_line() else {
            let lines = self.scan.lines();
            let at = lines.offset();
            let end = end_in(lines.end(), lines.levels().depth(), at);
            self.stage = Stage::Over(last_entry(end, self.entities, at));
            return;
        };
        self.stage = Stage::Line { fit, at };
    }

    /// Goes on to what next tells: an entity, a closing, or the last entry.
    fn go_on(&mut self)
        requires { self.old.stage ≢ InBody }
        ensures means { meaning S.Source.meaning self.new ≡ meaning S.Source.meaning self.old }
        ensures stands { Standing self.new.stage }
    {
        if let Stage::Between = self.stage {
            self.pass_between();
        }
        self.turn();
    }

    /// Stands before a head, where the line at hand separates two entities of the innermost group.
    fn turn(&mut self)
        requires body { self.old.stage ≢ InBody }
        requires between { self.old.stage ≢ IsBetween }
        ensures means { meaning S.Source.meaning self.new ≡ meaning S.Source.meaning self.old }
        ensures stands { Standing self.new.stage }
    {
        if let Stage::Line {
            fit: Fit::Separates(0),
            ..
        } = self.stage
        {
            self.stage = Stage::Head;
        }
    }

    /// Closes the innermost group by the line at hand.
    fn close_group(&mut self, fit: Fit, at: u32) -> Event
        requires stage { self.old.stage ≡ AtGroupLine fit at }
        requires closing { Closing fit }
        ensures { Tells S.Source.meaning self.old self.new (closed result) }
    {
        let (marks, stage) = closing(fit, at);
        let lines = self.scan.leave_body();
        let number = lines.pop().unwrap_or(0);
        let parent = lines.levels().innermost();
        let depth = lines.levels().depth();
        self.stage = stage;
        Event {
            kind: Kind::Close,
            number,
            parent,
            depth,
            at,
            coding: Coding::Plain,
            marks,
            fields: 0,
        }
    }
}
