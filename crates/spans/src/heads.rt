ghost use Rattle.std.specs.Prelude.{◌≡◌, ◌+◌, ◌-◌, ◌<◌, ◌≤◌, min, length, take, drop};
ghost use Rattle.byte_lines.specs.Spans.{FirstLine};
ghost use Rattle.input.specs.Inputs.{meaning, shown, Kept, AllShown};
ghost use Rattle.message.specs.Groups.{role, text};
ghost use Rattle.message.specs.HeadWalks.{Walked};
ghost use Rattle.levels.specs.Opened.{groups};
ghost use Rattle.levels.specs.Fits.{role_by, InDepth, leading};
ghost use Rattle.spans.specs.Found.{Finds, width as span_width, in_depth, LineFinds, line_width, line_in_depth, Ends};

use byte_lines::{LineSpan, first_line};
use input::Input;
use levels::{Fit, Levels, NEAR};
use source::Source;
use std::ops::ControlFlow;

/// How many bytes a head may have.
const MOST: usize = 8192;

/// So many bytes, and the CRLF of an empty line, are looked at.
const SEEN: usize = 8194;

/// What ends a head.
#[derive(Clone, Copy)]
pub enum HeadEnd {
    /// A line of an open group.
    Line(Fit),
    /// An empty line.
    Empty,
    /// The input's end.
    End,
    /// That was not looked for: a line takes the head past its limit.
    Long,
}

/// How many bytes the lines of a head have, as far as they were looked at, and what stands behind them.
#[derive(Clone, Copy)]
pub struct HeadSpan {
    pub len: usize,
    pub end: HeadEnd,
}

/// Finds the head that begins where the input stands. It is shown then, with the empty line if one ends it.
pub fn find_head<S: Source>(input: &mut Input<S>, levels: &Levels) -> HeadSpan
    ensures keeps { Kept S.Source.meaning input.old input.new }
    ensures shows { span_width result ≤ length (shown input.new) }
    ensures within { in_depth (length (groups levels.now)) result }
    ensures finds { Finds (groups levels.now) (meaning S.Source.meaning input.old).offset (meaning S.Source.meaning input.old).left result }
{
    let mut at = 0;
    loop {
        match head_line(input, levels, at) {
            ControlFlow::Continue(to) => at = to,
            ControlFlow::Break(span) => return span,
        }
    }
}

// No struct of input, levels and place: its methods would also have to promise that levels and place stay.
/// Looks at the line behind the first `at` bytes of a head. The head goes on behind so many bytes, or ends.
fn head_line<S: Source>(
    input: &mut Input<S>,
    levels: &Levels,
    at: usize,
) -> ControlFlow<HeadSpan, usize>
    requires few { at ≤ 8192 }
    requires within { at ≤ length (shown input.old) }
    requires walked { Walked (groups levels.now) (meaning S.Source.meaning input.old).offset (meaning S.Source.meaning input.old).left at }
    ensures keeps { Kept S.Source.meaning input.old input.new }
    ensures shows { line_width result ≤ length (shown input.new) }
    ensures depth { line_in_depth (length (groups levels.now)) result }
    ensures finds { LineFinds (groups levels.now) (meaning S.Source.meaning input.old).offset (meaning S.Source.meaning input.old).left at result }
{
    if let Some(fit) = fit_at(input, levels, at) {
        return ControlFlow::Break(HeadSpan {
            len: at,
            end: HeadEnd::Line(fit),
        });
    }
    let line = show_line(input, at);
    let seen = input.view().len().min(SEEN);
    classify(at, seen, line)
}

/// What the line behind the first `at` bytes is to the open groups.
fn fit_at<S: Source>(input: &mut Input<S>, levels: &Levels, at: usize) -> Option<Fit>
    requires few { at ≤ 8192 }
    requires within { at ≤ length (shown input.old) }
    ensures keeps { Kept S.Source.meaning input.old input.new }
    ensures is { role_by (groups levels.now) result ≡ role (groups levels.now) (leading (drop at (meaning S.Source.meaning input.old).left)) }
    ensures depth { InDepth (length (groups levels.now)) result }
{
    input.fill(at + NEAR);
    let view = input.view();
    levels.fit_view(&view[at..])
}

/// The line behind the first `at` bytes, as far as it lies in the first 8,194: with its CRLF, or all that is left, or all of these bytes.
fn show_line<S: Source>(input: &mut Input<S>, at: usize) -> LineSpan
    requires few { at ≤ 8192 }
    requires within { at ≤ length (shown input.old) }
    ensures keeps { Kept S.Source.meaning input.old input.new }
    ensures line { FirstLine (take (min (length (shown input.new)) 8194 - at) (drop at (shown input.new))) result.len result.width }
    ensures all { result.width ≤ result.len → length (shown input.new) < 8194 → (meaning S.Source.meaning input.new).left ≡ shown input.new }
{
    loop {
        let view = input.view();
        let have = view.len();
        let seen = have.min(SEEN);
        let line = first_line(&view[at..seen]);
        if line.len < line.width || have >= SEEN || input.end().is_some() {
            return line;
        }
        input.fill(have + 1);
    }
}

/// What a line behind `at` bytes is to the head, where it is no line of a group, and the first `seen` bytes were looked at.
fn classify(at: usize, seen: usize, line: LineSpan) -> ControlFlow<HeadSpan, usize>
    requires within { at + line.width ≤ 8194 }
    ensures { result ≡ Ends at seen line }
{
    let LineSpan { len, width } = line;
    let (len, end) = if len == width {
        let end = if seen < SEEN {
            HeadEnd::End
        } else {
            HeadEnd::Long
        };
        (seen, end)
    } else if len == 0 {
        (at, HeadEnd::Empty)
    } else if at + width <= MOST {
        return ControlFlow::Continue(at + width);
    } else {
        (at + width, HeadEnd::Long)
    };
    ControlFlow::Break(HeadSpan { len, end })
}
