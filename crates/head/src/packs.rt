ghost use Rattle.std.specs.Prelude.{◌≡◌, ℕ, ◌+◌, ◌<◌, ◌≤◌, false, [], length, nat_lt, slice_range};
ghost use Rattle.byte_lines.specs.Lines.{lines};
ghost use Rattle.byte_lines.specs.Strings.{before, after, trim_end};
ghost use Rattle.head.specs.Fields.{continues, fields_of};
ghost use Rattle.head.specs.LineFaults.{judged, passes};
ghost use Rattle.head.specs.Packing.{packed, records, no_record};
ghost use Rattle.head.specs.Packs.{Room, stripped, Puts, MorePacked, FieldPacked, padded};

use crate::faults::continues_field;
use crate::table::Record;
use crate::texts::{find, trimmed_end, trimmed_start};
use byte_lines::first_line;

/// How many bytes a head buffer has, and how many records a table.
pub(crate) const BUFFER: usize = 8192;

pub(crate) const TABLE: usize = 64;

const NO_RECORD: Record = Record {
    name_start: 0,
    name_len: 0,
    value_start: 0,
    value_len: 0,
};

/// The text before the line's first ':', and the text behind it. A line without ':' is all name.
#[tactic(auto, using(crate::proofs::Places::before_none, crate::proofs::Places::after_none))]
fn split_name(line: &[u8]) -> (&[u8], &[u8])
    ensures name { result.0.now ≡ before 58 line.now }
    ensures value { result.1.now ≡ after 58 line.now }
    ensures within { length result.0.now + length result.1.now ≤ length line.now }
{
    match find(b':', line) {
        Some(i) => (&line[..i], &line[i + 1..]),
        None => (line, &[]),
    }
}

/// A field that was packed: how many bytes its name and its value have, and what stands behind it in the head.
#[derive(Clone, Copy)]
struct Packed<'a> {
    name: usize,
    value: usize,
    rest: &'a [u8],
}

/// Puts texts one behind the other, the next one from `to` on.
#[derive(Drop)]
struct Packer<'a> {
    out: &'a mut [u8],
    to: usize,
}

impl Packer<'_> {
    /// Puts the text behind what was put.
    fn put(&mut self, text: &[u8])
        requires { Room self.old text.now }
        ensures { Puts self.old self.new text.now }
    {
        let end = self.to + text.len();
        self.out[self.to..end].copy_from_slice(text);
        self.to = end;
    }

    /// Puts more text of a value that begins at `base`. Blanks before its start are left out.
    #[tactic(auto, using(crate::proofs::Trims::length_trim_start))]
    fn put_value(&mut self, base: usize, text: &[u8])
        requires { Room self.old text.now }
        ensures puts { Puts self.old self.new (stripped (nat_lt base self.old.to) text.now) }
        ensures within { self.new.to ≤ self.old.to + length text.now }
    {
        if base < self.to {
            self.put(text);
        } else {
            self.put(trimmed_start(text));
        }
    }

    /// Puts the lines at the text's start that continue the field, whose value begins at `base`, and answers what stands behind them.
    fn put_more<'t>(&mut self, base: usize, text: &'t [u8]) -> &'t [u8]
        requires behind { base ≤ self.old.to }
        requires fits { Room self.old text.now }
        ensures { MorePacked base text.now result.now self.old self.new }
    {
        let mut rest = text;
        while continues_field(rest) {
            let line = first_line(rest);
            self.put_value(base, &rest[..line.len]);
            rest = &rest[line.width..];
        }
        rest
    }

    /// How many bytes the value that begins at `base` has without the blanks at its end.
    #[tactic(auto, using(crate::proofs::Trims::length_trim_end))]
    fn value_len(&self, base: usize) -> usize
        requires behind { base ≤ self.now.to }
        requires within { self.now.to ≤ length self.now.out.now }
        ensures len { result ≡ length (trim_end (slice_range self.now.out.now base self.now.to)) }
        ensures within { base + result ≤ self.now.to }
    {
        trimmed_end(&self.out[base..self.to]).len()
    }

    /// Puts the name and the value of the head's first field.
    fn pack_field<'h>(&mut self, head: &'h [u8]) -> Packed<'h>
        requires some { 0 < length head.now }
        requires starts { continues head.now ≡ false }
        requires fits { Room self.old head.now }
        ensures { FieldPacked head.now result.rest.now self.old self.new result.name result.value }
    {
        let line = first_line(head);
        let (name, value) = split_name(&head[..line.len]);
        self.put(name);
        let base = self.to;
        self.put_value(base, value);
        let rest = self.put_more(base, &head[line.width..]);
        let value = self.value_len(base);
        self.to = base + value;
        Packed {
            name: name.len(),
            value,
            rest,
        }
    }
}

/// Packs a head whose lines have no fault: its fields' names and values into the buffer, and a record for each field into the table, with zeros behind them.
/// Answers how many fields the head has.
pub(crate) fn pack(head: &[u8], buffer: &mut [u8; BUFFER], table: &mut [Record; TABLE]) -> usize
    requires lawful { (n : ℕ) × (judged 0 0 (lines head.now) ≡ passes n) }
    ensures few { result ≤ 64 }
    ensures count { result ≡ length (fields_of (lines head.now)) }
    ensures bytes { buffer.new ≡ padded 0 8192 (packed (fields_of (lines head.now))) }
    ensures records { table.new ≡ padded no_record 64 (records 0 (fields_of (lines head.now))) }
{
    let mut packer = Packer { out: buffer, to: 0 };
    let mut rest = head;
    // Counted by hand: what `pack_field` takes off is no iterator's, since it holds the packer.
    let mut n = 0;
    while !rest.is_empty() {
        let start = packer.to;
        let field = packer.pack_field(rest);
        table[n] = Record {
            name_start: start as u16,
            name_len: field.name as u16,
            value_start: (start + field.name) as u16,
            value_len: field.value as u16,
        };
        rest = field.rest;
        n += 1;
    }
    let to = packer.to;
    buffer[to..].fill(0);
    table[n..].fill(NO_RECORD);
    n
}

/// Leaves no field: zeros in the buffer and in the table.
#[tactic(auto, unfolding(crate::specs::Packing::packed, crate::specs::Packing::records))]
pub(crate) fn clear(buffer: &mut [u8; BUFFER], table: &mut [Record; TABLE])
    ensures bytes { buffer.new ≡ padded 0 8192 (packed []) }
    ensures records { table.new ≡ padded no_record 64 (records 0 []) }
{
    buffer.fill(0);
    table.fill(NO_RECORD);
}
