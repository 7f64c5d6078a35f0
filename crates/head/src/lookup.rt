ghost use Rattle.std.specs.Prelude.{◌≡◌, List, take, drop};
ghost use Rattle.head.specs.Fields.{Field, values_of};
ghost use Rattle.head.specs.Lookup.{fields_in, ValueIs};

use crate::faults::HeadFault;
use crate::names::is_named;
use crate::table::Record;
use std::marker::Model;

/// A part of the buffer, clipped to it.
fn part(buffer: &[u8], start: u16, len: u16) -> &[u8]
    ensures { result.now ≡ take len (drop start buffer.now) }
{
    let from = usize::from(start).min(buffer.len());
    let rest = &buffer[from..];
    &rest[..usize::from(len).min(rest.len())]
}

/// The fields that a table's records name in a head buffer.
#[derive(Drop)]
pub(crate) struct Fields<'a> {
    buffer: &'a [u8],
    table: &'a [Record],
}

impl<'a> Model for Fields<'a> {
    ghost Value = { List Field };

    ghost view = { λ f. fields_in f.buffer.now f.table.now };
}

impl<'a> Fields<'a> {
    pub(crate) fn new(buffer: &'a [u8], table: &'a [Record]) -> Self
        ensures { result ≡ fields_in buffer.now table.now }
    {
        Fields { buffer, table }
    }

    /// The value of the field of that name, which is in small letters, if there is one. A name that stands twice is refused.
    pub(crate) fn lookup(&self, word: &[u8]) -> Result<Option<&'a [u8]>, HeadFault>
        ensures { ValueIs result (values_of word.now self.now) }
    {
        let mut found = None;
        for record in self.table {
            if is_named(word, part(self.buffer, record.name_start, record.name_len)) {
                if found.is_some() {
                    return Err(HeadFault::Repeated);
                }
                found = Some(part(self.buffer, record.value_start, record.value_len));
            }
        }
        Ok(found)
    }
}
