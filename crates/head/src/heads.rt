ghost use Rattle.std.specs.Prelude.{◌≡◌, [], is_ok, OnOk, OnErr};
ghost use Rattle.head.specs.declared.heads.HeadError.TheVariants.{Fault};
ghost use Rattle.head.specs.Heads.{answer, head_says, head_read, head_cleared};
ghost use Rattle.head.specs.Packing.{packed, records, no_record};
ghost use Rattle.head.specs.Packs.{padded};

use crate::boundary::Boundary;
use crate::faults::{FaultAt, HeadFault, judge};
use crate::lookup::Fields;
use crate::opening::{Opening, decide};
use crate::packs::{BUFFER, TABLE, clear, pack};
use crate::table::Record;
use coding::Coding;

/// What a head tells of its entity.
#[derive(Clone, Copy)]
pub enum Head {
    /// A leaf, with the number of its fields.
    Leaf {
        fields: u32,
        coding: Coding,
        marks: u32,
    },
    /// A group, with the number of its fields.
    Group {
        fields: u32,
        boundary: Boundary,
    },
}

/// A head buffer under 8,192 bytes or a table under 64 records: nothing was read or written.
#[derive(Clone, Copy, PartialEq, Eq, Debug)]
pub struct Short;

/// Why a head was not read.
#[derive(Clone, Copy, PartialEq, Eq, Debug)]
pub enum HeadError {
    /// The head has a fault, of layer 4.
    Fault(FaultAt),
    /// A head buffer under 8,192 bytes or a table under 64 records: nothing was read or written.
    Short,
}

impl From<FaultAt> for HeadError {
    ghost from_gives = { λ f e. e ≡ Fault f };

    fn from(fault: FaultAt) -> Self {
        HeadError::Fault(fault)
    }
}

/// The fault of a head that is none of its lines stands at its start.
impl From<HeadFault> for HeadError {
    ghost from_gives = { λ f e. e ≡ Fault (record { fault = f; offset = 0 }) };

    fn from(fault: HeadFault) -> Self {
        HeadError::Fault(FaultAt { fault, offset: 0 })
    }
}

/// Reads a head into the head buffer and the table. They may hold anything where the head has a fault.
fn read_into(
    head: &[u8],
    around: u32,
    buffer: &mut [u8; BUFFER],
    table: &mut [Record; TABLE],
) -> Result<Head, HeadError>
    ensures answers { answer result ≡ (head_says around head.now).0 }
    ensures faulty { OnErr result ((head_says around head.now).1 ≡ []) }
    ensures laid { OnOk result ((buffer.new ≡ padded 0 8192 (packed (head_says around head.now).1)) × (table.new ≡ padded no_record 64 (records 0 (head_says around head.now).1))) }
{
    judge(head)?;
    let count = pack(head, buffer, table);
    let fields = count as u32;
    match decide(around, &Fields::new(buffer, &table[..count]))? {
        Opening::Leaf { coding, marks } => Ok(Head::Leaf {
            fields,
            coding,
            marks,
        }),
        Opening::Group(boundary) => Ok(Head::Group { fields, boundary }),
    }
}

/// Reads a head from the bytes of its lines, without the empty line, where so many groups are open around it.
///
/// The fields' names and values lie in the head buffer then, each named by a record of the table, with zeros behind them.
pub fn read_head(
    head: &[u8],
    around: u32,
    buffer: &mut [u8],
    table: &mut [Record],
) -> Result<Head, HeadError>
    ensures { (answer result, buffer.new, table.new) ≡ head_read around head.now buffer.old table.old }
{
    let buffer = buffer.first_chunk_mut::<BUFFER>().ok_or(HeadError::Short)?;
    let table = table.first_chunk_mut::<TABLE>().ok_or(HeadError::Short)?;
    let read = read_into(head, around, buffer, table);
    if read.is_err() {
        clear(buffer, table);
    }
    read
}

/// Leaves no field: zeros in the buffer's first 8,192 bytes and in the table's first 64 records. Refuses, and changes nothing, where
/// one of them is shorter.
pub fn clear_head(buffer: &mut [u8], table: &mut [Record]) -> Result<(), Short>
    ensures { (is_ok result, buffer.new, table.new) ≡ head_cleared buffer.old table.old }
{
    let buffer = buffer.first_chunk_mut::<BUFFER>().ok_or(Short)?;
    let table = table.first_chunk_mut::<TABLE>().ok_or(Short)?;
    clear(buffer, table);
    Ok(())
}
