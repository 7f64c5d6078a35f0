use coding::Coding;
use head::{Head, HeadError, Record, read_head};
use std::alloc::Global;
use std::process::Abort;
use std::test::Fail;

const EMPTY: Record = Record {
    name_start: 9,
    name_len: 9,
    value_start: 9,
    value_len: 9,
};

/// What a head is read as.
#[derive(Clone, Copy, PartialEq, Eq, Debug)]
enum Expected<'a> {
    Leaf(u32, Coding, u32),
    Group(u32, &'a [u8]),
    Fault(u32, u32),
    Refused,
}

#[derive(Clone, Copy)]
struct Case {
    head: &'static [u8],
    expected: Expected<'static>,
}

fn leaf(head: &'static [u8], fields: u32, marks: u32) -> Case {
    Case {
        head,
        expected: Expected::Leaf(fields, Coding::Plain, marks),
    }
}

fn coded(head: &'static [u8], coding: Coding, marks: u32) -> Case {
    Case {
        head,
        expected: Expected::Leaf(1, coding, marks),
    }
}

fn group(head: &'static [u8], boundary: &'static [u8]) -> Case {
    Case {
        head,
        expected: Expected::Group(1, boundary),
    }
}

fn fault(head: &'static [u8], number: u32, offset: u32) -> Case {
    Case {
        head,
        expected: Expected::Fault(number, offset),
    }
}

fn seen(read: &Result<Head, HeadError>) -> Expected {
    match read {
        Ok(
            Head::Leaf {
                fields,
                coding,
                marks,
            },
        ) => Expected::Leaf(*fields, *coding, *marks),
        Ok(Head::Group { fields, boundary }) => Expected::Group(*fields, boundary.as_bytes()),
        Err(HeadError::Fault(at)) => Expected::Fault(at.fault.number(), at.offset),
        Err(HeadError::Short) => Expected::Refused,
    }
}

fn holds(rt: &impl Abort, case: &Case, around: u32) -> Result<(), Fail> {
    let mut buffer = [7; 8200];
    let mut table = [EMPTY; 65];
    let read = read_head(case.head, around, &mut buffer, &mut table);
    assert_eq!(rt; seen(&read), case.expected);
    Ok(())
}

fn all_hold(rt: &impl Abort, cases: &[Case]) -> Result<(), Fail> {
    for case in cases {
        holds(rt, case, 0)?;
    }
    Ok(())
}

#[test]
fn fields_and_lines(rt: HostRuntime) -> Result<(), Fail> {
    all_hold(
        &rt,
        &[
            leaf(b"", 0, 0),
            leaf(b"X: a\r\n", 1, 0),
            leaf(b"X: a", 1, 0),
            leaf(b"X:\r\n a\r\n\t\r\nY:\x80\x7f\x01\r\n", 2, 0),
            fault(b"X : a\r\n", 42, 0),
            fault(b": a\r\n", 42, 0),
            fault(b"X\r\n", 42, 0),
            fault(b" X: a\r\n", 42, 0),
            fault(b"X: a\r\n\r\n", 42, 6),
            fault(b"X: a\r\nY: \0\r\n", 42, 6),
            fault(b"X: a\r\n \0\r\n", 42, 6),
            fault(b"X: a\rb\r\n", 42, 0),
            fault(b"X: a\nb\r\n", 42, 0),
            fault(b"X: a\r", 42, 0),
            fault(b"X: a\r\r\n", 42, 0),
            fault(b"X\x7f: a\r\n", 42, 0),
            leaf(
                b"nnnnnnnnnnnnnnnnnnnnnnnnnnnnnnnnnnnnnnnnnnnnnnnnnnnnnnnnnnnnnnnn: a\r\n",
                1,
                0,
            ),
            fault(
                b"nnnnnnnnnnnnnnnnnnnnnnnnnnnnnnnnnnnnnnnnnnnnnnnnnnnnnnnnnnnnnnnnx: a\r\n",
                42,
                0,
            ),
        ],
    )
}

#[test]
fn content_types(rt: HostRuntime) -> Result<(), Fail> {
    all_hold(
        &rt,
        &[
            leaf(b"Content-Type: text/plain\r\n", 1, 0),
            leaf(b"content-TYPE: text/plain ; a=b; c=\"d;\\\"e\" ;\r\n", 1, 0),
            leaf(b"Content-Type:\r\n", 1, 1),
            leaf(b"Content-Type: text\r\n", 1, 1),
            leaf(b"Content-Type: text /plain\r\n", 1, 1),
            leaf(b"Content-Type: text/ plain\r\n", 1, 1),
            leaf(b"Content-Type: text/plain;;\r\n", 1, 1),
            leaf(b"Content-Type: text/plain; ;a=b\r\n", 1, 1),
            leaf(b"Content-Type: text/plain; a\r\n", 1, 1),
            leaf(b"Content-Type: text/plain; a =b\r\n", 1, 1),
            leaf(b"Content-Type: text/plain; a= b\r\n", 1, 1),
            leaf(b"Content-Type: text/plain; a=\r\n", 1, 1),
            leaf(b"Content-Type: text/plain; a=\"b\r\n", 1, 1),
            leaf(b"Content-Type: text/plain; a=\"b\\\"\r\n", 1, 1),
            leaf(b"Content-Type: text/plain; a=\"b\"c\r\n", 1, 1),
            leaf(b"Content-Type: text/plain (a)\r\n", 1, 1),
            leaf(b"Content-Type: multipart/mixed; boundary=\r\n", 1, 1),
            leaf(b"Content-Type: text/plain; a=\"\"\r\n", 1, 0),
            leaf(
                b"Content-Type: multiparts/mixed; boundary=a; boundary=b\r\n",
                1,
                0,
            ),
        ],
    )
}

#[test]
fn boundaries(rt: HostRuntime) -> Result<(), Fail> {
    all_hold(
        &rt,
        &[
            group(b"Content-Type: multipart/mixed; boundary=edge\r\n", b"edge"),
            group(
                b"Content-Type: MultiPart/x; BOUNDARY=\"edge\"; a=b;\r\n",
                b"edge",
            ),
            group(
                b"Content-Type: multipart/mixed;\r\n\tboundary=\" a'()+_,-./:=?Z9\"\r\n",
                b" a'()+_,-./:=?Z9",
            ),
            group(
                b"Content-Type: multipart/mixed; boundary=bbbbbbbbbbbbbbbbbbbbbbbbbbbbbbbbbbbbbbbbbbbbbbbbbbbbbbbbbbbbbbbbbbbbbb\r\n",
                b"bbbbbbbbbbbbbbbbbbbbbbbbbbbbbbbbbbbbbbbbbbbbbbbbbbbbbbbbbbbbbbbbbbbbbb",
            ),
            fault(
                b"Content-Type: multipart/mixed; boundary=bbbbbbbbbbbbbbbbbbbbbbbbbbbbbbbbbbbbbbbbbbbbbbbbbbbbbbbbbbbbbbbbbbbbbbx\r\n",
                46,
                0,
            ),
            fault(b"Content-Type: multipart/mixed\r\n", 46, 0),
            fault(b"Content-Type: multipart/mixed; boundary=\"\"\r\n", 46, 0),
            fault(b"Content-Type: multipart/mixed; boundary=\"a \"\r\n", 46, 0),
            fault(
                b"Content-Type: multipart/mixed; boundary=\"a\tb\"\r\n",
                46,
                0,
            ),
            fault(
                b"Content-Type: multipart/mixed; boundary=\"a\\b\"\r\n",
                46,
                0,
            ),
            fault(b"Content-Type: multipart/mixed; boundary=a!\r\n", 46, 0),
            fault(b"Content-Type: multipart/mixed; boundary=a*b\r\n", 46, 0),
            fault(
                b"Content-Type: multipart/mixed; boundary=\"a\x80\"\r\n",
                46,
                0,
            ),
            fault(
                b"Content-Type: multipart/mixed; boundary=a; Boundary=a\r\n",
                46,
                0,
            ),
        ],
    )
}

#[test]
fn codings(rt: HostRuntime) -> Result<(), Fail> {
    all_hold(
        &rt,
        &[
            coded(b"Content-Transfer-Encoding: 7bit\r\n", Coding::Plain, 0),
            coded(b"Content-Transfer-Encoding: 8BIT\r\n", Coding::Plain, 0),
            coded(b"Content-Transfer-Encoding: Binary\r\n", Coding::Plain, 0),
            coded(
                b"content-transfer-encoding:Quoted-Printable\r\n",
                Coding::Quoted,
                0,
            ),
            coded(b"Content-Transfer-Encoding: BASE64 \r\n", Coding::Base64, 0),
            coded(b"Content-Transfer-Encoding: base64;\r\n", Coding::Plain, 2),
            coded(b"Content-Transfer-Encoding:\r\n", Coding::Plain, 2),
        ],
    )
}

/// Doubled fields, and the order of two faults in one head.
#[test]
fn order_of_faults(rt: HostRuntime) -> Result<(), Fail> {
    all_hold(
        &rt,
        &[
            fault(b"Content-Type: a\r\nX: y\r\ncontent-type: b\r\n", 44, 0),
            fault(
                b"Content-Transfer-Encoding: 7bit\r\nContent-Transfer-Encoding: 7bit\r\n",
                44,
                0,
            ),
            fault(
                b"Content-Disposition: a\r\nContent-Disposition: b\r\n",
                44,
                0,
            ),
            fault(
                b"Content-Type: multipart/a\r\nContent-Type: multipart/a\r\nContent-Transfer-Encoding: base64\r\n",
                44,
                0,
            ),
            fault(
                b"Content-Type: multipart/a\r\nContent-Transfer-Encoding: base64\r\n",
                45,
                0,
            ),
            fault(
                b"Content-Type: multipart/a; boundary=b\r\nContent-Transfer-Encoding: x\r\n",
                45,
                0,
            ),
            fault(b"Content-Type: a/b\r\nContent-Type: a/b\r\nX y\r\n", 42, 38),
        ],
    )?;
    holds(
        &rt,
        &fault(b"Content-Type: multipart/a; boundary=b\r\n", 47, 0),
        8,
    )?;
    holds(&rt, &fault(b"Content-Type: multipart/a\r\n", 46, 0), 8)?;
    holds(
        &rt,
        &group(b"Content-Type: multipart/a; boundary=b\r\n", b"b"),
        7,
    )
}

/// So many bytes of fields, the last one perhaps without its CRLF.
fn long_head(heap: Global, len: usize, ended: bool) -> Result<Vec<u8>, Fail> {
    let mut head = Vec::new(heap);
    head.extend_from_slice(b"X: ")?;
    for _ in 0..len.saturating_sub(if ended { 5 } else { 3 }) {
        head.push(b'a')?;
    }
    if ended {
        head.extend_from_slice(b"\r\n")?;
    }
    Ok(head)
}

fn reads_long(
    rt: &impl Abort,
    heap: Global,
    len: usize,
    ended: bool,
    expected: Expected,
) -> Result<(), Fail> {
    let head = long_head(heap, len, ended)?;
    assert_eq!(rt; head.len(), len);
    let mut buffer = [7; 8192];
    let mut table = [EMPTY; 64];
    let read = read_head(head.as_slice(), 0, &mut buffer, &mut table);
    assert_eq!(rt; seen(&read), expected);
    Ok(())
}

/// A head of 8,192 bytes passes and one of 8,193 does not, with and without its last CRLF; nor does one whose long line has a NUL.
#[test]
fn longest_head(rt: HostRuntime) -> Result<(), Fail> {
    let heap = rt.alloc();
    reads_long(&rt, heap, 8192, true, Expected::Leaf(1, Coding::Plain, 0))?;
    reads_long(&rt, heap, 8192, false, Expected::Leaf(1, Coding::Plain, 0))?;
    reads_long(&rt, heap, 8193, true, Expected::Fault(41, 0))?;
    reads_long(&rt, heap, 8193, false, Expected::Fault(41, 0))
}

fn reads_fields(
    rt: &impl Abort,
    heap: Global,
    count: usize,
    last: &[u8],
    expected: Expected,
) -> Result<(), Fail> {
    let mut head = Vec::new(heap);
    for _ in 0..count {
        head.extend_from_slice(b"X: y\r\n z\r\n")?;
    }
    head.extend_from_slice(last)?;
    let mut buffer = [7; 8192];
    let mut table = [EMPTY; 64];
    let read = read_head(head.as_slice(), 0, &mut buffer, &mut table);
    assert_eq!(rt; seen(&read), expected);
    Ok(())
}

/// 64 fields pass and a 65th does not; one that is no field is 42 all the same.
#[test]
fn most_fields(rt: HostRuntime) -> Result<(), Fail> {
    let heap = rt.alloc();
    reads_fields(&rt, heap, 64, b"", Expected::Leaf(64, Coding::Plain, 0))?;
    reads_fields(&rt, heap, 64, b"Y: z\r\n", Expected::Fault(43, 640))?;
    reads_fields(&rt, heap, 64, b"Y z\r\n", Expected::Fault(42, 640))
}

/// Names and values lie packed in order, with zeros behind them and what is beyond left alone.
#[test]
fn packing(rt: HostRuntime) -> Result<(), Fail> {
    let mut buffer = [7; 8194];
    let mut table = [EMPTY; 65];
    let read = read_head(
        b"Subject: \t a\r\n  b \r\nX:\r\n",
        0,
        &mut buffer,
        &mut table,
    );
    assert_eq!(rt; seen(&read), Expected::Leaf(2, Coding::Plain, 0));
    assert!(rt; &buffer[0..14] == b"Subjecta  bX\0\0".as_slice());
    assert!(rt; buffer[8190] == 0 && buffer[8191] == 0 && buffer[8192] == 7 && buffer[8193] == 7);
    let subject = Record {
        name_start: 0,
        name_len: 7,
        value_start: 7,
        value_len: 4,
    };
    let x = Record {
        name_start: 11,
        name_len: 1,
        value_start: 12,
        value_len: 0,
    };
    assert!(rt; table[0] == subject && table[1] == x);
    assert!(rt; table[2].value_len == 0 && table[63].name_start == 0 && table[64].name_start == 9);
    Ok(())
}

/// Short buffers are refused and left alone.
#[test]
fn short_buffers(rt: HostRuntime) {
    let mut buffer = [7; 8191];
    let mut table = [EMPTY; 64];
    let read = read_head(b"X: y\r\n", 0, &mut buffer, &mut table);
    assert_eq!(rt; seen(&read), Expected::Refused);
    assert!(rt; buffer[0] == 7 && table[0].name_start == 9);
    let mut long = [7; 8192];
    let mut few = [EMPTY; 63];
    let read = read_head(b"X: y\r\n", 0, &mut long, &mut few);
    assert_eq!(rt; seen(&read), Expected::Refused);
    assert!(rt; long[0] == 7 && few[0].name_start == 9);
}
