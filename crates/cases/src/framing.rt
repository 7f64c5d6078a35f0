use crate::Cut;
use chunked::Chunked;
use source::{Block, End, Fault, Parcels, Source};
use std::alloc::Global;
use std::process::Abort;
use std::test::Fail;

/// What stands below, and what the framing makes of it.
#[derive(Clone, Copy)]
struct Case {
    below: &'static [u8],
    data: &'static [u8],
    end: End,
}

fn clean(below: &'static [u8], data: &'static [u8]) -> Case {
    Case {
        below,
        data,
        end: End::Clean,
    }
}

fn faulty(number: u32, layer: u32, place: u32) -> End {
    End::Faulty(Fault {
        number,
        layer,
        place,
    })
}

fn fault(below: &'static [u8], data: &'static [u8], number: u32, place: u32) -> Case {
    Case {
        below,
        data,
        end: faulty(number, 2, place),
    }
}

/// What one pull gives, behind what came before, or the end.
fn take<S: Source>(
    rt: &impl Abort,
    source: &mut S,
    buffer: &mut [u8],
    out: &mut Vec<u8>,
) -> Result<Option<End>, Fail> {
    match source.pull(buffer) {
        Ok(n) => {
            assert!(rt; n <= buffer.len());
            out.extend_from_slice(&buffer[0..n])?;
            Ok(None)
        }
        Err(end) => Ok(Some(end)),
    }
}

/// All that a source gives into that buffer, and its end.
fn collect<S: Source>(
    rt: &impl Abort,
    source: &mut S,
    buffer: &mut [u8],
    out: &mut Vec<u8>,
) -> Result<End, Fail> {
    for _ in 0..100_000 {
        if let Some(end) = take(rt, source, buffer, out)? {
            return Ok(end);
        }
    }
    Err(Fail::new("no end"))
}

/// The bytes, the end, and the end again.
fn gives<S: Source>(
    rt: &impl Abort,
    heap: Global,
    source: &mut S,
    buffer: &mut [u8],
    data: &[u8],
    end: End,
) -> Result<(), Fail> {
    let mut out = Vec::new(heap);
    assert_eq!(rt; collect(rt, source, buffer, &mut out)?, end);
    assert!(rt; out.as_slice() == data);
    assert_eq!(rt; collect(rt, source, buffer, &mut out)?, end);
    assert!(rt; out.as_slice() == data);
    Ok(())
}

/// The framing over parcels, by pulls of 1, 2 and 64 bytes.
fn gives_in_parcels<'a>(
    rt: &impl Abort,
    heap: Global,
    below: &'a [u8],
    lengths: &'a [u32],
    data: &[u8],
    end: End,
) -> Result<(), Fail> {
    gives(
        rt,
        heap,
        &mut Chunked::new(Parcels::new(below, lengths)),
        &mut [0; 1],
        data,
        end,
    )?;
    gives(
        rt,
        heap,
        &mut Chunked::new(Parcels::new(below, lengths)),
        &mut [0; 2],
        data,
        end,
    )?;
    gives(
        rt,
        heap,
        &mut Chunked::new(Parcels::new(below, lengths)),
        &mut [0; 64],
        data,
        end,
    )
}

/// The same bytes and end in parcels of every small length.
fn holds(rt: &impl Abort, heap: Global, case: &Case) -> Result<(), Fail> {
    for n in 0..6u32 {
        gives_in_parcels(
            rt,
            heap,
            case.below,
            &[n, n, 0, n, 1, n],
            case.data,
            case.end,
        )?;
    }
    Ok(())
}

fn all_hold(rt: &impl Abort, heap: Global, cases: &[Case]) -> Result<(), Fail> {
    for case in cases {
        holds(rt, heap, case)?;
    }
    Ok(())
}

#[test]
fn whole_bodies(rt: HostRuntime) -> Result<(), Fail> {
    all_hold(
        &rt,
        rt.alloc(),
        &[
            clean(b"0\r\n\r\n", b""),
            clean(b"00000000\r\n\r\n", b""),
            clean(b"0;x\r\n\r\n", b""),
            clean(b"1\r\na\r\n0\r\n\r\n", b"a"),
            clean(b"3\r\nabc\r\n0\r\n\r\nrest", b"abc"),
            clean(b"00000003\r\nabc\r\n0\r\n\r\n", b"abc"),
            clean(
                b"A\r\n0123456789\r\nb\r\n0123456789a\r\n0\r\n\r\n",
                b"01234567890123456789a",
            ),
            clean(
                b"3;\r\nabc\r\n2 \r\nde\r\n1\t;=\"x\0\xff\r\nf\r\n0 x\r\n\r\n",
                b"abcdef",
            ),
            clean(b"2\r\n\r\n\r\n0\r\n\r\n", b"\r\n"),
        ],
    )
}

#[test]
fn trailers(rt: HostRuntime) -> Result<(), Fail> {
    all_hold(
        &rt,
        rt.alloc(),
        &[
            clean(b"0\r\nX: y\r\nZ\r\n\r\n", b""),
            clean(b"0\r\n\r\r\n\r\n", b""),
            clean(b"0\r\n\n\r\n\r\n", b""),
            clean(b"0\r\n\0a\rb\nc\r\r\n\r\n", b""),
            clean(b"0\r\n\rx\r\n\r\n", b""),
            fault(b"0\r\na", b"", 24, 4),
            fault(b"0\r\n\r", b"", 24, 4),
            fault(b"0\r\na\r\n", b"", 24, 6),
            fault(b"0\r\n\r\r\n", b"", 24, 6),
        ],
    )
}

#[test]
fn size_lines(rt: HostRuntime) -> Result<(), Fail> {
    all_hold(
        &rt,
        rt.alloc(),
        &[
            fault(b"1000000\r\nab", b"ab", 24, 11),
            fault(b"01000000\r\nab", b"ab", 24, 12),
            fault(b"1000001", b"", 21, 0),
            fault(b"1000001\r\n", b"", 21, 0),
            fault(b"FFFFFFFF", b"", 21, 0),
            fault(b"000000003\r\nabc\r\n", b"", 21, 0),
            fault(b"\r\n", b"", 21, 0),
            fault(b";x\r\n", b"", 21, 0),
            fault(b" 3\r\n", b"", 21, 0),
            fault(b"g\r\n", b"", 21, 0),
            fault(b"3g\r\n", b"", 21, 0),
            fault(b"3\n", b"", 21, 0),
            fault(b"3\rx", b"", 21, 0),
            fault(b"3\r\r", b"", 21, 0),
            fault(b"3;a\nb\r\n", b"", 21, 0),
            fault(b"3;a\rb\r\n", b"", 21, 0),
            fault(b"1\r\na\r\nz", b"a", 21, 6),
            fault(b"1\r\na\r\n\r\n", b"a", 21, 6),
        ],
    )
}

#[test]
fn behind_data(rt: HostRuntime) -> Result<(), Fail> {
    all_hold(
        &rt,
        rt.alloc(),
        &[
            fault(b"3\r\nabcd", b"abc", 23, 6),
            fault(b"3\r\nabc\rx", b"abc", 23, 6),
            fault(b"3\r\nabc\r\r\n", b"abc", 23, 6),
            fault(b"3\r\nabc\n", b"abc", 23, 6),
            fault(b"3\r\nabc\r", b"abc", 24, 7),
            fault(b"3\r", b"", 24, 2),
        ],
    )
}

/// Below ends, clean or not, behind each byte of a small body.
#[test]
fn cut_anywhere(rt: HostRuntime) -> Result<(), Fail> {
    let body = b"3;x\r\nabc\r\n0\r\nT: u\r\n\r\n";
    for k in 0..body.len() {
        let below = &body[0..k];
        let data = &b"abc"[0..k.saturating_sub(5).min(3)];
        let ended = faulty(24, 2, k as u32);
        let broken = faulty(9, 1, 7);
        gives(
            &rt,
            rt.alloc(),
            &mut Chunked::new(Cut::new(below, End::Clean)),
            &mut [0; 1],
            data,
            ended,
        )?;
        gives(
            &rt,
            rt.alloc(),
            &mut Chunked::new(Cut::new(below, End::Clean)),
            &mut [0; 64],
            data,
            ended,
        )?;
        gives(
            &rt,
            rt.alloc(),
            &mut Chunked::new(Cut::new(below, broken)),
            &mut [0; 64],
            data,
            broken,
        )?;
    }
    gives(
        &rt,
        rt.alloc(),
        &mut Chunked::new(Cut::new(body, faulty(9, 1, 7))),
        &mut [0; 64],
        b"abc",
        End::Clean,
    )
}

/// An empty buffer gets no bytes and moves nothing, and after the clean end the source below stands behind the empty line.
#[test]
fn below_stays_in_place(rt: HostRuntime) -> Result<(), Fail> {
    let mut chunked = Chunked::new(Block::new(b"2\r\nab\r\n0\r\n\r\nnext"));
    assert_eq!(rt; chunked.pull(&mut []), Ok(0));
    gives(
        &rt,
        rt.alloc(),
        &mut chunked,
        &mut [0; 64],
        b"ab",
        End::Clean,
    )?;
    assert_eq!(rt; chunked.pull(&mut []), Ok(0));
    gives(
        &rt,
        rt.alloc(),
        &mut chunked.into_source(),
        &mut [0; 64],
        b"next",
        End::Clean,
    )
}

/// 33,554,432 bytes may be taken, and no byte more.
#[test]
fn limit(rt: HostRuntime) -> Result<(), Fail> {
    let mut below = vec![in rt.alloc(); b'x'; 33_554_432]?;
    let n = below.len();
    assert!(rt; n == 33_554_432);
    below[0] = b'0';
    below[1] = b'\r';
    below[2] = b'\n';
    gives(
        &rt,
        rt.alloc(),
        &mut Chunked::new(Cut::new(below.as_slice(), faulty(9, 1, 7))),
        &mut [0; 64],
        b"",
        faulty(26, 2, 33_554_432),
    )?;
    below[n - 4] = b'\r';
    below[n - 3] = b'\n';
    below[n - 2] = b'\r';
    below[n - 1] = b'\n';
    gives(
        &rt,
        rt.alloc(),
        &mut Chunked::new(Cut::new(below.as_slice(), faulty(9, 1, 7))),
        &mut [0; 64],
        b"",
        End::Clean,
    )
}
