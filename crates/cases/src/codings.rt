use coding::{Coding, Decoder, Fed, StillReady};
use source::{End, Fault};
use std::alloc::Global;
use std::process::Abort;
use std::test::Fail;

/// A raw body and the end it meets, and what it decodes to.
#[derive(Clone, Copy)]
struct Case {
    coding: Coding,
    raw: &'static [u8],
    met: End,
    data: &'static [u8],
    end: End,
}

fn faulty(number: u32, layer: u32, place: u32) -> End {
    End::Faulty(Fault {
        number,
        layer,
        place,
    })
}

/// A fault of the input.
fn broken() -> End {
    faulty(9, 1, 7)
}

fn clean(coding: Coding, raw: &'static [u8], data: &'static [u8]) -> Case {
    Case {
        coding,
        raw,
        met: End::Clean,
        data,
        end: End::Clean,
    }
}

/// A body with a fault of its own.
fn spoilt(
    coding: Coding,
    raw: &'static [u8],
    data: &'static [u8],
    number: u32,
    place: u32,
) -> Case {
    Case {
        coding,
        raw,
        met: End::Clean,
        data,
        end: faulty(number, 5, place),
    }
}

/// A body that meets the input's fault, and ends in `end`.
fn cut(coding: Coding, raw: &'static [u8], data: &'static [u8], end: End) -> Case {
    Case {
        coding,
        raw,
        met: broken(),
        data,
        end,
    }
}

/// One feed: answers how many raw bytes were taken.
fn feed_once(
    rt: &impl Abort,
    decoder: &mut Decoder,
    piece: &[u8],
    buffer: &mut [u8],
    out: &mut Vec<u8>,
) -> Result<usize, Fail> {
    let Fed { taken, given } = decoder.feed(piece, buffer);
    assert!(rt; given <= buffer.len());
    out.extend_from_slice(&buffer[0..given])?;
    Ok(taken)
}

/// Feeds a whole piece, by that buffer.
fn feed(
    rt: &impl Abort,
    decoder: &mut Decoder,
    piece: &[u8],
    buffer: &mut [u8],
    out: &mut Vec<u8>,
) -> Result<(), Fail> {
    let mut from = 0usize;
    for _ in 0..100_000 {
        assert!(rt; from <= piece.len());
        if from == piece.len() && !decoder.is_ready() {
            return Ok(());
        }
        from = from.saturating_add(feed_once(rt, decoder, &piece[from..], buffer, out)?);
    }
    Err(Fail::new("no end"))
}

/// The same decoded bytes and end for three pieces, cut at two places.
fn holds_in(
    rt: &impl Abort,
    heap: Global,
    case: &Case,
    first: usize,
    second: usize,
    buffer: &mut [u8],
) -> Result<(), Fail> {
    let raw = case.raw;
    assert!(rt; first <= second && second <= raw.len());
    let mut decoder = Decoder::new(case.coding, 0);
    let mut out = Vec::new(heap);
    feed(rt, &mut decoder, &raw[0..first], buffer, &mut out)?;
    feed(rt, &mut decoder, &raw[first..second], buffer, &mut out)?;
    feed(rt, &mut decoder, &raw[second..], buffer, &mut out)?;
    assert_eq!(rt; decoder.finish(case.met), Ok(()));
    feed(rt, &mut decoder, &[], buffer, &mut out)?;
    assert!(rt; out.as_slice() == case.data);
    assert_eq!(rt; decoder.outcome(), Some(case.end));
    Ok(())
}

/// Every way to cut a body into three pieces, or two, into buffers of 1, 3 and 64 bytes.
fn holds(rt: &impl Abort, heap: Global, case: &Case) -> Result<(), Fail> {
    for second in 0..case.raw.len() + 1 {
        for first in 0..second + 1 {
            holds_in(rt, heap, case, first, second, &mut [0; 1])?;
            holds_in(rt, heap, case, first, second, &mut [0; 3])?;
            holds_in(rt, heap, case, first, second, &mut [0; 64])?;
        }
    }
    Ok(())
}

fn all_hold(rt: &impl Abort, heap: Global, cases: &[Case]) -> Result<(), Fail> {
    for case in cases {
        holds(rt, heap, case)?;
    }
    Ok(())
}

#[test]
fn base64_bodies(rt: HostRuntime) -> Result<(), Fail> {
    let coding = Coding::Base64;
    all_hold(
        &rt,
        rt.alloc(),
        &[
            clean(coding, b"", b""),
            clean(coding, b"cGljb3Q=", b"picot"),
            clean(coding, b"cGljb3Q", b"picot"),
            clean(coding, b"cG lj=b", b"pic"),
            clean(coding, b"cGlj\r\nb3Q=\r\n", b"picot"),
            clean(coding, b"-_cG\0lj\xff", b"pic"),
            clean(coding, b"=cGlj", b""),
            clean(coding, b"cG=lj", b"p"),
            clean(coding, b"cGl=j", b"pi"),
            clean(coding, b"cGlj=cGlj", b"pic"),
            spoilt(coding, b"c", b"", 51, 1),
            spoilt(coding, b"c=GljcGlj", b"", 51, 1),
            spoilt(coding, b"cGlj b", b"pic", 51, 6),
            spoilt(coding, b"cGljb =", b"pic", 51, 6),
        ],
    )
}

#[test]
fn quoted_bodies(rt: HostRuntime) -> Result<(), Fail> {
    let coding = Coding::Quoted;
    all_hold(
        &rt,
        rt.alloc(),
        &[
            clean(coding, b"", b""),
            clean(coding, b"a=3Db=3db", b"a=b=b"),
            clean(coding, b"a= \r\nb", b"ab"),
            clean(coding, b"a=4", b"a=4"),
            clean(coding, b"a =\r\nb", b"a b"),
            clean(coding, b"a==\r\nb", b"a=b"),
            clean(coding, b"==3D", b"=="),
            clean(coding, b"==41", b"=A"),
            clean(coding, b"=4=41", b"=4A"),
            clean(coding, b"=3D41", b"=41"),
            clean(coding, b"= 41", b"= 41"),
            clean(coding, b"=4\r\n1", b"=4\r\n1"),
            clean(coding, b"=4=\r\n1", b"=41"),
            clean(coding, b"=4g=G1", b"=4g=G1"),
            clean(coding, b"a \t\r\n\r\n b\t", b"a\r\n\r\n b"),
            clean(coding, b"a=", b"a"),
            clean(coding, b"a= \t", b"a"),
            clean(coding, b"=\r\n=\r\n", b""),
            clean(coding, b"a \r", b"a \r"),
            clean(coding, b"a \rb \nc", b"a \rb \nc"),
            clean(coding, b"a \r\r\nb", b"a \r\r\nb"),
            clean(coding, b"=\rb", b"=\rb"),
        ],
    )
}

/// 76 blanks pass, in a line, at its end and at the body's end; 77 do not.
#[test]
fn runs_of_blanks(rt: HostRuntime) -> Result<(), Fail> {
    let coding = Coding::Quoted;
    all_hold(
        &rt,
        rt.alloc(),
        &[
            clean(
                coding,
                b"a \t \t \t \t \t \t \t \t \t \t \t \t \t \t \t \t \t \t \t \t \t \t \t \t \t \t \t \t \t \t \t \t \t \t \t \t \t \tb",
                b"a \t \t \t \t \t \t \t \t \t \t \t \t \t \t \t \t \t \t \t \t \t \t \t \t \t \t \t \t \t \t \t \t \t \t \t \t \t \tb",
            ),
            clean(
                coding,
                b"a \t \t \t \t \t \t \t \t \t \t \t \t \t \t \t \t \t \t \t \t \t \t \t \t \t \t \t \t \t \t \t \t \t \t \t \t \t \t\r\nb",
                b"a\r\nb",
            ),
            clean(
                coding,
                b"a \t \t \t \t \t \t \t \t \t \t \t \t \t \t \t \t \t \t \t \t \t \t \t \t \t \t \t \t \t \t \t \t \t \t \t \t \t \t",
                b"a",
            ),
            clean(
                coding,
                b"a= \t \t \t \t \t \t \t \t \t \t \t \t \t \t \t \t \t \t \t \t \t \t \t \t \t \t \t \t \t \t \t \t \t \t \t \t \t \t\r\nb",
                b"ab",
            ),
            spoilt(
                coding,
                b"a \t \t \t \t \t \t \t \t \t \t \t \t \t \t \t \t \t \t \t \t \t \t \t \t \t \t \t \t \t \t \t \t \t \t \t \t \t \t\tb",
                b"a",
                52,
                1,
            ),
            spoilt(
                coding,
                b"a \t \t \t \t \t \t \t \t \t \t \t \t \t \t \t \t \t \t \t \t \t \t \t \t \t \t \t \t \t \t \t \t \t \t \t \t \t \t\t\r\nb",
                b"a",
                52,
                1,
            ),
            spoilt(
                coding,
                b"a \t \t \t \t \t \t \t \t \t \t \t \t \t \t \t \t \t \t \t \t \t \t \t \t \t \t \t \t \t \t \t \t \t \t \t \t \t \t\t",
                b"a",
                52,
                1,
            ),
            spoilt(
                coding,
                b"a= \t \t \t \t \t \t \t \t \t \t \t \t \t \t \t \t \t \t \t \t \t \t \t \t \t \t \t \t \t \t \t \t \t \t \t \t \t \t \r\n",
                b"a=",
                52,
                2,
            ),
            spoilt(
                coding,
                b"=4 \t \t \t \t \t \t \t \t \t \t \t \t \t \t \t \t \t \t \t \t \t \t \t \t \t \t \t \t \t \t \t \t \t \t \t \t \t \t ",
                b"=4",
                52,
                2,
            ),
            spoilt(
                coding,
                b"a \r\n \t \t \t \t \t \t \t \t \t \t \t \t \t \t \t \t \t \t \t \t \t \t \t \t \t \t \t \t \t \t \t \t \t \t \t \t \t \t ",
                b"a\r\n",
                52,
                4,
            ),
        ],
    )
}

/// A fault found at a byte comes before the input's, one found at the body's end yields to it.
#[test]
fn faults_of_the_input(rt: HostRuntime) -> Result<(), Fail> {
    all_hold(
        &rt,
        rt.alloc(),
        &[
            cut(Coding::Plain, b"abc", b"abc", broken()),
            cut(Coding::Base64, b"c", b"", broken()),
            cut(Coding::Base64, b"cG", b"p", broken()),
            cut(Coding::Base64, b"cGlj=", b"pic", broken()),
            cut(Coding::Base64, b"c=", b"", faulty(51, 5, 1)),
            cut(Coding::Quoted, b"a= ", b"a", broken()),
            cut(Coding::Quoted, b"a=4", b"a=4", broken()),
            cut(Coding::Quoted, b"a=\r", b"a=\r", broken()),
            cut(
                Coding::Quoted,
                b"a \t \t \t \t \t \t \t \t \t \t \t \t \t \t \t \t \t \t \t \t \t \t \t \t \t \t \t \t \t \t \t \t \t \t \t \t \t \t",
                b"a",
                broken(),
            ),
            cut(
                Coding::Quoted,
                b"a \t \t \t \t \t \t \t \t \t \t \t \t \t \t \t \t \t \t \t \t \t \t \t \t \t \t \t \t \t \t \t \t \t \t \t \t \t \t ",
                b"a",
                faulty(52, 5, 1),
            ),
        ],
    )
}

/// Every way to cut a body into two pieces.
fn in_two(rt: &impl Abort, heap: Global, case: &Case) -> Result<(), Fail> {
    for first in 0..case.raw.len() + 1 {
        holds_in(rt, heap, case, first, case.raw.len(), &mut [0; 7])?;
    }
    Ok(())
}

/// All 256 bytes through the codings.
#[test]
fn every_byte(rt: HostRuntime) -> Result<(), Fail> {
    let bytes =
        b"\x00\x01\x02\x03\x04\x05\x06\x07\x08\x09\x0a\x0b\x0c\x0d\x0e\x0f\x10\x11\x12\x13\x14\x15\x16\x17\x18\x19\x1a\x1b\x1c\x1d\x1e\x1f\x20\x21\x22\x23\x24\x25\x26\x27\x28\x29\x2a\x2b\x2c\x2d\x2e\x2f\x30\x31\x32\x33\x34\x35\x36\x37\x38\x39\x3a\x3b\x3c\x3d\x3e\x3f\x40\x41\x42\x43\x44\x45\x46\x47\x48\x49\x4a\x4b\x4c\x4d\x4e\x4f\x50\x51\x52\x53\x54\x55\x56\x57\x58\x59\x5a\x5b\x5c\x5d\x5e\x5f\x60\x61\x62\x63\x64\x65\x66\x67\x68\x69\x6a\x6b\x6c\x6d\x6e\x6f\x70\x71\x72\x73\x74\x75\x76\x77\x78\x79\x7a\x7b\x7c\x7d\x7e\x7f\x80\x81\x82\x83\x84\x85\x86\x87\x88\x89\x8a\x8b\x8c\x8d\x8e\x8f\x90\x91\x92\x93\x94\x95\x96\x97\x98\x99\x9a\x9b\x9c\x9d\x9e\x9f\xa0\xa1\xa2\xa3\xa4\xa5\xa6\xa7\xa8\xa9\xaa\xab\xac\xad\xae\xaf\xb0\xb1\xb2\xb3\xb4\xb5\xb6\xb7\xb8\xb9\xba\xbb\xbc\xbd\xbe\xbf\xc0\xc1\xc2\xc3\xc4\xc5\xc6\xc7\xc8\xc9\xca\xcb\xcc\xcd\xce\xcf\xd0\xd1\xd2\xd3\xd4\xd5\xd6\xd7\xd8\xd9\xda\xdb\xdc\xdd\xde\xdf\xe0\xe1\xe2\xe3\xe4\xe5\xe6\xe7\xe8\xe9\xea\xeb\xec\xed\xee\xef\xf0\xf1\xf2\xf3\xf4\xf5\xf6\xf7\xf8\xf9\xfa\xfb\xfc\xfd\xfe\xff";
    let heap = rt.alloc();
    in_two(&rt, heap, &clean(Coding::Plain, bytes, bytes))?;
    in_two(
        &rt,
        heap,
        &clean(
            Coding::Base64,
            b"AAECAwQFBgcICQoLDA0ODxAREhMUFRYXGBkaGxwdHh8gISIjJCUmJygpKissLS4vMDEyMzQ1Njc4\r\nOTo7PD0+P0BBQkNERUZHSElKS0xNTk9QUVJTVFVWV1hZWltcXV5fYGFiY2RlZmdoaWprbG1ub3Bx\r\ncnN0dXZ3eHl6e3x9fn+AgYKDhIWGh4iJiouMjY6PkJGSk5SVlpeYmZqbnJ2en6ChoqOkpaanqKmq\r\nq6ytrq+wsbKztLW2t7i5uru8vb6/wMHCw8TFxsfIycrLzM3Oz9DR0tPU1dbX2Nna29zd3t/g4eLj\r\n5OXm5+jp6uvs7e7v8PHy8/T19vf4+fr7/P3+/w==\r\n",
            bytes,
        ),
    )?;
    in_two(
        &rt,
        heap,
        &clean(
            Coding::Quoted,
            b"=00=01=02=03=04=05=06=07=08=09=0A=0B=0C=0D=0E=0F=10=11=12=13=14=15=16=17=\r\n=18=19=1A=1B=1C=1D=1E=1F=20=21=22=23=24=25=26=27=28=29=2A=2B=2C=2D=2E=2F=\r\n=30=31=32=33=34=35=36=37=38=39=3A=3B=3C=3D=3E=3F=40=41=42=43=44=45=46=47=\r\n=48=49=4A=4B=4C=4D=4E=4F=50=51=52=53=54=55=56=57=58=59=5A=5B=5C=5D=5E=5F=\r\n=60=61=62=63=64=65=66=67=68=69=6A=6B=6C=6D=6E=6F=70=71=72=73=74=75=76=77=\r\n=78=79=7A=7B=7C=7D=7E=7F=80=81=82=83=84=85=86=87=88=89=8A=8B=8C=8D=8E=8F=\r\n=90=91=92=93=94=95=96=97=98=99=9A=9B=9C=9D=9E=9F=A0=A1=A2=A3=A4=A5=A6=A7=\r\n=A8=A9=AA=AB=AC=AD=AE=AF=B0=B1=B2=B3=B4=B5=B6=B7=B8=B9=BA=BB=BC=BD=BE=BF=\r\n=C0=C1=C2=C3=C4=C5=C6=C7=C8=C9=CA=CB=CC=CD=CE=CF=D0=D1=D2=D3=D4=D5=D6=D7=\r\n=D8=D9=DA=DB=DC=DD=DE=DF=E0=E1=E2=E3=E4=E5=E6=E7=E8=E9=EA=EB=EC=ED=EE=EF=\r\n=F0=F1=F2=F3=F4=F5=F6=F7=F8=F9=FA=FB=FC=FD=FE=FF",
            bytes,
        ),
    )
}

/// Places count from where the body starts, no byte is taken at the input's limit or past it, and while a decoded byte waits the
/// end is not taken.
#[test]
fn places_and_refusals(rt: HostRuntime) {
    let mut decoder = Decoder::new(Coding::Base64, 16_777_215);
    assert_eq!(rt; decoder.feed(b"cG", &mut []).taken, 1);
    assert_eq!(rt; decoder.feed(b"G", &mut []).taken, 0);
    assert_eq!(rt; decoder.finish(End::Clean), Ok(()));
    assert_eq!(rt; decoder.outcome(), Some(faulty(51, 5, 16_777_216)));
    let mut plain = Decoder::new(Coding::Plain, 0);
    assert_eq!(rt; plain.feed(b"ab", &mut []).taken, 1);
    assert!(rt; plain.is_ready());
    assert_eq!(rt; plain.finish(End::Clean), Err(StillReady));
    assert_eq!(rt; plain.outcome(), None);
    assert_eq!(rt; plain.feed(b"b", &mut [0; 4]).given, 1);
    assert_eq!(rt; plain.finish(End::Clean), Ok(()));
    assert_eq!(rt; plain.outcome(), Some(End::Clean));
}
