use sink::{Refusal, Sink, Store, Tally};
use source::{Block, End};
use std::process::Abort;
use std::test::Fail;
use transfer::drain;

fn sum_of(rt: &impl Abort, bytes: &[u8]) -> (u32, u32) {
    let mut tally = Tally::new();
    assert_eq!(rt; tally.take(bytes), Ok(()));
    (tally.count(), tally.sum())
}

/// The sums that the authors of FNV-1a publish.
#[test]
fn published_sums(rt: HostRuntime) {
    assert_eq!(rt; sum_of(&rt, b""), (0, 0x811c9dc5));
    assert_eq!(rt; sum_of(&rt, b"a"), (1, 0xe40c292c));
    assert_eq!(rt; sum_of(&rt, b"foobar"), (6, 0xbf9cf968));
    assert_eq!(rt; Tally::new().space(), 4_294_967_295);
}

#[test]
fn tally_in_pieces(rt: HostRuntime) {
    let mut tally = Tally::new();
    assert_eq!(rt; tally.take(b"foo"), Ok(()));
    assert_eq!(rt; tally.take(b""), Ok(()));
    assert_eq!(rt; tally.take(b"bar"), Ok(()));
    assert_eq!(rt;
        (tally.count(), tally.sum(), tally.space()),
        (6, 0xbf9cf968, 4_294_967_289)
    );
}

/// A store takes what fits, refuses one byte more and then takes none of them, and leaves the rest of its buffer.
#[test]
fn store_fills(rt: HostRuntime) {
    let mut buffer = [7; 5];
    let mut store = Store::new(&mut buffer);
    assert_eq!(rt; store.space(), 5);
    assert_eq!(rt; store.take(b"abc"), Ok(()));
    assert_eq!(rt; store.space(), 2);
    assert_eq!(rt; store.take(b"def"), Err(Refusal::Full));
    assert!(rt; store.written() == b"abc".as_slice());
    assert_eq!(rt; store.space(), 2);
    assert_eq!(rt; store.take(b"d"), Ok(()));
    assert!(rt; store.written() == b"abcd".as_slice());
    assert!(rt; buffer == [b'a', b'b', b'c', b'd', 7]);
}

#[test]
fn store_uses_at_most_its_limit(rt: HostRuntime) -> Result<(), Fail> {
    let mut buffer = vec![in rt.alloc(); 0; 16_777_217]?;
    let store = Store::new(buffer.as_mut_slice());
    assert_eq!(rt; store.space(), 16_777_216);
    Ok(())
}

/// A drain stops when the space is used up, also where the source has no byte more.
#[test]
fn drains(rt: HostRuntime) {
    let mut buffer = [0; 3];
    let mut store = Store::new(&mut buffer);
    let mut source = Block::new(b"abcd");
    assert_eq!(rt; drain(&mut source, &mut store), Err(Refusal::Full));
    assert!(rt; store.written() == b"abc".as_slice());
    let mut tally = Tally::new();
    assert_eq!(rt; drain(&mut source, &mut tally), Ok(End::Clean));
    assert_eq!(rt; (tally.count(), tally.sum()), sum_of(&rt, b"d"));
}
