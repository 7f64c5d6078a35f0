use source::{Parcels, Source};
use std::alloc::Global;
use std::test::Fail;

/// How many bytes each pull gives, up to the end.
fn counts<'a>(
    heap: Global,
    bytes: &'a [u8],
    lengths: &'a [u32],
    buffer: &mut [u8],
) -> Result<Vec<usize>, Fail> {
    let mut parcels = Parcels::new(bytes, lengths);
    let mut out = Vec::new(heap);
    for _ in 0..100 {
        let Ok(n) = parcels.pull(buffer) else {
            return Ok(out);
        };
        out.push(n)?;
    }
    Err(Fail::new("no end"))
}

/// A pull keeps to its parcel: zero lengths are passed over, long ones clipped, and what is left is one more parcel.
#[test]
fn parcels_keep_apart(rt: HostRuntime) -> Result<(), Fail> {
    let heap = rt.alloc();
    assert!(rt;
        counts(heap, b"abcdef", &[2, 0, 1, 9], &mut [0; 8])?.as_slice() == [2, 1, 3].as_slice()
    );
    assert!(rt;
        counts(heap, b"abcdef", &[2, 0, 1], &mut [0; 8])?.as_slice() == [2, 1, 3].as_slice()
    );
    assert!(rt; counts(heap, b"abcdef", &[0, 0], &mut [0; 8])?.as_slice() == [6].as_slice());
    assert!(rt; counts(heap, b"abcdef", &[], &mut [0; 4])?.as_slice() == [4, 2].as_slice());
    assert!(rt;
        counts(heap, b"abcdef", &[5, 1], &mut [0; 2])?.as_slice() == [2, 2, 1, 1].as_slice()
    );
    assert!(rt; counts(heap, b"", &[3], &mut [0; 2])?.is_empty());
    Ok(())
}
