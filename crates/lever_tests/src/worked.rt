//! The worked pair: forward 3, back 2, read 0 0.
use crate::lent::Lent;
use crate::sky::Sky;
use std::test::*;

const CALLS: [u8; 13] = [1, 3, 0, 0, 0, 2, 2, 0, 0, 0, 5, 0, 0];

#[test]
fn the_pair_tells_three_lines(rt: HostRuntime) -> Result<(), Fail> {
    let heap = rt.alloc();
    let mut bytes = Sky::pair(heap)?.bytes(heap)?;
    bytes.extend_from_slice(&CALLS)?;
    let report = Lent::new(heap)?.run(heap, bytes.as_slice())?;
    assert_eq!(rt;
        report.text.as_str(),
        "time 3\ntime 1\ntime 1 place 1023 drive 2046\n"
    );
    assert_eq!(rt; report.refusal, None);
    Ok(())
}
