//! How checkpoints lie in memory, and that a kept state that is spoiled there cannot spoil the state.
use crate::lent::Lent;
use crate::sky::Sky;
use calls::Call;
use std::test::*;

#[test]
fn a_mark_has_its_time_and_its_words(rt: HostRuntime) -> Result<(), Fail> {
    let heap = rt.alloc();
    let mut lent = Lent::new(heap)?;
    let mut player = lent.open(Sky::pair(heap)?.bytes(heap)?.as_slice())?;
    lent.obey(&mut player, Call::Forward(3), 0)?;
    lent.obey(&mut player, Call::Mark(15), 1)?;
    assert_eq!(rt; lent.checkpoints.get(210..212), Some([1, 3].as_slice()));
    assert_eq!(rt; lent.checkpoints.get(212..224), lent.state.get(0..12));
    lent.obey(&mut player, Call::Back(5), 2)?;
    lent.obey(&mut player, Call::Mark(0), 3)?;
    assert_eq!(rt;
        lent.checkpoints.get(0..2),
        Some([1, u64::MAX - 1].as_slice())
    );
    assert_eq!(rt; lent.checkpoints.get(2..14), lent.state.get(0..12));
    Ok(())
}

#[test]
fn a_spoiled_mark_leads_to_its_time(rt: HostRuntime) -> Result<(), Fail> {
    let heap = rt.alloc();
    let mut lent = Lent::new(heap)?;
    let mut player = lent.open(Sky::pair(heap)?.bytes(heap)?.as_slice())?;
    lent.obey(&mut player, Call::Forward(3), 0)?;
    lent.obey(&mut player, Call::Mark(0), 1)?;
    let kept = lent.state.clone()?;
    for word in lent.checkpoints.iter_mut().skip(2).take(12) {
        *word = 7;
    }
    lent.obey(&mut player, Call::Back(9), 2)?;
    lent.obey(&mut player, Call::GoTo(0), 3)?;
    assert_eq!(rt; &lent.state, &kept);
    Ok(())
}
