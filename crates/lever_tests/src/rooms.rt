//! Lent slices that suffice exactly, and such as are too short.
use crate::lent::Lent;
use crate::sky::Sky;
use calls::Call;
use motion::Refusal;
use std::process::Abort;
use std::test::*;

/// The lengths of slices that are lent for so many bodies.
#[derive(Clone, Copy)]
struct Room {
    count: usize,
    state: usize,
    checkpoints: usize,
    work: usize,
}

/// Lengths that suffice exactly.
const EXACT: [Room; 3] = [
    Room {
        count: 1,
        state: 6,
        checkpoints: 128,
        work: 0,
    },
    Room {
        count: 2,
        state: 12,
        checkpoints: 224,
        work: 1,
    },
    Room {
        count: 64,
        state: 384,
        checkpoints: 6176,
        work: 2016,
    },
];

const CALLS: [Call; 5] = [
    Call::Forward(1),
    Call::Back(2),
    Call::Mark(1),
    Call::GoTo(0),
    Call::Read { body: 0, axis: 0 },
];

/// Looks what is told of slices at each kind of call and at the opening, and that a refusal changes no word.
fn check_room(
    rt: &(impl Abort + AllocGlobal),
    room: Room,
    refusal: Option<Refusal>,
    text: &str,
) -> Result<(), Fail> {
    let heap = rt.alloc();
    let bytes = Sky::uniform(heap, 1 << 30, 9, room.count)?.bytes(heap)?;
    let mut lent = Lent::new(heap)?;
    let mut player = lent.open(bytes.as_slice())?;
    lent.obey(&mut player, Call::Mark(0), 0)?;
    lent.state.truncate(room.state);
    lent.checkpoints.truncate(room.checkpoints);
    lent.work.truncate(room.work);
    let before = lent.clone()?;
    for call in CALLS {
        assert_eq!(rt; lent.obey(&mut player, call, 9).err(), refusal);
    }
    assert_eq!(rt; lent.open(bytes.as_slice()).err(), refusal);
    let report = lent.run(heap, bytes.as_slice())?;
    assert_eq!(rt; report.text.as_str(), text);
    assert_eq!(rt; report.refusal, refusal);
    assert!(rt; refusal.is_none() || lent == before);
    Ok(())
}

#[test]
fn slices_that_suffice_exactly_are_taken(rt: HostRuntime) -> Result<(), Fail> {
    for room in EXACT {
        check_room(&rt, room, None, "")?;
    }
    Ok(())
}

#[test]
fn short_slices_are_refused(rt: HostRuntime) -> Result<(), Fail> {
    let heap = rt.alloc();
    for room in EXACT {
        let mut short = room;
        if let Some(work) = room.work.checked_sub(1) {
            short.work = work;
            check_room(&rt, short, Some(Refusal::WorkShort), "refused 8 at 2\n")?;
        }
        short.checkpoints = room.checkpoints.saturating_sub(1);
        check_room(
            &rt,
            short,
            Some(Refusal::CheckpointsShort),
            "refused 8 at 1\n",
        )?;
        short.state = room.state.saturating_sub(1);
        check_room(&rt, short, Some(Refusal::StateShort), "refused 8 at 0\n")?;
    }
    Ok(())
}
