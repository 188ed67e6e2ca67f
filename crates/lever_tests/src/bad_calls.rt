//! Calls that are refused: at the call, or at the end of the bytes where they are cut off.
use crate::lent::Lent;
use crate::sky::Sky;
use calls::Call;
use motion::Refusal;
use std::process::Abort;
use std::test::*;

/// The bytes of a call of each kind.
const WHOLE: [&'static [u8]; 5] = [
    &[1, 9, 9, 9, 9],
    &[2, 9, 9, 9, 9],
    &[3, 9],
    &[4, 9],
    &[5, 0, 0],
];

/// Looks how bytes behind the pair are refused as a call, and that the lent words are those of the opening.
fn check_bytes(
    rt: &(impl Abort + AllocGlobal),
    call: &[u8],
    refusal: Refusal,
    text: &str,
) -> Result<(), Fail> {
    let heap = rt.alloc();
    let mut bytes = Sky::pair(heap)?.bytes(heap)?;
    bytes.extend_from_slice(call)?;
    assert_eq!(rt;
        Call::decode(bytes.as_slice(), 0, Sky::PAIR_SIZE),
        Err(refusal)
    );
    let mut opened = Lent::new(heap)?;
    let mut lent = opened.clone()?;
    opened.open_in_front(bytes.as_slice())?;
    let report = lent.run(heap, bytes.as_slice())?;
    assert_eq!(rt; report.text.as_str(), text);
    assert_eq!(rt; report.refusal, Some(refusal));
    assert_eq!(rt; &lent, &opened);
    Ok(())
}

#[test]
fn kinds_that_there_are_not_are_refused(rt: HostRuntime) -> Result<(), Fail> {
    for kind in [0, 6, 255] {
        check_bytes(&rt, &[kind], Refusal::Kind(0), "refused 4 at 0\n")?;
    }
    Ok(())
}

#[test]
fn calls_that_are_cut_off_are_refused(rt: HostRuntime) -> Result<(), Fail> {
    let heap = rt.alloc();
    for whole in WHOLE {
        // Each length that it may be cut off to: a number that is told, and no index.
        for cut in 1..whole.len() {
            let end = Sky::PAIR_SIZE + cut;
            let text = format!(in heap; "refused 1 at {end}\n")?;
            check_bytes(&rt, &whole[0..cut], Refusal::Length(end), text.as_str())?;
        }
    }
    Ok(())
}

/// Calls to the pair that are obeyed, calls of which each is refused behind them, and what is told.
struct BadCalls {
    front: &'static [Call],
    bad: &'static [Call],
    refusal: Refusal,
    text: &'static str,
}

const BAD_CALLS: [BadCalls; 6] = [
    BadCalls {
        front: &[],
        bad: &[
            Call::Mark(16),
            Call::Mark(255),
            Call::GoTo(16),
            Call::GoTo(255),
            Call::GoTo(0),
        ],
        refusal: Refusal::Checkpoint(0),
        text: "refused 5 at 0\n",
    },
    BadCalls {
        front: &[Call::Mark(15), Call::GoTo(15)],
        bad: &[Call::Mark(16), Call::GoTo(14), Call::GoTo(16)],
        refusal: Refusal::Checkpoint(2),
        text: "time 0\ntime 0\nrefused 5 at 2\n",
    },
    BadCalls {
        front: &[Call::Forward(3), Call::Back(2)],
        bad: &[Call::GoTo(0)],
        refusal: Refusal::Checkpoint(2),
        text: "time 3\ntime 1\nrefused 5 at 2\n",
    },
    BadCalls {
        front: &[
            Call::Mark(0),
            Call::Forward(1),
            Call::GoTo(0),
            Call::Back(4),
        ],
        bad: &[Call::GoTo(1)],
        refusal: Refusal::Checkpoint(4),
        text: "time 0\ntime 1\ntime 0\ntime -4\nrefused 5 at 4\n",
    },
    BadCalls {
        front: &[],
        bad: &[
            Call::Read { body: 2, axis: 0 },
            Call::Read { body: 0, axis: 3 },
        ],
        refusal: Refusal::Absent(0),
        text: "refused 6 at 0\n",
    },
    BadCalls {
        front: &[Call::Read { body: 1, axis: 2 }],
        bad: &[
            Call::Read { body: 1, axis: 3 },
            Call::Read {
                body: 255,
                axis: 255,
            },
        ],
        refusal: Refusal::Absent(1),
        text: "time 0 place 0 drive 0\nrefused 6 at 1\n",
    },
];

/// Looks how a call is refused, that it changes no word, and that a call behind it is not made.
fn check_call(rt: &(impl Abort + AllocGlobal), calls: &BadCalls, bad: Call) -> Result<(), Fail> {
    let heap = rt.alloc();
    let mut bytes = Sky::pair(heap)?.bytes(heap)?;
    let mut lent = Lent::new(heap)?;
    let mut player = lent.open(bytes.as_slice())?;
    for (number, call) in calls.front.iter().enumerate() {
        lent.obey(&mut player, *call, number)?;
        call.encode(&mut bytes)?;
    }
    let before = lent.clone()?;
    assert_eq!(rt;
        lent.obey(&mut player, bad, calls.front.len()),
        Err(calls.refusal)
    );
    assert_eq!(rt; &lent, &before);
    bad.encode(&mut bytes)?;
    Call::Forward(1).encode(&mut bytes)?;
    let mut other = Lent::new(heap)?;
    let report = other.run(heap, bytes.as_slice())?;
    assert_eq!(rt; report.text.as_str(), calls.text);
    assert_eq!(rt; report.refusal, Some(calls.refusal));
    assert_eq!(rt; &other, &lent);
    Ok(())
}

#[test]
fn calls_are_refused(rt: HostRuntime) -> Result<(), Fail> {
    for calls in BAD_CALLS.iter() {
        for bad in calls.bad.iter() {
            check_call(&rt, calls, *bad)?;
        }
    }
    Ok(())
}
