//! Damaged logs: each kind of damage is told at its place.
use crate::levers::{Stop, log_of, random_lever, verdict, worked_pair};
use logs::{Accepted, check_log, write_log};
use motion::Refusal;
use std::process::Abort;
use std::test::Fail;

/// Checks the log with one byte changed: the change is told as this.
fn check_changed(rt: &impl Abort, log: &mut Vec<u8>, at: usize, by: u8, refusal: Refusal) {
    flip(log, at, by);
    assert_eq!(rt; verdict(log.as_slice()), Err(refusal));
    flip(log, at, by);
}

/// Turns bits of a byte round.
fn flip(log: &mut Vec<u8>, at: usize, by: u8) {
    if let Some(byte) = log.as_mut_slice().get_mut(at) {
        *byte ^= by;
    }
}

/// Changes each byte of each time and check sum.
fn check_stamps(rt: &impl Abort, log: &mut Vec<u8>, stops: &[Stop]) {
    for (call, stop) in stops.iter().skip(1).enumerate() {
        // Counted from the end, since the number also says which bit of the byte is changed.
        for k in 1..17 {
            let at = stop.end.saturating_sub(k);
            check_changed(rt, log, at, 1 << (k % 8), Refusal::Record(call));
        }
    }
}

#[test]
fn changed_times_and_sums_are_told(rt: HostRuntime) -> Result<(), Fail> {
    for seed in 40..48 {
        let lever = random_lever(rt.alloc(), seed)?;
        let mut log = log_of(rt.alloc(), lever.bytes.as_slice())?;
        check_stamps(&rt, &mut log, lever.stops.as_slice());
    }
    Ok(())
}

/// Tells what is right of a log that is cut off.
fn cut_told(stops: &[Stop], length: usize) -> Result<Accepted, Refusal> {
    let mut ends = stops.iter().enumerate();
    let (calls, stop) = ends
        .find(|(_, stop)| stop.end == length)
        .ok_or(Refusal::Length(length))?;
    Ok(Accepted {
        calls,
        time: stop.time,
        refusal: None,
    })
}

#[test]
fn cut_logs_are_told(rt: HostRuntime) -> Result<(), Fail> {
    for seed in 48..54 {
        let lever = random_lever(rt.alloc(), seed)?;
        let log = log_of(rt.alloc(), lever.bytes.as_slice())?;
        assert_eq!(rt; log.len(), lever.last().end);
        // Each length that it may be cut off to: a number that is told, and no index.
        for length in 0..log.len() {
            let front = log.as_slice().get(0..length).unwrap_or(&[]);
            assert_eq!(rt; verdict(front), cut_told(lever.stops.as_slice(), length));
        }
    }
    Ok(())
}

#[test]
fn the_first_of_two_faults_is_told(rt: HostRuntime) -> Result<(), Fail> {
    let pair = worked_pair(rt.alloc())?;
    let mut log = log_of(rt.alloc(), pair.bytes.as_slice())?;
    // The time behind the second call is wrong; then more steps in the first, so that its own time is.
    flip(&mut log, 135, 1);
    assert_eq!(rt; verdict(log.as_slice()), Err(Refusal::Record(1)));
    check_changed(&rt, &mut log, 110, 4, Refusal::Record(0));
    // A byte too many in the end is not reached; nor is a kind that there is not.
    log.push(9)?;
    assert_eq!(rt; verdict(log.as_slice()), Err(Refusal::Record(1)));
    flip(&mut log, 135, 1);
    assert_eq!(rt;
        verdict(log.as_slice()),
        Ok(Accepted {
            calls: 3,
            time: 1,
            refusal: Some(Refusal::Kind(3)),
        })
    );
    Ok(())
}

/// Checks that bytes behind the refused call at the end of these bytes are told.
fn check_more(rt: &(impl Abort + AllocGlobal), bytes: &[u8], call: &[u8]) -> Result<(), Fail> {
    let heap = rt.alloc();
    let mut bytes = bytes.to_vec(heap)?;
    bytes.extend_from_slice(call)?;
    let mut log = log_of(heap, bytes.as_slice())?;
    let end = log.len();
    assert!(rt; verdict(log.as_slice()).is_ok());
    for _ in 0..17 {
        log.push(0)?;
        assert_eq!(rt; verdict(log.as_slice()), Err(Refusal::Length(end)));
    }
    Ok(())
}

#[test]
fn bytes_behind_a_refused_call_are_told(rt: HostRuntime) -> Result<(), Fail> {
    for seed in 54..60 {
        let lever = random_lever(rt.alloc(), seed)?;
        let bytes = lever.bytes.as_slice();
        check_more(&rt, bytes, &[0])?;
        check_more(&rt, bytes, &[255])?;
        check_more(&rt, bytes, &[3, 16])?;
        check_more(&rt, bytes, &[4, 15])?;
        check_more(&rt, bytes, &[5, lever.bodies, 0])?;
        check_more(&rt, bytes, &[5, 0, 3])?;
    }
    Ok(())
}

#[test]
fn short_slices_are_told(rt: HostRuntime) -> Result<(), Fail> {
    let pair = worked_pair(rt.alloc())?;
    let log = log_of(rt.alloc(), pair.bytes.as_slice())?;
    let log = log.as_slice();
    assert_eq!(rt;
        check_log(log, &mut [0; 11], &mut [0; 223], &mut []),
        Err(Refusal::StateShort)
    );
    assert_eq!(rt;
        check_log(log, &mut [0; 12], &mut [0; 223], &mut []),
        Err(Refusal::CheckpointsShort)
    );
    assert_eq!(rt;
        check_log(log, &mut [0; 12], &mut [0; 224], &mut []),
        Err(Refusal::WorkShort)
    );
    assert!(rt; check_log(log, &mut [0; 12], &mut [0; 224], &mut [0]).is_ok());
    let none = write_log(rt.alloc(), log, &mut [0; 12], &mut [0; 224], &mut [])?;
    assert!(rt; none.is_none());
    Ok(())
}

#[test]
fn bad_systems_are_told(rt: HostRuntime) -> Result<(), Fail> {
    let pair = worked_pair(rt.alloc())?;
    let mut log = log_of(rt.alloc(), pair.bytes.as_slice())?;
    // No bodies; 66 bodies; a softening of 2^20 + 2^56; one of 0; masses of 0 and of 1,025.
    check_changed(&rt, &mut log, 0, 2, Refusal::Bodies);
    check_changed(&rt, &mut log, 0, 64, Refusal::Bodies);
    check_changed(&rt, &mut log, 8, 1, Refusal::Range(1));
    check_changed(&rt, &mut log, 3, 16, Refusal::Range(1));
    check_changed(&rt, &mut log, 9, 2, Refusal::Range(9));
    check_changed(&rt, &mut log, 60, 4, Refusal::Range(59));
    flip(&mut log, 0, 2);
    let short = check_log(log.as_slice(), &mut [], &mut [], &mut []);
    assert_eq!(rt; short, Err(Refusal::Bodies));
    let none = write_log(
        rt.alloc(),
        log.as_slice(),
        &mut [0; 12],
        &mut [0; 224],
        &mut [0],
    )?;
    assert!(rt; none.is_none());
    Ok(())
}
