//! Logs that are written: the worked pair byte by byte, and random levers, are accepted for what they are.
use crate::levers::{Lever, log_of, random_lever, verdict, worked_pair};
use logs::Accepted;
use motion::Refusal;
use std::process::Abort;
use std::test::Fail;
use words::number_in;

/// Checks the time and the check sum in front of `end`.
fn check_record(rt: &impl Abort, log: &[u8], end: usize, time: u64, sum: u64) -> Result<(), Fail> {
    let at = end.saturating_sub(16);
    let stamp = log.get(at..end).ok_or("the log is short")?;
    assert!(rt; stamp.len() == 16);
    assert_eq!(rt; number_in(&stamp[0..8]), time);
    assert_eq!(rt; number_in(&stamp[8..16]), sum);
    Ok(())
}

#[test]
fn the_worked_pair_has_its_times_and_sums(rt: HostRuntime) -> Result<(), Fail> {
    let pair = worked_pair(rt.alloc())?;
    let log = log_of(rt.alloc(), pair.bytes.as_slice())?;
    let log = log.as_slice();
    assert_eq!(rt; log.len(), 170);
    check_record(&rt, log, 130, 3, 14450)?;
    check_record(&rt, log, 151, 1, 134655)?;
    check_record(&rt, log, 170, 1, 134655)?;
    let accepted = verdict(log)?;
    assert_eq!(rt; (accepted.calls, accepted.time), (3, 1));
    assert_eq!(rt; accepted.refusal, None);
    Ok(())
}

#[test]
fn what_is_accepted_is_told_in_a_line(rt: HostRuntime) -> Result<(), Fail> {
    let accepted = Accepted {
        calls: 3,
        time: -1,
        refusal: None,
    };
    let line = format!(in rt.alloc(); "{accepted}")?;
    assert_eq!(rt; line.as_str(), "accepted 3 calls time -1");
    let ended = Accepted {
        calls: 3,
        time: -1,
        refusal: Some(Refusal::Checkpoint(3)),
    };
    let line = format!(in rt.alloc(); "{ended}")?;
    assert_eq!(rt;
        line.as_str(),
        "accepted 3 calls time -1 ended by refused 5 at 3"
    );
    Ok(())
}

/// Writes the log of a lever with more bytes behind it, and checks that it has so many bytes more than its records, and is
/// accepted with this refusal.
fn check_ended(
    rt: &(impl Abort + AllocGlobal),
    lever: &Lever,
    more: &[u8],
    taken: usize,
    refusal: Option<Refusal>,
) -> Result<(), Fail> {
    let heap = rt.alloc();
    let mut bytes = lever.bytes.clone()?;
    bytes.extend_from_slice(more)?;
    let log = log_of(heap, bytes.as_slice())?;
    let last = lever.last();
    assert_eq!(rt; log.len(), last.end.saturating_add(taken));
    assert_eq!(rt;
        verdict(log.as_slice()),
        Ok(Accepted {
            calls: lever.calls(),
            time: last.time,
            refusal,
        })
    );
    Ok(())
}

#[test]
fn logs_of_random_levers_are_accepted(rt: HostRuntime) -> Result<(), Fail> {
    for seed in 0..40 {
        let lever = random_lever(rt.alloc(), seed)?;
        let n = lever.calls();
        let b = lever.bodies;
        let kind = Some(Refusal::Kind(n));
        let mark = Some(Refusal::Checkpoint(n));
        let absent = Some(Refusal::Absent(n));
        check_ended(&rt, &lever, &[], 0, None)?;
        // A call that is cut off is not in the log.
        check_ended(&rt, &lever, &[1, 3, 0, 0], 0, None)?;
        check_ended(&rt, &lever, &[0, 1], 1, kind)?;
        check_ended(&rt, &lever, &[6], 1, kind)?;
        check_ended(&rt, &lever, &[3, 16, 3, 0], 2, mark)?;
        check_ended(&rt, &lever, &[4, 15, 5], 2, mark)?;
        check_ended(&rt, &lever, &[4, 255], 2, mark)?;
        check_ended(&rt, &lever, &[5, b, 0, 9], 3, absent)?;
        check_ended(&rt, &lever, &[5, 0, 3], 3, absent)?;
    }
    Ok(())
}
