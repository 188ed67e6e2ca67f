//! Systems that are refused, each fault at its place, and the limits that are taken.
use crate::lent::Lent;
use crate::sky::Sky;
use motion::Refusal;
use std::process::Abort;
use std::test::*;

/// Rows of bytes, each of which spoils the pair if it stands there from `at` on, and what is told of that.
struct Spoiled {
    at: usize,
    rows: &'static [&'static [u8]],
    refusal: Refusal,
    text: &'static str,
}

/// Counts of 0, 65 and 255; softenings of 2^20 - 1, 2^40 + 1 and 2^64 - 1; masses of 0, 1024 and 65535. A longer row has another
/// fault behind the one that is told.
const SPOILED: [Spoiled; 4] = [
    Spoiled {
        at: 0,
        rows: &[&[0], &[65], &[255], &[0; 9]],
        refusal: Refusal::Bodies,
        text: "refused 2 at 0\n",
    },
    Spoiled {
        at: 1,
        rows: &[
            &[255, 255, 15, 0, 0, 0, 0, 0],
            &[1, 0, 0, 0, 0, 1, 0, 0],
            &[255; 8],
            &[0; 10],
        ],
        refusal: Refusal::Range(1),
        text: "refused 3 at 1\n",
    },
    Spoiled {
        at: 9,
        rows: &[&[0, 0], &[0, 4], &[255, 255], &[0; 52]],
        refusal: Refusal::Range(9),
        text: "refused 3 at 9\n",
    },
    Spoiled {
        at: 59,
        rows: &[&[0, 0], &[0, 4], &[255, 255]],
        refusal: Refusal::Range(59),
        text: "refused 3 at 59\n",
    },
];

/// Looks how bytes are refused as a system, alone and in front of calls, and that no lent word is changed.
fn check_system(
    rt: &(impl Abort + AllocGlobal),
    bytes: &[u8],
    refusal: Refusal,
    text: &str,
) -> Result<(), Fail> {
    let heap = rt.alloc();
    let mut lent = Lent::new(heap)?;
    let before = lent.clone()?;
    assert_eq!(rt; lent.open(bytes).err(), Some(refusal));
    assert_eq!(rt; lent.open_in_front(bytes).err(), Some(refusal));
    let report = lent.run(heap, bytes)?;
    assert_eq!(rt; report.text.as_str(), text);
    assert_eq!(rt; report.refusal, Some(refusal));
    assert_eq!(rt; &lent, &before);
    Ok(())
}

/// Spoils the pair by a row. The fault is told before bytes that are missing behind it.
fn check_spoiled(
    rt: &(impl Abort + AllocGlobal),
    spoiled: &Spoiled,
    row: &[u8],
) -> Result<(), Fail> {
    let heap = rt.alloc();
    let mut bytes = Sky::pair(heap)?.bytes(heap)?;
    for (byte, other) in bytes.iter_mut().skip(spoiled.at).zip(row.iter()) {
        *byte = *other;
    }
    check_system(rt, bytes.as_slice(), spoiled.refusal, spoiled.text)?;
    bytes.truncate(spoiled.at.saturating_add(row.len()));
    check_system(rt, bytes.as_slice(), spoiled.refusal, spoiled.text)
}

#[test]
fn spoiled_systems_are_refused(rt: HostRuntime) -> Result<(), Fail> {
    for spoiled in SPOILED.iter() {
        for row in spoiled.rows.iter() {
            check_spoiled(&rt, spoiled, row)?;
        }
    }
    Ok(())
}

#[test]
fn systems_that_are_cut_off_are_refused(rt: HostRuntime) -> Result<(), Fail> {
    let heap = rt.alloc();
    // Each length that it may be cut off to: a number that is told, and no index.
    for length in 0..Sky::PAIR_SIZE {
        let mut bytes = Sky::pair(heap)?.bytes(heap)?;
        bytes.truncate(length);
        let text = format!(in heap; "refused 1 at {length}\n")?;
        check_system(
            &rt,
            bytes.as_slice(),
            Refusal::Length(length),
            text.as_str(),
        )?;
    }
    Ok(())
}

#[test]
fn nothing_follows_a_system_alone(rt: HostRuntime) -> Result<(), Fail> {
    let heap = rt.alloc();
    let mut bytes = Sky::pair(heap)?.bytes(heap)?;
    bytes.push(1)?;
    let mut lent = Lent::new(heap)?;
    let before = lent.clone()?;
    assert_eq!(rt;
        lent.open(bytes.as_slice()).err(),
        Some(Refusal::Length(Sky::PAIR_SIZE))
    );
    assert_eq!(rt; &lent, &before);
    let player = lent.open_in_front(bytes.as_slice())?;
    assert_eq!(rt; player.system_size(), Sky::PAIR_SIZE);
    Ok(())
}

#[test]
fn exact_limits_are_taken(rt: HostRuntime) -> Result<(), Fail> {
    let heap = rt.alloc();
    let mut lent = Lent::new(heap)?;
    for softening in [1 << 20, 1 << 40] {
        for mass in [1, 1023] {
            for (count, size) in [(1, 59), (64, 3209)] {
                let bytes = Sky::uniform(heap, softening, mass, count)?.bytes(heap)?;
                assert_eq!(rt; lent.open(bytes.as_slice())?.system_size(), size);
            }
        }
    }
    Ok(())
}
