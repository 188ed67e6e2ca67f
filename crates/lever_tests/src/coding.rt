//! Calls to bytes and back.
use crate::random::Random;
use calls::Call;
use motion::Refusal;
use std::process::Abort;
use std::test::*;

/// Gives a call with any numbers. Each `as` is of a number below its type's end, as the check proves.
fn any_call(random: &mut Random) -> Call {
    match random.below(5) {
        0 => Call::Forward(random.below(1 << 32) as u32),
        1 => Call::Back(random.below(1 << 32) as u32),
        2 => Call::Mark(random.below(256) as u8),
        3 => Call::GoTo(random.below(256) as u8),
        _ => Call::Read {
            body: random.below(256) as u8,
            axis: random.below(256) as u8,
        },
    }
}

#[test]
fn calls_have_the_bytes_of_the_rules(rt: HostRuntime) -> Result<(), Fail> {
    let mut bytes = Vec::new(rt.alloc());
    Call::Forward(0x0403_0201).encode(&mut bytes)?;
    Call::Back(u32::MAX).encode(&mut bytes)?;
    Call::Mark(15).encode(&mut bytes)?;
    Call::GoTo(7).encode(&mut bytes)?;
    Call::Read { body: 63, axis: 2 }.encode(&mut bytes)?;
    assert_eq!(rt;
        bytes.as_slice(),
        &[1, 1, 2, 3, 4, 2, 255, 255, 255, 255, 3, 15, 4, 7, 5, 63, 2][..]
    );
    Ok(())
}

/// Encodes a call behind what is there, and reads it back: whole, and then with its last byte missing.
fn check_there_and_back(
    rt: &impl Abort,
    call: Call,
    number: usize,
    bytes: &mut Vec<u8>,
) -> Result<(), Fail> {
    let at = bytes.len();
    call.encode(bytes)?;
    assert_eq!(rt;
        bytes.len().checked_sub(at),
        Some(call.size()),
        "call {number}"
    );
    assert_eq!(rt;
        Call::decode(bytes.as_slice(), number, at),
        Ok(call),
        "call {number}"
    );
    let (_, cut) = bytes.as_slice().split_last().ok_or("no bytes")?;
    assert_eq!(rt;
        Call::decode(cut, number, at),
        Err(Refusal::Length(cut.len())),
        "call {number}"
    );
    Ok(())
}

#[test]
fn random_calls_come_back(rt: HostRuntime) -> Result<(), Fail> {
    let mut random = Random::new(11);
    let mut bytes = Vec::new(rt.alloc());
    for number in 0..2000 {
        let call = any_call(&mut random);
        check_there_and_back(&rt, call, number, &mut bytes)?;
    }
    assert_eq!(rt;
        Call::decode(bytes.as_slice(), 7, bytes.len()),
        Err(Refusal::Length(bytes.len()))
    );
    Ok(())
}
