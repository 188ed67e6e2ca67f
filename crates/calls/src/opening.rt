//! Opening: a system and the words of its state from bytes, read front to back.
ghost use Rattle.std.specs.Prelude.{◌≡◌, ◌+◌, ◌*◌, ◌^◌, ◌<◌, ◌≤◌, length, IfOk, MatchResult, OnOk};
ghost use Rattle.words.specs.Bytes.{number_at};
ghost use Rattle.calls.specs.Machine.{provided};
ghost use Rattle.calls.specs.Opening.{verdict, MassesRead, SystemRead, BodyWritten, BodiesWritten, Opened};
ghost use Rattle.calls.specs.SystemBytes.{body_at, count_in, softening_in, enough, ranged, count_told, softening_told, body_told, bodies_told, system_told, alone_told, room_told};

use crate::Player;
use crate::checkpoints::{CHECKPOINTS, checkpoint_size};
use crate::obeying::check_room;
use distance::Softening;
use motion::{Refusal, System};
use std::array;
use words::{Mass, Ranged, number_in};

/// Where the bytes of the first body begin.
const FIRST_BODY: usize = 9;

/// The bytes of a body: a mass of two, three positions and three momenta of eight each.
const BODY: usize = 50;

impl Player {
    /// Opens the system that `bytes` are: at time 0, with no checkpoint kept. The words of its state are written to `state`,
    /// and those of the checkpoints in use are cleared; what lies behind them is not touched. A refusal changes nothing.
    pub fn open(
        bytes: &[u8],
        state: &mut [u64],
        checkpoints: &mut [u64],
        work: &[u64],
    ) -> Result<Player, Refusal>
        ensures answer { verdict result ≡ provided (system_told bytes.now) (provided (alone_told bytes.now) (room_told (count_in bytes.now) (length state.old) (length checkpoints.old) (length work.now))) }
        ensures left { MatchResult result (λ player. Opened bytes.now player state.old state.new checkpoints.old checkpoints.new) (λ _. (state.new ≡ state.old) × (checkpoints.new ≡ checkpoints.old)) }
    {
        let system = read_system(bytes)?;
        let end = body_at(system.count());
        if bytes.len() > end {
            return Err(Refusal::Length(end));
        }
        set_up(system, bytes, state, checkpoints, work)
    }

    /// Opens the system in front of `bytes`, as `open` does; anything may follow it.
    pub fn open_in_front(
        bytes: &[u8],
        state: &mut [u64],
        checkpoints: &mut [u64],
        work: &[u64],
    ) -> Result<Player, Refusal>
        ensures answer { verdict result ≡ provided (system_told bytes.now) (room_told (count_in bytes.now) (length state.old) (length checkpoints.old) (length work.now)) }
        ensures left { MatchResult result (λ player. Opened bytes.now player state.old state.new checkpoints.old checkpoints.new) (λ _. (state.new ≡ state.old) × (checkpoints.new ≡ checkpoints.old)) }
    {
        set_up(read_system(bytes)?, bytes, state, checkpoints, work)
    }

    /// Gives the number of bytes that its system has.
    pub fn system_size(&self) -> usize
        ensures { result ≡ body_at self.now.system.count }
    {
        body_at(self.count())
    }
}

/// Gives where the bytes of a body begin, and so the length of a system of so many bodies.
fn body_at(body: usize) -> usize
    requires { body ≤ 64 }
    ensures { result ≡ body_at body }
{
    FIRST_BODY + BODY * body
}

/// Writes the state of a system that was read from `bytes`, and keeps no checkpoint.
fn set_up(
    system: System,
    bytes: &[u8],
    state: &mut [u64],
    checkpoints: &mut [u64],
    work: &[u64],
) -> Result<Player, Refusal>
    requires { SystemRead bytes.now system }
    ensures answer { verdict result ≡ room_told (count_in bytes.now) (length state.old) (length checkpoints.old) (length work.now) }
    ensures left { MatchResult result (λ player. Opened bytes.now player state.old state.new checkpoints.old checkpoints.new) (λ _. (state.new ≡ state.old) × (checkpoints.new ≡ checkpoints.old)) }
{
    check_room(&system, state.len(), checkpoints.len(), work.len())?;
    write_state(bytes, system.count(), state);
    checkpoints[..CHECKPOINTS * checkpoint_size(&system)].fill(0);
    Ok(Player { system, time: 0 })
}

/// Looks whether so many bytes are there.
fn check_length(bytes: &[u8], needed: usize) -> Result<(), Refusal>
    ensures { verdict result ≡ enough bytes.now needed }
{
    if bytes.len() < needed {
        return Err(Refusal::Length(bytes.len()));
    }
    Ok(())
}

/// Reads the count of bodies.
fn read_count(bytes: &[u8]) -> Result<usize, Refusal>
    ensures answer { verdict result ≡ count_told bytes.now }
    ensures value { IfOk result (λ n. (n ≡ count_in bytes.now) × (1 ≤ n) × (n ≤ 64)) }
{
    check_length(bytes, 1)?;
    let count = usize::from(bytes[0]);
    if count == 0 || count > System::MOST_BODIES {
        return Err(Refusal::Bodies);
    }
    Ok(count)
}

/// Reads the number of so many bytes from `at` on.
fn read_number(bytes: &[u8], at: usize, size: usize) -> u64
    requires room { at + size ≤ length bytes.now }
    requires size { size ≤ 8 }
    ensures value { result ≡ number_at size bytes.now at }
    ensures bound { result < 256 ^ size }
{
    number_in(&bytes[at..at + size])
}

/// Takes a number whose bytes begin at `at`, if it is in the range of its type.
fn in_range<const LEAST: u64, const MOST: u64>(
    number: u64,
    at: usize,
) -> Result<Ranged<LEAST, MOST>, Refusal>
    ensures answer { verdict result ≡ ranged LEAST MOST number 3 at }
    ensures value { IfOk result (λ r. r.value ≡ number) }
{
    Ranged::new(number).ok_or(Refusal::Range(at))
}

/// Reads the softening.
fn read_softening(bytes: &[u8]) -> Result<Softening, Refusal>
    ensures answer { verdict result ≡ softening_told bytes.now }
    ensures value { IfOk result (λ s. s.value ≡ softening_in bytes.now) }
    ensures room { OnOk result (body_at 0 ≤ length bytes.now) }
{
    check_length(bytes, FIRST_BODY)?;
    in_range(read_number(bytes, 1, 8), 1)
}

/// Reads the mass of a body, and looks whether its other bytes are there.
fn read_mass(bytes: &[u8], body: usize) -> Result<Mass, Refusal>
    requires { body < 64 }
    ensures answer { verdict result ≡ body_told bytes.now body }
    ensures value { IfOk result (λ m. m.value ≡ number_at 2 bytes.now (body_at body)) }
    ensures room { OnOk result (body_at (body + 1) ≤ length bytes.now) }
{
    let at = body_at(body);
    check_length(bytes, at + 2)?;
    let mass = in_range(read_number(bytes, at, 2), at)?;
    check_length(bytes, at + BODY)?;
    Ok(mass)
}

/// Reads the masses of the bodies, as many as there is room for.
fn read_masses(bytes: &[u8], masses: &mut [Mass]) -> Result<(), Refusal>
    requires bytes { body_at 0 ≤ length bytes.now }
    requires masses { length masses.old ≤ 64 }
    ensures answer { verdict result ≡ bodies_told bytes.now (length masses.old) 0 }
    ensures values { OnOk result (MassesRead bytes.now (length masses.old) masses.new) }
{
    for (body, mass) in masses.iter_mut().enumerate() {
        *mass = read_mass(bytes, body)?;
    }
    Ok(())
}

/// Reads a system in front of bytes. What lies behind it is not looked at.
fn read_system(bytes: &[u8]) -> Result<System, Refusal>
    ensures answer { verdict result ≡ system_told bytes.now }
    ensures system { IfOk result (SystemRead bytes.now) }
{
    let count = read_count(bytes)?;
    let softening = read_softening(bytes)?;
    let mut masses = [Mass::LEAST; System::MOST_BODIES];
    let masses = &mut masses[..count];
    read_masses(bytes, masses)?;
    System::new(softening, masses)
}

/// Reads the six words of a body, axis by axis a position and a momentum, from its bytes.
fn body_words(bytes: &[u8]) -> [u64; 6]
    requires { length bytes.now ≡ 50 }
    ensures { BodyWritten bytes.now result }
{
    let numbers: [u64; 6] = array::from_fn(|i| read_number(bytes, 2 + 8 * i, 8));
    let [x, y, z, along_x, along_y, along_z] = numbers;
    [x, along_x, y, along_y, z, along_z]
}

/// Writes the words of the state that a system's bytes hold.
fn write_state(bytes: &[u8], count: usize, state: &mut [u64])
    requires bytes { body_at count ≤ length bytes.now }
    requires count { count ≤ 64 }
    requires state { 6 * count ≤ length state.old }
    ensures { BodiesWritten bytes.now count state.old state.new }
{
    // By the number of the body: of what is written through `chunks_exact_mut` a proof knows nothing but the length.
    for body in 0..count {
        let at = body_at(body);
        let words = body_words(&bytes[at..at + BODY]);
        state[6 * body..6 * body + 6].copy_from_slice(&words);
    }
}
