//! The calls of the operator, and their bytes.

/// What the operator asks for.
#[derive(Clone, Copy, PartialEq, Eq, Debug)]
pub enum Call {
    /// So many steps.
    Forward(u32),
    /// So many steps back.
    Back(u32),
    /// Keep the time and the state under this number.
    Mark(u8),
    /// Steps or steps back to the time that is kept under this number.
    GoTo(u8),
    /// Tell the position and the momentum of a body along an axis.
    Read { body: u8, axis: u8 },
}
