//! Theorems on motion, each the contract of a function that does nothing.
ghost use Rattle.motion.specs.Promises.{RowsKeep, ChangesCarry, StepsUndone, MomentumKept, RenumberingCarries, ShiftingCarries};
ghost use Rattle.motion.specs.SystemLaws.{SystemsKeepTime, SystemsKeepMomentum, SystemsRenumber, SystemsShift};
ghost use Rattle.motion.specs.Travel.{Undone, TimeDecides};
ghost use Rattle.motion.specs.Worked.{Worked};

/// Over any step and its undoing, the state after every row of turns is that of its time.
pub fn time_decides<S>()
    ensures { (step back : S → S) → Undone step back → TimeDecides step back }
{}

/// What every step keeps, every row of turns keeps.
pub fn rows_keep<S, V>()
    ensures { RowsKeep S V }
{}

/// What a change of the state carries from one step to another, it carries over every row of turns.
pub fn changes_carry<S, R>()
    ensures { ChangesCarry S R }
{}

/// Under every law a step of the bodies and a step back undo each other.
pub fn steps_undo_each_other<P, D>()
    ensures { StepsUndone P D }
{}

/// Under a fair law every row of turns keeps the total momentum along every axis.
pub fn momenta_are_kept<P, D>()
    ensures { MomentumKept P D }
{}

/// Bodies numbered anew go the same way.
pub fn renumbering_carries<P, D>()
    ensures { RenumberingCarries P D }
{}

/// Bodies that are all shifted alike go the same way, shifted, under a law that the shift leaves as it is.
pub fn shifting_carries<P, D>()
    ensures { ShiftingCarries P D }
{}

/// Every system's steps and steps back undo each other, and its state after every row of turns is that of its time.
pub fn systems_keep_time()
    ensures { SystemsKeepTime }
{}

/// Every system keeps its total momentum along every axis over every row of turns.
pub fn systems_keep_momentum()
    ensures { SystemsKeepMomentum }
{}

/// The bodies of a system, numbered anew with their masses, go the same way.
pub fn systems_renumber()
    ensures { SystemsRenumber }
{}

/// The bodies of a system, all shifted alike, go the same way, shifted.
pub fn systems_shift()
    ensures { SystemsShift }
{}

/// The definitions lead every worked example to the words that are written down for it.
pub fn worked_systems_hold()
    ensures { Worked }
{}
