//! Theorems on calls, each the contract of a function that does nothing.
ghost use Rattle.std.specs.Prelude.{◌≡◌, ℕ, List};
ghost use Rattle.motion.specs.Refusals.{good};
ghost use Rattle.calls.specs.SystemBytes.{system_told, Valid};

/// The system in front of bytes is taken just if its numbers are in their ranges and all its bytes are there.
pub fn valid_systems_are_taken()
    ensures { (bytes : List ℕ) → (system_told bytes ≡ good tt → Valid bytes) × (Valid bytes → system_told bytes ≡ good tt) }
{}
