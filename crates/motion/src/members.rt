//! Which bodies of a system are meant: all, or those of a share.
ghost use Rattle.std.specs.Prelude.{◌≡◌, ℕ, Bool};
ghost use Rattle.motion.specs.Changes.{everyone, member};

use crate::share::in_share;

/// Some bodies of a system.
pub(crate) trait Members {
    ghost has: { Self → ℕ → Bool };

    /// Tells whether a body is one of them.
    fn has(&self, body: usize) -> bool
        ensures { result ≡ has self.now body };
}

/// All bodies.
pub(crate) struct Everyone;

impl Members for Everyone {
    ghost has = { λ _. everyone };

    fn has(&self, _body: usize) -> bool {
        true
    }
}

/// The bodies of a share.
impl Members for &[bool] {
    ghost has = { λ share. member share.now };

    fn has(&self, body: usize) -> bool {
        in_share(self, body)
    }
}
