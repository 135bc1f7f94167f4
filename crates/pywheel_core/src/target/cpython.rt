//! Releases of CPython.

ghost use Rattle.std.specs.Prelude.{◌≡◌};
ghost use Rattle.pywheel_core.specs.Target.Value.{is_cpython};

/// A build of CPython 3.`minor`.`micro`.
#[derive(Clone, Copy, PartialEq, Eq, Debug)]
pub struct CPython {
    /// The second number of the release.
    pub minor: u8,
    /// The third one.
    pub micro: u16,
    /// Whether it runs threads side by side (PEP 703).
    pub is_free_threaded: bool,
}

impl CPython {
    /// Whether there is such a release, or may be: 3.8 to 3.99, free-threaded from 3.13 on.
    pub(crate) fn is_known(self) -> bool
        ensures { result ≡ is_cpython self }
    {
        8 <= self.minor
            && self.minor <= 99
            && self.micro <= 999
            && (!self.is_free_threaded || 13 <= self.minor)
    }
}
