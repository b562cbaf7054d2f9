//! The hash of keys that a run uses.
ghost use Rattle.std.specs.Prelude.{◌≡◌};

/// The hash of keys that a run uses.
#[derive(Clone, Copy, Debug, PartialEq, Eq, Drop)]
pub enum HashChoice {
    /// FNV-1a with 64 bits.
    Fnv,
    /// An integer's bits as they stand, a text's length: for tests, which choose collisions by it.
    Plain,
}

impl Default for HashChoice {
    ghost use Rattle.script.specs.Hows.{default_hash};

    ghost is_default = { λ hash. hash ≡ default_hash };

    /// FNV-1a.
    fn default() -> HashChoice {
        HashChoice::Fnv
    }
}
