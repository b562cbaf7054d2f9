//! Why viewers were not started.
ghost use Rattle.std.specs.Prelude.{◌≡◌};
ghost use Rattle.script.specs.declared.unstarted.Unstarted.TheVariants as unstarted;

use report::Want;

/// Why the viewers of a run were not started.
#[derive(Clone, Copy, Debug, PartialEq, Eq, Drop)]
pub enum Unstarted {
    /// They wanted this.
    Want(Want),
    /// The place of one was refused.
    NotShown,
}

impl From<Want> for Unstarted {
    ghost from_gives = { λ wanted why. why ≡ unstarted.Want wanted };

    fn from(want: Want) -> Unstarted {
        Unstarted::Want(want)
    }
}
