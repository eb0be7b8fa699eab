//! What is told of each norm that a run closes.

ghost use Rattle.std.specs.Prelude.{◌≡◌, ℕ, Option, Some, is_some, IfSome, OnOk, OnErr};
ghost use Rattle.std.specs.Option.{option_map};
ghost use Rattle.outside.specs.Causes.{HasCause};
ghost use Rattle.stage_store.specs.Stage.{StageValue};

use outside::PutEnd;
use stage_store::Stage;

/// What is told of each norm that a run closes.
///
/// It has a state, which it tells or does not, and that never changes. It counts its faults, and the count never falls.
pub trait Keep {
    /// The state, as plain data.
    type State;

    /// The state, where it is told.
    ghost state: { Self → Option Self.State };

    /// How often the keeping failed.
    ghost faults: { Self → ℕ };

    /// The state that follows a kept stage.
    ghost after: { Self.State → StageValue → Self.State };

    /// Which states may follow a stage whose keeping was refused.
    ghost torn: { Self.State → StageValue → Self.State → Type 0 };

    /// Keeps a stage of which a norm was just closed.
    ///
    /// # Errors
    /// `Failed` where the count of faults rose, and `Memory` where memory ran out.
    fn norm_closed(&mut self, stage: &Stage) -> Result<(), PutEnd>
        ensures done { OnOk result
            (state self.new ≡ option_map (λ s. after s stage.now) (state self.old)) }
        ensures refused { OnErr result
            (IfSome (state self.old)
            (λ s. IfSome (state self.new) (torn s stage.now))) }
        ensures told { is_some (state self.new) ≡ is_some (state self.old) }
        ensures cause { HasCause (faults self.old) (faults self.new) result };
}

/// Keeps nothing: its state never changes, and it never fails.
#[derive(Clone, Copy, Debug, PartialEq, Eq, Drop)]
pub struct NoKeep;

impl Keep for NoKeep {
    type State = ();

    ghost state = { λ _. Some tt };

    ghost faults = { λ _. 0 };

    ghost after = { λ s _. s };

    ghost torn = { λ s _ t. t ≡ s };

    fn norm_closed(&mut self, _stage: &Stage) -> Result<(), PutEnd> {
        Ok(())
    }
}
