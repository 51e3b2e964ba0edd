//! Why a command is not carried out.
ghost use Rattle.std.specs.Prelude.{◌≡◌};
ghost use Rattle.tl_page.specs.declared.failure.Failure.TheVariants.{Fault as StreamFault};
ghost use Rattle.tl_program.specs.Failure.{failure_of_step};

use super::streams::Fault;
use crate::script::StepError;
pub use tl_page::Failure;

impl From<Fault> for Failure {
    ghost from_gives = { λ _ failure. failure ≡ StreamFault };

    fn from(_: Fault) -> Self {
        Failure::Fault
    }
}

impl From<StepError> for Failure {
    ghost from_gives = { λ error failure. failure ≡ failure_of_step error };

    fn from(error: StepError) -> Self {
        match error {
            StepError::NoNode | StepError::NotTag | StepError::NoPlace => Failure::Refused,
            StepError::OutOfMemory => Failure::OutOfMemory,
        }
    }
}
