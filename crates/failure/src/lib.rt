// Why a call that asks for memory hands nothing out.
#![tactic(auto)]

ghost use Rattle.std.specs.Prelude.{◌≡◌};
ghost use Rattle.failure.specs.declared.Failure.TheVariants.{OutOfMemory};

use std::alloc::AllocError;

// The call is refused, for one of the reasons that it can be refused for, or there is no memory.
#[derive(Clone, Copy, PartialEq, Eq, Debug)]
pub enum Failure<R> {
    Refused(R),
    OutOfMemory,
}

// Written by hand, since a derived one would not tell which case it gives.
impl<R> From<AllocError> for Failure<R> {
    ghost from_gives = { λ _ r. r ≡ OutOfMemory };

    fn from(_e: AllocError) -> Failure<R> {
        Failure::OutOfMemory
    }
}
