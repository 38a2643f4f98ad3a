// Why a call that is lent room gives no result.
ghost use Rattle.std.specs.Prelude.{◌≡◌};
ghost use Rattle.checks.specs.declared.call.CallError.TheVariants.{Refused};

use super::fault::Fault;

#[derive(Clone, Copy)]
pub enum CallError {
    // A slice that is lent for results has too little room. Nothing is changed.
    NoRoom,
    // A number is refused. Nothing is changed.
    Refused(Fault),
}

impl From<Fault> for CallError {
    ghost from_gives = { λ f e. e ≡ Refused f };

    fn from(fault: Fault) -> CallError {
        CallError::Refused(fault)
    }
}
