use alw_num::NoMemory;
use sparc_asm::Fault;

/// Why a line fills in nothing.
#[derive(Clone, Copy, PartialEq, Eq)]
pub enum Refusal {
    Fault(Fault),
    NoMemory,
}

impl From<NoMemory> for Refusal {
    ghost use Rattle.sparc_assemble.specs.declared.refusals.Refusal.TheVariants.{NoMemory};
    ghost use Rattle.std.specs.Prelude.{◌≡◌};

    ghost from_gives = { λ _ e. e ≡ NoMemory };

    fn from(_e: NoMemory) -> Refusal {
        Refusal::NoMemory
    }
}
