//! Why a text says no rules.

ghost use Rattle.std.specs.Prelude.{◌≡◌};

use std::alloc::{AllocError, AllocFailed};
use tdl_lexer::LexFault;
use tdl_reader::ReadFault;

/// Why statements say no rules.
#[derive(Clone, Copy, Debug, PartialEq, Eq)]
pub enum RulesFault {
    /// The first statement outside the form of rules stands here.
    Form { at: u32 },
    /// Memory was wanting.
    NoMemory,
}

impl From<AllocError> for RulesFault {
    ghost use Rattle.transfer_rules.specs.declared.fault.RulesFault.TheVariants.{NoMemory};

    ghost from_gives = { λ _ e. e ≡ NoMemory };

    fn from(_: AllocError) -> RulesFault {
        RulesFault::NoMemory
    }
}

impl<T: Drop> From<AllocFailed<T>> for RulesFault {
    ghost use Rattle.transfer_rules.specs.declared.fault.RulesFault.TheVariants.{NoMemory};

    ghost from_gives = { λ _ e. e ≡ NoMemory };

    fn from(_: AllocFailed<T>) -> RulesFault {
        RulesFault::NoMemory
    }
}

/// Why a text says no rules.
#[derive(Clone, Copy, Debug, PartialEq, Eq)]
pub enum TransferFault {
    /// The text has no tokens.
    Lex { fault: LexFault },
    /// Its tokens are no statements.
    Read { fault: ReadFault },
    /// The first statement outside the form of rules stands here.
    Form { at: u32 },
    /// Memory was wanting.
    NoMemory,
}

impl From<LexFault> for TransferFault {
    ghost use Rattle.transfer_rules.specs.Faults.{lex_fault};

    ghost from_gives = { λ fault e. e ≡ lex_fault fault };

    fn from(fault: LexFault) -> TransferFault {
        match fault {
            LexFault::NoMemory => TransferFault::NoMemory,
            fault => TransferFault::Lex { fault },
        }
    }
}

impl From<ReadFault> for TransferFault {
    ghost use Rattle.transfer_rules.specs.Faults.{read_fault};

    ghost from_gives = { λ fault e. e ≡ read_fault fault };

    fn from(fault: ReadFault) -> TransferFault {
        match fault {
            ReadFault::NoMemory => TransferFault::NoMemory,
            fault => TransferFault::Read { fault },
        }
    }
}

impl From<RulesFault> for TransferFault {
    ghost use Rattle.transfer_rules.specs.Faults.{form_fault};

    ghost from_gives = { λ fault e. e ≡ form_fault fault };

    fn from(fault: RulesFault) -> TransferFault {
        match fault {
            RulesFault::Form { at } => TransferFault::Form { at },
            RulesFault::NoMemory => TransferFault::NoMemory,
        }
    }
}

/// Why a statement says no rule: it is outside the form of rules, or memory was wanting.
#[derive(Clone, Copy, Debug, PartialEq, Eq)]
pub(crate) enum Refusal {
    Form,
    NoMemory,
}

impl From<AllocError> for Refusal {
    ghost use Rattle.transfer_rules.specs.declared.fault.Refusal.TheVariants.{NoMemory};

    ghost from_gives = { λ _ e. e ≡ NoMemory };

    fn from(_: AllocError) -> Refusal {
        Refusal::NoMemory
    }
}

impl<T: Drop> From<AllocFailed<T>> for Refusal {
    ghost use Rattle.transfer_rules.specs.declared.fault.Refusal.TheVariants.{NoMemory};

    ghost from_gives = { λ _ e. e ≡ NoMemory };

    fn from(_: AllocFailed<T>) -> Refusal {
        Refusal::NoMemory
    }
}
