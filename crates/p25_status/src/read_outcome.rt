//! The result of decoding a data unit, besides the value that is written to an argument.

ghost use Rattle.std.specs.Prelude.{◌≡◌, [], ◌∷◌};
ghost use Rattle.p25_status.specs.{Outcomes.{outcome_of}, declared.read_outcome.ReadOutcome.TheVariants.{Failing}};

use crate::fields::{Field, FieldList};

/// The result of decoding a data unit or a part of it, besides the value that is written to an argument.
#[derive(Clone, Debug, Drop, PartialEq, Eq)]
pub enum ReadOutcome {
    /// No field fails, and the value is the decoded one. `wrong` is the number of corrected bit errors: the examined
    /// bits in which the received bits differ from those transmitted for the value.
    Read { wrong: u32 },
    /// Exactly these fields fail, in their order, and there is at least one. The value has no meaning, unless the call
    /// states otherwise.
    Failing { fields: FieldList },
}

impl ReadOutcome {
    /// Returns the outcome that one field fails.
    pub fn failing(field: Field) -> ReadOutcome
        ensures { result ≡ Failing (field ∷ []) }
    {
        ReadOutcome::Failing {
            fields: FieldList::one(field),
        }
    }

    /// Returns `Read` with this number of bit errors if no field fails, otherwise `Failing` with the fields.
    pub fn of(fields: FieldList, wrong: u32) -> ReadOutcome
        ensures { result ≡ outcome_of fields wrong }
    {
        if fields.is_empty() {
            ReadOutcome::Read { wrong }
        } else {
            ReadOutcome::Failing { fields }
        }
    }
}
