//! Texts of changes and pins.
ghost use Rattle.std.specs.Prelude.{◌≡◌, ◌∷◌, [], ◌++◌, IfOk, OnOk, OnErr};
ghost use Rattle.txc_script_batch.specs.PreparedTexts.{prepared_text, is_refused_preparing};

use std::alloc::{AllocError, Global};
use std::fmt;
use txc_cushion::AddError;
use txc_db::DbError;
use txc_stamp::Stamp;

/// Errors of a change or a pin. It is printed as its code and, if it has one, its number.
#[derive(Clone, Copy, Debug, PartialEq, Eq)]
pub enum PrepareError {
    Database(DbError),
    /// The pin was made and not added.
    Pincushion(AddError),
}

impl fmt::Display for PrepareError {
    ghost use Rattle.std.specs.Prelude.{Some};
    ghost use Rattle.txc_script_batch.specs.PreparedTexts.{prepare_error_text};

    ghost output = { λ e. Some (prepare_error_text e) };

    fn fmt<W: fmt::Write>(&self, f: &mut fmt::Formatter<W>) -> fmt::Result {
        match self {
            PrepareError::Database(cause) => cause.write_code(f),
            PrepareError::Pincushion(cause) => cause.write_code(f),
        }
    }
}

/// Appends the text of a change or a pin. Returns whether it has a refusal.
pub fn push_prepared(
    alloc: Global,
    text: &mut Vec<u8>,
    prepared: &Result<Stamp, PrepareError>,
) -> Result<bool, AllocError>
    ensures text { OnOk result (text.new.items ≡ text.old.items ++ (prepared_text prepared.now ++ 10 ∷ [])) }
    ensures refusal { IfOk result (λ refused. refused ≡ is_refused_preparing prepared.now) }
    ensures unchanged { OnErr result (text.new.items ≡ text.old.items) }
{
    match prepared {
        Ok(stamp) => {
            let line = format!(in alloc; "at {stamp}\n")?;
            text.extend_from_slice(line.as_bytes())?;
            Ok(false)
        }
        Err(error) => {
            let line = format!(in alloc; "refused {error}\n")?;
            text.extend_from_slice(line.as_bytes())?;
            Ok(true)
        }
    }
}
