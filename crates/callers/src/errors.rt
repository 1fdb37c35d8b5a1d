//! A caller of `driver_error`: an error that says that its write may be sent again.
ghost use Rattle.std.specs.Prelude.{◌≡◌, IfOk};
ghost use Rattle.driver_error.specs.Error.{kind_of, labels_of};
ghost use Rattle.driver_error.specs.LabelTexts.{no_labels, with_label};
ghost use Rattle.driver_error.specs.declared.kind.ErrorKind.TheVariants.{Io};
ghost use Rattle.driver_error.specs.declared.kind.IoKind.TheVariants.{ConnectionReset};

use driver_error::{Error, ErrorKind, IoKind, RETRYABLE_WRITE_ERROR};
use std::alloc::{AllocError, Global};

/// The error of a write whose connection was reset: its one label says that it may be sent again.
pub fn reset_in_a_write(alloc: Global) -> Result<Error, AllocError>
    ensures kind { IfOk result (λ error. kind_of error ≡ Io ConnectionReset) }
    ensures labels { IfOk result
        (λ error. labels_of error ≡ with_label no_labels RETRYABLE_WRITE_ERROR.now) }
{
    let mut error = Error::from_kind(ErrorKind::Io(IoKind::ConnectionReset));
    match error.add_label(alloc, RETRYABLE_WRITE_ERROR) {
        Ok(()) => Ok(error),
        Err(refused) => {
            drop(error);
            Err(refused)
        }
    }
}
