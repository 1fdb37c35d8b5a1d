//! A value that is printed only where it may be.
use std::fmt;

/// A value that prints `<redacted>` in its place where `on` is true.
#[derive(Drop)]
pub struct Redact<T> {
    pub inner: T,
    pub on: bool,
}

impl<T: fmt::Display> fmt::Display for Redact<T> {
    ghost use Rattle.driver_error.specs.Shown.{shown};

    ghost output = { λ value. shown value.on (T.output value.inner) };

    ghost styled_output = { λ value spec. shown value.on (T.styled_output value.inner spec) };

    #[tactic(auto, unfolding(crate::specs::Shown::hidden_text))]
    fn fmt<W: fmt::Write>(&self, f: &mut fmt::Formatter<W>) -> fmt::Result {
        if self.on {
            f.write_str("<redacted>")
        } else {
            self.inner.fmt(f)
        }
    }
}

impl<T: fmt::Debug> fmt::Debug for Redact<T> {
    ghost use Rattle.driver_error.specs.Shown.{shown};

    ghost debug_output = { λ value. shown value.on (T.debug_output value.inner) };

    #[tactic(auto, unfolding(crate::specs::Shown::hidden_text))]
    fn fmt<W: fmt::Write>(&self, f: &mut fmt::Formatter<W>) -> fmt::Result {
        if self.on {
            f.write_str("<redacted>")
        } else {
            self.inner.fmt(f)
        }
    }
}
