//! An error: its kind, its labels, and the error that caused it.
ghost use Rattle.std.specs.Prelude.{◌≡◌, [], ◌++◌, None, Some, OnOk, OnErr, IfOk};
ghost use Rattle.std.specs.Option.{option_copied};
ghost use Rattle.driver_error.specs.declared.kind.ErrorKind.TheVariants.{Custom};
ghost use Rattle.driver_error.specs.Conversions.{IsMade, IsNew};
ghost use Rattle.driver_error.specs.Error.{kind_of, labels_of, source_of, response_of, wire_version_of, IsAlone, KeepsAllButLabels, HasSource, HasVersion, HasResponse, with_kind};
ghost use Rattle.driver_error.specs.Kinds.{backoff_of, concern_error_of, custom_text, inner_labels};
ghost use Rattle.driver_error.specs.LabelTexts.{no_labels, label_set, with_label, has_label};

use crate::kind::ErrorKind;
use crate::labels::Labels;
use crate::write::{WriteConcernError, WriteFailure};
use bson_lite::{Boxed, RawDocumentBuf, Text};
use std::alloc::{AllocError, Global};

/// The driver's result.
pub type Result<T> = std::result::Result<T, Error>;

/// An error of the driver.
#[derive(Debug)]
pub struct Error {
    pub(crate) kind: ErrorKind,
    pub(crate) labels: Labels,
    pub(crate) wire_version: Option<i32>,
    pub(crate) source: Option<Boxed<Error>>,
    pub(crate) server_response: Option<RawDocumentBuf>,
}

impl Drop for Error {
    #[cycle(error_drop)]
    fn drop(self) {
        let Error {
            kind,
            labels,
            wire_version: _,
            source,
            server_response,
        } = self;
        drop(kind);
        drop(labels);
        drop(source);
        drop(server_response);
    }
}

/// What an error holds, taken apart.
#[derive(Drop)]
pub(crate) struct Parts {
    pub(crate) kind: ErrorKind,
    pub(crate) labels: Labels,
    pub(crate) wire_version: Option<i32>,
    pub(crate) source: Option<Boxed<Error>>,
    pub(crate) server_response: Option<RawDocumentBuf>,
}

/// The write concern error inside an error of inserts or of a single write.
pub(crate) fn concern_error_of(kind: &ErrorKind) -> Option<&WriteConcernError>
    ensures { option_copied result ≡ concern_error_of kind.now }
{
    match kind {
        ErrorKind::InsertMany(failures) => failures.get().write_concern_error.as_ref(),
        ErrorKind::Write(WriteFailure::WriteConcernError(concern)) => Some(concern),
        _ => None,
    }
}

/// These labels, and those of a write concern error inside the kind.
#[tactic(auto, using(crate::proofs::SortedLabels::with_labels_set))]
fn all_labels(
    alloc: Global,
    kind: &ErrorKind,
    labels: &[Text],
) -> std::result::Result<Labels, AllocError>
    ensures { IfOk result (λ all. all ≡ label_set (inner_labels kind.now ++ labels.now)) }
{
    let all = Labels::from_texts(alloc, labels)?;
    match concern_error_of(kind) {
        None => Ok(all),
        Some(concern) => all.with_all(alloc, concern.labels.as_slice()),
    }
}

/// An error in a place of its own.
fn boxed(
    alloc: Global,
    error: Option<Error>,
) -> std::result::Result<Option<Boxed<Error>>, AllocError>
    ensures { IfOk result (λ boxed. boxed ≡ error) }
{
    match error {
        None => Ok(None),
        Some(error) => Ok(Some(Boxed::new(alloc, error)?)),
    }
}

impl Error {
    /// An error of this kind without labels. It takes no memory. The kind has no labels inside: one
    /// that may have a write concern error with labels is made by [`Error::new`], which adds them.
    pub fn from_kind(kind: ErrorKind) -> Error
        requires { inner_labels kind ≡ [] }
        ensures { IsAlone kind no_labels result }
    {
        Error {
            kind,
            labels: Labels::none(),
            wire_version: None,
            source: None,
            server_response: None,
        }
    }

    /// An error of this kind with these labels, and those of a write concern error inside an error of
    /// inserts or of a single write. Where it finds no memory it is an error of kind Memory alone.
    pub fn new(alloc: Global, kind: ErrorKind, labels: &[Text]) -> Error
        ensures { IsNew kind labels.now result }
    {
        match all_labels(alloc, &kind, labels) {
            Ok(labels) => Error {
                kind,
                labels,
                wire_version: None,
                source: None,
                server_response: None,
            },
            Err(_refused) => {
                drop(kind);
                Error::from_kind(ErrorKind::Memory)
            }
        }
    }

    /// An error of the caller's own. Where it finds no memory it is an error of kind Memory alone.
    pub fn custom(alloc: Global, text: &str) -> Error
        ensures { IsMade (Custom text.now) no_labels result }
    {
        match Text::from_str(alloc, text) {
            Ok(text) => Error::from_kind(ErrorKind::Custom(text)),
            Err(_refused) => Error::from_kind(ErrorKind::Memory),
        }
    }

    /// The text of an error of the caller's own.
    pub fn get_custom(&self) -> Option<&str>
        ensures { option_copied result ≡ custom_text (kind_of self.now) }
    {
        match &self.kind {
            ErrorKind::Custom(text) => Some(text.as_str()),
            _ => None,
        }
    }

    pub fn kind(&self) -> &ErrorKind
        ensures { result.now ≡ kind_of self.now }
    {
        &self.kind
    }

    /// The labels of this error alone, without those of its source.
    pub fn labels(&self) -> &Labels
        ensures { result.now ≡ labels_of self.now }
    {
        &self.labels
    }

    /// The error that caused this one.
    pub fn source(&self) -> Option<&Error>
        ensures { option_copied result ≡ source_of self.now }
    {
        match &self.source {
            None => None,
            Some(source) => Some(source.get()),
        }
    }

    /// The wire version of the connection on which it came.
    pub fn wire_version(&self) -> Option<i32>
        ensures { result ≡ wire_version_of self.now }
    {
        self.wire_version
    }

    /// The reply that spelled it.
    pub fn server_response(&self) -> Option<&RawDocumentBuf>
        ensures { option_copied result ≡ response_of self.now }
    {
        self.server_response.as_ref()
    }

    /// How long the server asks to wait, in milliseconds. Only a command error tells it.
    pub fn base_backoff(&self) -> Option<u64>
        ensures { result ≡ backoff_of (kind_of self.now) }
    {
        match &self.kind {
            ErrorKind::Command(error) => error.base_backoff,
            _ => None,
        }
    }

    /// Whether this error has a label, without a look at its source.
    pub fn has_own_label(&self, label: &str) -> bool
        ensures { result ≡ has_label (labels_of self.now) label.now }
    {
        self.labels.contains(label)
    }

    /// Adds one label. A refusal changes nothing.
    pub fn add_label(&mut self, alloc: Global, label: &str) -> std::result::Result<(), AllocError>
        ensures ok { OnOk result (labels_of self.new ≡ with_label (labels_of self.old) label.now) }
        ensures rest { KeepsAllButLabels self.old self.new }
        ensures err { OnErr result (labels_of self.new ≡ labels_of self.old) }
    {
        self.labels.add(alloc, label)
    }

    /// The same error with this source, or without one.
    pub fn with_source(
        self,
        alloc: Global,
        source: Option<Error>,
    ) -> std::result::Result<Error, AllocError>
        ensures { IfOk result (λ error. HasSource source self error) }
    {
        match boxed(alloc, source) {
            Ok(source) => Ok(self.over(source)),
            Err(refused) => {
                drop(self);
                Err(refused)
            }
        }
    }

    /// What it holds, moved out.
    pub(crate) fn into_parts(self) -> Parts
        ensures kind { result.kind ≡ kind_of self }
        ensures labels { result.labels ≡ labels_of self }
        ensures version { result.wire_version ≡ wire_version_of self }
        ensures source { result.source ≡ source_of self }
        ensures response { result.server_response ≡ response_of self }
    {
        let Error {
            kind,
            labels,
            wire_version,
            source,
            server_response,
        } = self;
        Parts {
            kind,
            labels,
            wire_version,
            source,
            server_response,
        }
    }

    /// The same error with this source, which has its place already.
    fn over(self, source: Option<Boxed<Error>>) -> Error
        ensures { HasSource source self result }
    {
        let Error {
            kind,
            labels,
            wire_version,
            source: old,
            server_response,
        } = self;
        drop(old);
        Error {
            kind,
            labels,
            wire_version,
            source,
            server_response,
        }
    }

    /// The same error of another kind, which has no labels inside, so that the labels stay as they
    /// are. It takes no memory.
    #[tactic(auto, unfolding(crate::specs::Error::with_kind))]
    pub fn with_kind(self, kind: ErrorKind) -> Error
        requires { inner_labels kind ≡ [] }
        ensures { result ≡ with_kind kind self }
    {
        let Error {
            kind: old,
            labels,
            wire_version,
            source,
            server_response,
        } = self;
        drop(old);
        Error {
            kind,
            labels,
            wire_version,
            source,
            server_response,
        }
    }

    /// The same error, as it came on a connection with this wire version. It takes no memory.
    pub fn with_wire_version(self, wire_version: Option<i32>) -> Error
        ensures { HasVersion wire_version self result }
    {
        let Error {
            kind,
            labels,
            wire_version: _,
            source,
            server_response,
        } = self;
        Error {
            kind,
            labels,
            wire_version,
            source,
            server_response,
        }
    }

    /// The same error, as this reply spelled it. It takes no memory.
    pub fn with_server_response(self, response: Option<RawDocumentBuf>) -> Error
        ensures { HasResponse response self result }
    {
        let Error {
            kind,
            labels,
            wire_version,
            source,
            server_response: old,
        } = self;
        drop(old);
        Error {
            kind,
            labels,
            wire_version,
            source,
            server_response: response,
        }
    }
}
