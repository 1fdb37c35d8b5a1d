//! Readers of the fields of a reply: each gives exactly what its definition says, or refuses the value.
ghost use Rattle.std.specs.Prelude.{◌≡◌};
ghost use Rattle.std.specs.Option.{option_copied};
ghost use Rattle.bson_lite.specs.Fields.{int_of};
ghost use Rattle.driver_link.specs.Commands.{needed, optional};
ghost use Rattle.driver_link.specs.Values.{text_of};
ghost use Rattle.driver_ops.specs.Readings.{Gives, small_of, natural_of, text_in, texts_in, texts_of, labels_in, command_error_in};

use crate::keys::{BASE_BACKOFF, CODE_NAME};
use bson_lite::{Bson, Document, List, Text, TryClone, get_int};
use driver_error::{CommandError, CommandErrorBody};
use std::alloc::{AllocError, Global};
use wire_keys::keys;

/// Why a field was not read.
#[derive(Clone, Copy, Debug, PartialEq, Eq)]
pub enum Unread {
    /// It is missing, or has not the form that it must have.
    Wrong,
    Memory,
}

impl From<AllocError> for Unread {
    ghost use Rattle.std.specs.Prelude.{◌≡◌};
    ghost use Rattle.driver_ops.specs.declared.reply_fields.Unread.TheVariants.{Memory};

    ghost from_gives = { λ _ unread. unread ≡ Memory };

    fn from(_refused: AllocError) -> Unread {
        Unread::Memory
    }
}

/// A whole number of 32 bits.
#[tactic(auto, unfolding(crate::specs::Readings::small_of))]
fn small_of(value: &Bson) -> Option<i32>
    ensures { result ≡ small_of value.now }
{
    let number = get_int(value)?;
    match i32::try_from(number) {
        Ok(small) => Some(small),
        Err(_) => None,
    }
}

/// A whole number that is not negative.
#[tactic(auto, unfolding(crate::specs::Readings::natural_of))]
fn natural_of(value: &Bson) -> Option<u64>
    ensures { result ≡ natural_of value.now }
{
    let number = get_int(value)?;
    match u64::try_from(number) {
        Ok(natural) => Some(natural),
        Err(_) => None,
    }
}

/// The code of an error, which is needed.
#[tactic(auto, unfolding(driver_link::specs::Commands::needed))]
pub fn code_at(document: &Document, key: &str) -> Result<i32, Unread>
    ensures { Gives result (needed small_of key.now document.now) }
{
    let Some(value) = document.get(key) else {
        return Err(Unread::Wrong);
    };
    match small_of(value) {
        Some(code) => Ok(code),
        None => Err(Unread::Wrong),
    }
}

/// A whole number, which is needed.
#[tactic(auto, unfolding(driver_link::specs::Commands::needed))]
pub fn int_at(document: &Document, key: &str) -> Result<i64, Unread>
    ensures { Gives result (needed int_of key.now document.now) }
{
    let Some(value) = document.get(key) else {
        return Err(Unread::Wrong);
    };
    match get_int(value) {
        Some(number) => Ok(number),
        None => Err(Unread::Wrong),
    }
}

/// A number that is not negative, which is needed.
#[tactic(auto, unfolding(driver_link::specs::Commands::needed))]
pub fn count_at(document: &Document, key: &str) -> Result<u64, Unread>
    ensures { Gives result (needed natural_of key.now document.now) }
{
    let Some(value) = document.get(key) else {
        return Err(Unread::Wrong);
    };
    match natural_of(value) {
        Some(count) => Ok(count),
        None => Err(Unread::Wrong),
    }
}

/// A number that is not negative, which may be missing.
#[tactic(auto, unfolding(driver_link::specs::Commands::optional_value))]
pub fn natural_at(document: &Document, key: &str) -> Result<Option<u64>, Unread>
    ensures { Gives result (optional natural_of key.now document.now) }
{
    let Some(value) = document.get(key) else {
        return Ok(None);
    };
    match natural_of(value) {
        Some(natural) => Ok(Some(natural)),
        None => Err(Unread::Wrong),
    }
}

/// A text, which is empty where it is missing.
#[tactic(auto, unfolding(crate::specs::Readings::text_in, driver_link::specs::Commands::optional_value))]
pub fn text_at(alloc: Global, document: &Document, key: &str) -> Result<Text, Unread>
    ensures { Gives result (text_in key.now document.now) }
{
    match document.get(key) {
        None => Ok(Text::new(alloc)),
        Some(Bson::String(text)) => Ok(text.try_clone(alloc)?),
        Some(_) => Err(Unread::Wrong),
    }
}

/// The text of a string value.
fn text_of(value: &Bson) -> Option<&Text>
    ensures { option_copied result ≡ text_of value.now }
{
    match value {
        Bson::String(text) => Some(text),
        _ => None,
    }
}

/// Values that are all texts.
#[tactic(auto, unfolding(crate::specs::Readings::texts_in))]
fn texts_in(alloc: Global, values: &[Bson]) -> Result<List<Text>, Unread>
    ensures { Gives result (texts_in values.now) }
{
    let mut texts = List::new(alloc);
    for value in values {
        match text_of(value) {
            Some(text) => texts.push(text.try_clone(alloc)?)?,
            None => return Err(Unread::Wrong),
        }
    }
    Ok(texts)
}

/// The labels of a reply.
#[tactic(auto, unfolding(crate::specs::Readings::labels_in, crate::specs::Readings::texts_of, driver_link::specs::Commands::optional_value))]
pub fn labels_at(alloc: Global, document: &Document) -> Result<List<Text>, Unread>
    ensures { Gives result (labels_in document.now) }
{
    match document.get(keys::ERROR_LABELS) {
        None => Ok(List::new(alloc)),
        Some(Bson::Array(values)) => texts_in(alloc, values.as_slice()),
        Some(_) => Err(Unread::Wrong),
    }
}

/// The error that the reply to a failed command spells.
#[tactic(auto, unfolding(crate::specs::Readings::command_error_in))]
pub(crate) fn command_error(alloc: Global, document: &Document) -> Result<CommandErrorBody, Unread>
    ensures { Gives result (command_error_in document.now) }
{
    let code = code_at(document, keys::CODE)?;
    let code_name = text_at(alloc, document, CODE_NAME)?;
    let message = text_at(alloc, document, keys::ERROR_MESSAGE)?;
    let base_backoff = natural_at(document, BASE_BACKOFF)?;
    let error_labels = labels_at(alloc, document)?;
    Ok(CommandErrorBody {
        error_labels,
        command_error: CommandError {
            code,
            code_name,
            message,
            base_backoff,
        },
    })
}
