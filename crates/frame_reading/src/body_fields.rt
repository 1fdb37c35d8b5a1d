//! The fields of a command's body: its session, its number, its transaction and its database.
ghost use Rattle.std.specs.Prelude.{◌≡◌};
ghost use Rattle.std.specs.Option.{option_copied};
ghost use Rattle.driver_link.specs.Commands.{needed, optional, flag as flag_of, uuid_in, session_id_of, goes_to as goes_to_database, sent_as};
ghost use Rattle.driver_link.specs.Values.{text_of, bool_of, int64_of, array_of, document_of};

use bson_lite::{Binary, Bson, Document, List, Text};
use driver_link::{Send, SendBody};
use wire_keys::keys::{
    AUTOCOMMIT, DATABASE, SESSION, SESSION_ID, START_TRANSACTION, TRANSACTION_NUMBER, UUID_SUBTYPE,
};

/// The text under a key.
#[tactic(auto, unfolding(driver_link::specs::Commands::needed))]
pub fn text_field<'a>(body: &'a Document, key: &str) -> Option<&'a Text>
    ensures { option_copied result ≡ needed text_of key.now body.now }
{
    match body.get(key) {
        Some(Bson::String(text)) => Some(text),
        _ => None,
    }
}

/// The truth value under a key.
#[tactic(auto, unfolding(driver_link::specs::Commands::needed))]
pub fn bool_field(body: &Document, key: &str) -> Option<bool>
    ensures { result ≡ needed bool_of key.now body.now }
{
    match body.get(key) {
        Some(Bson::Boolean(flag)) => Some(*flag),
        _ => None,
    }
}

/// The array under a key.
#[tactic(auto, unfolding(driver_link::specs::Commands::needed))]
pub fn array_field<'a>(body: &'a Document, key: &str) -> Option<&'a List<Bson>>
    ensures { option_copied result ≡ needed array_of key.now body.now }
{
    match body.get(key) {
        Some(Bson::Array(values)) => Some(values),
        _ => None,
    }
}

/// The document under a key.
#[tactic(auto, unfolding(driver_link::specs::Commands::needed))]
pub fn document_field<'a>(body: &'a Document, key: &str) -> Option<&'a Document>
    ensures { option_copied result ≡ needed document_of key.now body.now }
{
    match body.get(key) {
        Some(Bson::Document(document)) => Some(document),
        _ => None,
    }
}

/// The number under a key, which may be missing.
#[tactic(auto, unfolding(driver_link::specs::Commands::optional_value))]
fn number_field(body: &Document, key: &str) -> Option<Option<i64>>
    ensures { result ≡ optional int64_of key.now body.now }
{
    match body.get(key) {
        None => Some(None),
        Some(Bson::Int64(number)) => Some(Some(*number)),
        Some(_) => None,
    }
}

/// The sixteen bytes of a UUID.
#[tactic(auto, unfolding(driver_link::specs::Commands::uuid_in))]
fn uuid(binary: &Binary) -> Option<[u8; 16]>
    ensures { result ≡ uuid_in binary.now }
{
    if binary.subtype != UUID_SUBTYPE {
        return None;
    }
    let bytes = binary.bytes.as_slice();
    if bytes.len() != 16 {
        return None;
    }
    bytes.first_chunk::<16>().copied()
}

/// The id in a document that names a session.
#[tactic(auto, unfolding(driver_link::specs::Commands::session_id_of))]
fn session_id(value: &Bson) -> Option<[u8; 16]>
    ensures { result ≡ session_id_of value.now }
{
    let Bson::Document(pairs) = value else {
        return None;
    };
    match pairs.get(SESSION_ID) {
        Some(Bson::Binary(binary)) => uuid(binary),
        _ => None,
    }
}

/// The id of the session, which may be missing.
#[tactic(auto, unfolding(driver_link::specs::Commands::optional_value))]
fn session_field(body: &Document) -> Option<Option<[u8; 16]>>
    ensures { result ≡ optional session_id_of SESSION.now body.now }
{
    match body.get(SESSION) {
        None => Some(None),
        Some(value) => match session_id(value) {
            None => None,
            Some(id) => Some(Some(id)),
        },
    }
}

/// Whether a flag stands that has one value or is missing.
#[tactic(auto, unfolding(driver_link::specs::Commands::flag_value))]
fn flag_field(value: bool, body: &Document, key: &str) -> Option<bool>
    ensures { result ≡ flag_of value key.now body.now }
{
    match body.get(key) {
        None => Some(false),
        Some(Bson::Boolean(found)) => { if *found == value { Some(true) } else { None } }
        Some(_) => None,
    }
}

/// Whether the body names the database to which the command goes.
#[tactic(auto, unfolding(driver_link::specs::Commands::goes_to))]
pub fn goes_to(database: &str, body: &Document) -> bool
    ensures { result ≡ goes_to_database database.now body.now }
{
    match text_field(body, DATABASE) {
        Some(text) => text.as_str() == database,
        None => false,
    }
}

/// The send of what a command asks for, as its body says.
#[tactic(auto, unfolding(driver_link::specs::Commands::sent_as))]
pub fn send_as(body: &Document, asked: SendBody) -> Option<Send>
    ensures { result ≡ sent_as body.now asked }
{
    let session = session_field(body)?;
    let number = number_field(body, TRANSACTION_NUMBER)?;
    let start = flag_field(true, body, START_TRANSACTION)?;
    let in_transaction = flag_field(false, body, AUTOCOMMIT)?;
    Some(Send {
        session,
        number,
        start,
        in_transaction,
        body: asked,
    })
}
