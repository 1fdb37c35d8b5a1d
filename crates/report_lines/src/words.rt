//! The words of a report, each put behind a text.
ghost use Rattle.std.specs.Prelude.{◌≡◌, ◌<◌, ◌++◌, [], ◌∷◌, false, map, codes, string_bytes, OnOk};
ghost use Rattle.std.specs.Fmt.{digit_glyph, digits};
ghost use Rattle.std.specs.Option.{option_copied};
ghost use Rattle.report_lines.specs.Words.{two_digits, hex, plain_hex, session_text, number_text, listed, more_texts, place_text, lone, spelled_or_nothing, value_text, value_text_or_none, fault_name, io_name, kind_name, source_text, error_text};

use crate::details::push_detail;
use crate::numbers::{push_signed, push_unsigned};
use bson_lite::{Bson, Document, EncodeFault, Text, TryClone, encode};
use driver_error::{Error, ErrorKind, IoKind};
use driver_link::{Place, PlacedWrite};
use std::alloc::{AllocError, Global};

/// The hexadecimal digit of a number below 16.
#[inline(always)]
fn digit_of(number: u8) -> u8
    requires { number < 16 }
    ensures digit { result ≡ digit_glyph false number }
    ensures ascii { result < 128 }
{
    if number < 10 {
        b'0' + number
    } else {
        b'a' + (number - 10)
    }
}

/// Puts it behind a text.
#[inline(always)]
fn push_digit(out: &mut String, number: u8) -> Result<(), AllocError>
    requires { number < 16 }
    ensures { OnOk result (string_bytes out.new ≡ string_bytes out.old ++ digit_glyph false number ∷ []) }
{
    out.push(digit_of(number) as char)
}

/// Puts both digits of a byte behind a text.
#[inline(always)]
fn push_byte(out: &mut String, byte: u8) -> Result<(), AllocError>
    ensures { OnOk result (string_bytes out.new ≡ string_bytes out.old ++ two_digits byte) }
{
    push_digit(out, byte / 16)?;
    push_digit(out, byte % 16)
}

/// Puts the digits of a byte behind a text, without a leading zero.
#[tactic(auto, using(std::proofs::lemmas::Fmt::hex_one_digit, std::proofs::lemmas::Fmt::hex_two_digits))]
fn push_short_byte(out: &mut String, byte: u8) -> Result<(), AllocError>
    ensures { OnOk result (string_bytes out.new ≡ string_bytes out.old ++ digits 16 false byte) }
{
    if byte < 16 {
        return push_digit(out, byte);
    }
    push_byte(out, byte)
}

#[tactic(auto, unfolding(crate::specs::Words::hex))]
fn push_hex(out: &mut String, bytes: &[u8]) -> Result<(), AllocError>
    ensures { OnOk result (string_bytes out.new ≡ string_bytes out.old ++ hex bytes.now) }
{
    for byte in bytes {
        push_byte(out, *byte)?;
    }
    Ok(())
}

#[tactic(auto, unfolding(crate::specs::Words::plain_hex))]
fn push_plain_hex(out: &mut String, bytes: &[u8]) -> Result<(), AllocError>
    ensures { OnOk result (string_bytes out.new ≡ string_bytes out.old ++ plain_hex bytes.now) }
{
    for (at, byte) in bytes.iter().enumerate() {
        if *byte != 0 {
            push_short_byte(out, *byte)?;
            return push_hex(out, &bytes[at + 1..]);
        }
    }
    out.push_str("0")
}

pub(crate) fn push_session(out: &mut String, session: &Option<[u8; 16]>) -> Result<(), AllocError>
    ensures { OnOk result (string_bytes out.new ≡ string_bytes out.old ++ session_text session.now) }
{
    match session {
        Some(id) => push_plain_hex(out, id.as_slice()),
        None => out.push_str("-"),
    }
}

pub(crate) fn push_number(out: &mut String, number: Option<i64>) -> Result<(), AllocError>
    ensures { OnOk result (string_bytes out.new ≡ string_bytes out.old ++ number_text number) }
{
    match number {
        Some(number) => push_signed(out, number),
        None => out.push_str("-"),
    }
}

pub(crate) fn push_place(out: &mut String, place: &Place) -> Result<(), AllocError>
    ensures { OnOk result (string_bytes out.new ≡ string_bytes out.old ++ place_text place.now) }
{
    push_unsigned(out, place.call)?;
    out.push_str(".")?;
    push_unsigned(out, place.index)
}

#[tactic(auto, unfolding(crate::specs::Words::listed, crate::specs::Words::more_texts))]
pub(crate) fn push_places(out: &mut String, writes: &[PlacedWrite]) -> Result<(), AllocError>
    ensures { OnOk result
        (string_bytes out.new ≡
        string_bytes out.old ++ listed (map (λ write. place_text write.place) writes.now)) }
{
    let Some((first, rest)) = writes.split_first() else {
        return out.push_str("-");
    };
    push_place(out, &first.place)?;
    for write in rest {
        out.push_str(",")?;
        push_place(out, &write.place)?;
    }
    Ok(())
}

#[tactic(auto, unfolding(crate::specs::Words::value_text))]
pub(crate) fn push_value(alloc: Global, out: &mut String, value: &Bson) -> Result<(), AllocError>
    ensures { OnOk result (string_bytes out.new ≡ string_bytes out.old ++ value_text value.now) }
{
    match value {
        Bson::ObjectId(id) => push_hex(out, id.bytes.as_slice()),
        Bson::Int32(number) => {
            write!(out, "{number}")?;
            Ok(())
        }
        Bson::Int64(number) => {
            write!(out, "{number}")?;
            Ok(())
        }
        other => push_spelling(alloc, out, other),
    }
}

/// The text of a value, or `-`.
pub(crate) fn push_value_or_none(
    alloc: Global,
    out: &mut String,
    value: &Option<Bson>,
) -> Result<(), AllocError>
    ensures { OnOk result (string_bytes out.new ≡ string_bytes out.old ++ value_text_or_none value.now) }
{
    match value {
        Some(value) => push_value(alloc, out, value),
        None => out.push_str("-"),
    }
}

fn push_spelling(alloc: Global, out: &mut String, value: &Bson) -> Result<(), AllocError>
    ensures { OnOk result
        (string_bytes out.new ≡
        string_bytes out.old ++ codes "bson:" ++ hex (spelled_or_nothing (lone value.now))) }
{
    let mut document = Document::new(alloc);
    document.push("v", value.try_clone(alloc)?)?;
    out.push_str("bson:")?;
    match encode(alloc, &document) {
        Ok(bytes) => push_hex(out, bytes.as_slice()),
        Err(EncodeFault::Memory) => Err(AllocError),
        Err(_) => push_hex(out, &[]),
    }
}

#[tactic(auto, unfolding(crate::specs::Words::fault_name))]
pub(crate) fn name_of_fault(fault: EncodeFault) -> &'static str
    ensures { result.now ≡ fault_name fault }
{
    match fault {
        EncodeFault::TooDeep => "TooDeep",
        EncodeFault::ZeroByte => "ZeroByte",
        EncodeFault::TooLong => "TooLong",
        EncodeFault::Memory => "Memory",
    }
}

#[tactic(auto, unfolding(crate::specs::Words::io_name))]
pub(crate) fn name_of_io(kind: IoKind) -> &'static str
    ensures { result.now ≡ io_name kind }
{
    match kind {
        IoKind::TimedOut => "TimedOut",
        IoKind::ConnectionReset => "ConnectionReset",
        IoKind::ConnectionRefused => "ConnectionRefused",
        IoKind::BrokenPipe => "BrokenPipe",
        IoKind::UnexpectedEof => "UnexpectedEof",
        IoKind::Other => "Other",
    }
}

#[tactic(auto, unfolding(crate::specs::Words::kind_name))]
fn name_of_kind(kind: &ErrorKind) -> &'static str
    ensures { result.now ≡ kind_name kind.now }
{
    match kind {
        ErrorKind::InvalidArgument { .. } => "InvalidArgument",
        ErrorKind::Authentication { .. } => "Authentication",
        ErrorKind::BsonDeserialization(_) => "BsonDeserialization",
        ErrorKind::BsonSerialization(_) => "BsonSerialization",
        ErrorKind::InsertMany(_) => "InsertMany",
        ErrorKind::BulkWrite(_) => "BulkWrite",
        ErrorKind::Command(_) => "Command",
        ErrorKind::DnsResolve { .. } => "DnsResolve",
        ErrorKind::GridFs(_) => "GridFs",
        ErrorKind::Internal { .. } => "Internal",
        ErrorKind::Io(_) => "Io",
        ErrorKind::ConnectionPoolCleared { .. } => "ConnectionPoolCleared",
        ErrorKind::InvalidResponse { .. } => "InvalidResponse",
        ErrorKind::ServerSelection { .. } => "ServerSelection",
        ErrorKind::SessionsNotSupported => "SessionsNotSupported",
        ErrorKind::InvalidTlsConfig { .. } => "InvalidTlsConfig",
        ErrorKind::Write(_) => "Write",
        ErrorKind::Transaction { .. } => "Transaction",
        ErrorKind::IncompatibleServer { .. } => "IncompatibleServer",
        ErrorKind::MissingResumeToken => "MissingResumeToken",
        ErrorKind::Custom(_) => "Custom",
        ErrorKind::Shutdown => "Shutdown",
        ErrorKind::Memory => "Memory",
    }
}

#[tactic(auto, unfolding(crate::specs::Words::listed, crate::specs::Words::more_texts))]
fn push_labels(out: &mut String, labels: &[Text]) -> Result<(), AllocError>
    ensures { OnOk result (string_bytes out.new ≡ string_bytes out.old ++ listed labels.now) }
{
    let Some((first, rest)) = labels.split_first() else {
        return out.push_str("-");
    };
    out.push_str(first.as_str())?;
    for label in rest {
        out.push_str(",")?;
        out.push_str(label.as_str())?;
    }
    Ok(())
}

fn push_source(out: &mut String, source: Option<&Error>) -> Result<(), AllocError>
    ensures { OnOk result
        (string_bytes out.new ≡ string_bytes out.old ++ source_text (option_copied source.entry)) }
{
    match source {
        Some(source) => out.push_str(name_of_kind(source.kind())),
        None => out.push_str("-"),
    }
}

#[tactic(auto, unfolding(crate::specs::Words::error_text))]
pub(crate) fn push_error(alloc: Global, out: &mut String, error: &Error) -> Result<(), AllocError>
    ensures { OnOk result (string_bytes out.new ≡ string_bytes out.old ++ error_text error.now) }
{
    let labels = error.labels().sorted(alloc)?;
    out.push_str("err ")?;
    out.push_str(name_of_kind(error.kind()))?;
    out.push_str(" ")?;
    push_detail(alloc, out, error.kind())?;
    out.push_str(" labels=")?;
    push_labels(out, labels.as_slice())?;
    out.push_str(" source=")?;
    push_source(out, error.source())
}
