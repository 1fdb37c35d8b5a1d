//! The body of a command in bytes with the executor's fields behind its own, of which no document is made.
ghost use Rattle.std.specs.Prelude.{◌≡◌, ◌+◌, ◌≤◌, ◌++◌, None, Some, true, length, IfOk, OnOk};
ghost use Rattle.std.specs.Int.{w64, cast_unsigned};
ghost use Rattle.std.specs.Option.{option_copied};
ghost use Rattle.std.specs.Str.{IsUtf8};
ghost use Rattle.bson_lite.specs.Ranges.{fits};
ghost use Rattle.bson_lite.specs.Spelling.{body_of, counted, eight, four};
ghost use Rattle.driver_ops.specs.Fields.{IsSixteen, executor_fields, in_context, number_field, session_field};
ghost use Rattle.driver_attempt.specs.inside.JoinedBodies.{InRange, JoinsElements, MayJoin, SpellsBody, database_field, elements_in};

use bson_lite::{Bytes, Text, encode};
use driver_ops::Command;
use std::alloc::{AllocError, Global};

/// The greatest length of a document in bytes.
const LONGEST: usize = 2_147_483_647;

/// The bytes of a command's body with the executor's fields behind its own, where it goes without a write concern. There
/// are none where its own body has no spelling, or would be too long with them.
pub(crate) fn body_bytes(
    alloc: Global,
    command: &Command,
    session: Option<&[u8; 16]>,
    number: Option<i64>,
) -> Result<Option<Bytes>, AllocError>
    ensures sixteen { IsSixteen (option_copied session.entry) }
    ensures spells { IfOk result
        (λ found. SpellsBody (in_context (option_copied session.entry) number None) command.now found) }
{
    let fields = field_bytes(alloc, session, number, &command.database)?;
    match encode(alloc, &command.body) {
        Ok(own) => with_elements(alloc, &own, &fields),
        Err(_) => Ok(None),
    }
}

/// A document in bytes with more elements behind its own, where all are short enough.
fn with_elements(alloc: Global, own: &Bytes, more: &Bytes) -> Result<Option<Bytes>, AllocError>
    ensures { IfOk result (λ found. MayJoin own.now more.now found) }
{
    let count = own.len().saturating_add(more.len());
    if own.len() < 5 || count > LONGEST {
        return Ok(None);
    }
    let bytes = joined(alloc, own, more, count)?;
    Ok(Some(bytes))
}

/// The same, where so many bytes are not too many.
fn joined(alloc: Global, own: &Bytes, more: &Bytes, count: usize) -> Result<Bytes, AllocError>
    requires five { 5 ≤ length own.now }
    requires count { count ≡ length own.now + length more.now }
    requires short { count ≤ 2147483647 }
    ensures { IfOk result (λ bytes. JoinsElements own.now more.now bytes) }
{
    let mut out = begun(alloc, own, count)?;
    out.extend_from_slice(more.as_slice())?;
    out.push(0)?;
    Ok(out)
}

/// The beginning of a document of so many bytes, with the elements of another.
fn begun(alloc: Global, own: &Bytes, count: usize) -> Result<Bytes, AllocError>
    requires { 5 ≤ length own.now }
    ensures { IfOk result (λ out. out ≡ four count ++ elements_in own.now) }
{
    let mut out = Bytes::with_capacity(alloc, count)?;
    out.extend_from_slice(&count_bytes(count))?;
    out.extend_from_slice(elements_of(own))?;
    Ok(out)
}

/// What stands between the length of a document and its last byte.
fn elements_of(own: &Bytes) -> &[u8]
    requires { 5 ≤ length own.now }
    ensures { result.now ≡ elements_in own.now }
{
    let bytes = own.as_slice();
    &bytes[4..bytes.len() - 1]
}

/// A length, of which the format keeps 32 bits.
fn count_bytes(count: usize) -> [u8; 4]
    ensures { result ≡ four count }
{
    let low = (count % 0x1_0000_0000) as u32;
    low.to_le_bytes()
}

/// The elements of the executor's fields of a command that goes to a database without a write concern.
fn field_bytes(
    alloc: Global,
    session: Option<&[u8; 16]>,
    number: Option<i64>,
    database: &Text,
) -> Result<Bytes, AllocError>
    ensures sixteen { IsSixteen (option_copied session.entry) }
    ensures in_range { IfOk result (λ _. InRange number) }
    ensures utf8 { IfOk result (λ _. IsUtf8 database.now) }
    ensures fields { IfOk result (λ fields. fields ≡
        body_of (executor_fields (in_context (option_copied session.entry) number None) database.now)) }
{
    let room = session_room(session).saturating_add(database.len());
    let mut out = Bytes::with_capacity(alloc, room)?;
    push_session(&mut out, session)?;
    push_number(&mut out, number)?;
    push_database(&mut out, database)?;
    Ok(out)
}

/// How many bytes the fields take at most, beside the name of the database.
fn session_room(session: Option<&[u8; 16]>) -> usize
    ensures { IsSixteen (option_copied session.entry) }
{
    match session {
        None => 29,
        Some(id) => id_room(id),
    }
}

/// The same under a session.
fn id_room(id: &[u8; 16]) -> usize
    ensures { length id.now ≡ 16 }
{
    id.len() + 49
}

/// Appends the element that names a session, if there is one.
#[tactic(auto, unfolding(driver_ops::specs::Fields::session_field))]
fn push_session(out: &mut Bytes, session: Option<&[u8; 16]>) -> Result<(), AllocError>
    ensures { OnOk result (out.new ≡ out.old ++ body_of (session_field (option_copied session.entry))) }
{
    match session {
        None => Ok(()),
        Some(id) => push_id(out, id),
    }
}

/// Appends the element that names a session: its key, a document of one key, and in that the sixteen bytes of a UUID.
fn push_id(out: &mut Bytes, id: &[u8; 16]) -> Result<(), AllocError>
    ensures { OnOk result (out.new ≡ out.old ++ body_of (session_field (Some id.now))) }
{
    out.extend_from_slice(b"\x03lsid\0\x1e\0\0\0\x05id\0\x10\0\0\0\x04")?;
    out.extend_from_slice(id)?;
    out.push(0)?;
    Ok(())
}

/// Appends the element of the transaction number, if there is one.
#[tactic(auto, unfolding(driver_ops::specs::Fields::number_field))]
fn push_number(out: &mut Bytes, number: Option<i64>) -> Result<(), AllocError>
    ensures in_range { InRange number }
    ensures field { OnOk result (out.new ≡ out.old ++ body_of (number_field number)) }
{
    match number {
        None => Ok(()),
        Some(number) => push_int(out, number),
    }
}

/// Appends the element of a transaction number.
fn push_int(out: &mut Bytes, number: i64) -> Result<(), AllocError>
    ensures in_range { fits 0x8000_0000_0000_0000 number ≡ true }
    ensures field { OnOk result (out.new ≡ out.old ++ body_of (number_field (Some number))) }
{
    out.extend_from_slice(b"\x12txnNumber\0")?;
    out.extend_from_slice(&number_bytes(number))?;
    Ok(())
}

/// A number in its 64 bits.
fn number_bytes(number: i64) -> [u8; 8]
    ensures { result ≡ eight (cast_unsigned w64 number) }
{
    number.to_le_bytes()
}

/// Appends the element that names the database.
fn push_database(out: &mut Bytes, database: &Text) -> Result<(), AllocError>
    ensures utf8 { IsUtf8 database.now }
    ensures field { OnOk result (out.new ≡ out.old ++ body_of (database_field database.now)) }
{
    let name = database.as_str();
    push_name(out, name.as_bytes())
}

/// Appends the element of a database with a name in these bytes.
fn push_name(out: &mut Bytes, name: &[u8]) -> Result<(), AllocError>
    ensures { OnOk result (out.new ≡ out.old ++ body_of (database_field name.now)) }
{
    out.extend_from_slice(b"\x02$db\0")?;
    push_counted(out, name)?;
    Ok(())
}

/// Appends a text in these bytes, with its length before it and a zero byte behind it.
fn push_counted(out: &mut Bytes, text: &[u8]) -> Result<(), AllocError>
    ensures { OnOk result (out.new ≡ out.old ++ counted text.now) }
{
    out.extend_from_slice(&count_bytes(text.len() + 1))?;
    out.extend_from_slice(text)?;
    out.push(0)?;
    Ok(())
}
