//! The body of an insert without options, as it goes out under a session and a number: told by its bytes, of which no
//! document is made.
ghost use Rattle.std.specs.Prelude.{◌≡◌, ◌++◌, ◌∷◌, [], true, bytes_eq, length, IfOk, IfSome, OnOk, if◌then◌else◌};
ghost use Rattle.std.specs.Int.{w64, cast_unsigned};
ghost use Rattle.std.specs.Str.{IsUtf8};
ghost use Rattle.bson_lite.specs.Ranges.{fits};
ghost use Rattle.bson_lite.specs.Spelling.{body_of, counted, eight, four};
ghost use Rattle.frame_reading.specs.inside.PlainInserts.{IsSound, ReadsPlain, collection_field, database_field, number_field, order_field, plain_body, session_field};

use bson_lite::{Bytes, Namespace, Text};
use std::alloc::{AllocError, Global};
use wire_keys::keys::INSERT;

/// What the body of such an insert says.
#[derive(Drop)]
pub(crate) struct PlainInsert {
    pub(crate) namespace: Namespace,
    pub(crate) ordered: bool,
    pub(crate) session: [u8; 16],
    pub(crate) number: i64,
}

/// What a body in these bytes says, where it is that of such an insert into a collection of a database.
pub(crate) fn plain_insert(
    alloc: Global,
    database: &str,
    body: &[u8],
) -> Result<Option<PlainInsert>, AllocError>
    ensures { IfOk result (λ found. ReadsPlain database.now body.now found) }
{
    let guess = guessed(alloc, database, body)?;
    match guess {
        Some(plain) => confirmed(alloc, body, plain),
        None => Ok(None),
    }
}

/// The same of a guess, where the bytes are those of what it says.
fn confirmed(
    alloc: Global,
    body: &[u8],
    plain: PlainInsert,
) -> Result<Option<PlainInsert>, AllocError>
    requires { fits 0x8000_0000_0000_0000 plain.number ≡ true }
    ensures { IfOk result (λ found. ReadsPlain plain.namespace.db body.now found) }
{
    let bytes = plain_bytes(alloc, &plain, body.len())?;
    if is_same(&bytes, body) {
        return Ok(Some(plain));
    }
    Ok(None)
}

/// Whether bytes are these.
fn is_same(bytes: &Bytes, body: &[u8]) -> bool
    ensures { result ≡ bytes_eq bytes.now body.now }
{
    bytes.as_slice() == body
}

/// What a body would say if it were that of such an insert into a collection of a database.
fn guessed(alloc: Global, database: &str, body: &[u8]) -> Result<Option<PlainInsert>, AllocError>
    ensures names { IfOk result (λ found. IfSome found (λ plain. plain.namespace.db ≡ database.now)) }
    ensures in_range { IfOk result
        (λ found. IfSome found (λ plain. fits 0x8000_0000_0000_0000 plain.number ≡ true)) }
{
    match parts_of(body) {
        None => Ok(None),
        Some(parts) => {
            let db = Text::from_str(alloc, database)?;
            let coll = Text::from_str(alloc, parts.collection)?;
            Ok(Some(PlainInsert {
                namespace: Namespace { db, coll },
                ordered: parts.ordered,
                session: parts.session,
                number: parts.number,
            }))
        }
    }
}

/// Parts of a body by the places where they would stand.
#[derive(Clone, Copy)]
struct Parts<'a> {
    collection: &'a str,
    ordered: bool,
    session: [u8; 16],
    number: i64,
}

/// The parts of a body that begins as that of an insert.
fn parts_of(body: &[u8]) -> Option<Parts<'_>>
    ensures { IfSome result (λ parts. fits 0x8000_0000_0000_0000 parts.number ≡ true) }
{
    if body.get(5..11)? != INSERT.as_bytes() {
        return None;
    }
    let (collection, rest) = collection_behind(body.get(12..)?)?;
    let ordered = *rest.get(10)? != 0;
    let (session, rest) = rest.get(30..)?.split_first_chunk::<16>()?;
    let number = rest.get(12..)?.first_chunk::<8>()?;
    Some(Parts {
        collection,
        ordered,
        session: *session,
        number: number_in(*number),
    })
}

/// A number in these 64 bits.
fn number_in(bytes: [u8; 8]) -> i64
    ensures { fits 0x8000_0000_0000_0000 result ≡ true }
{
    i64::from_le_bytes(bytes)
}

/// A text with its length before it, and what stands behind its last letter.
fn collection_behind(bytes: &[u8]) -> Option<(&str, &[u8])> {
    let (count, rest) = bytes.split_first_chunk::<4>()?;
    let count = (u32::from_le_bytes(*count) as usize).checked_sub(1)?;
    let (text, rest) = rest.split_at_checked(count)?;
    match str::from_utf8(text) {
        Ok(text) => Some((text, rest)),
        Err(_) => None,
    }
}

/// The body of such an insert in so many bytes.
fn plain_bytes(alloc: Global, plain: &PlainInsert, count: usize) -> Result<Bytes, AllocError>
    requires { fits 0x8000_0000_0000_0000 plain.now.number ≡ true }
    ensures bytes { IfOk result
        (λ bytes. bytes ≡ four count ++ (body_of (plain_body plain.now) ++ 0 ∷ [])) }
    ensures sound { IfOk result (λ _. IsSound plain.now) }
{
    let mut out = Bytes::with_capacity(alloc, count)?;
    out.extend_from_slice(&count_bytes(count))?;
    push_fields(&mut out, plain)?;
    out.push(0)?;
    Ok(out)
}

/// Appends the elements of such a body.
fn push_fields(out: &mut Bytes, plain: &PlainInsert) -> Result<(), AllocError>
    requires { fits 0x8000_0000_0000_0000 plain.now.number ≡ true }
    ensures fields { OnOk result (out.new ≡ out.old ++ body_of (plain_body plain.now)) }
    ensures sound { OnOk result (IsSound plain.now) }
{
    push_collection(out, &plain.namespace.coll)?;
    push_order(out, plain.ordered)?;
    push_session(out, &plain.session)?;
    push_number(out, plain.number)?;
    push_database(out, &plain.namespace.db)?;
    Ok(())
}

/// Appends the element that names a collection.
fn push_collection(out: &mut Bytes, collection: &Text) -> Result<(), AllocError>
    ensures utf8 { IsUtf8 collection.now }
    ensures field { OnOk result (out.new ≡ out.old ++ body_of (collection_field collection.now)) }
{
    let name = collection.as_str();
    push_insert(out, name.as_bytes())
}

/// Appends the element of an insert into a collection with a name in these bytes.
fn push_insert(out: &mut Bytes, name: &[u8]) -> Result<(), AllocError>
    ensures { OnOk result (out.new ≡ out.old ++ body_of (collection_field name.now)) }
{
    out.extend_from_slice(b"\x02insert\0")?;
    push_counted(out, name)?;
    Ok(())
}

/// Appends the element that says whether the insert is ordered.
fn push_order(out: &mut Bytes, ordered: bool) -> Result<(), AllocError>
    ensures { OnOk result (out.new ≡ out.old ++ body_of (order_field ordered)) }
{
    out.extend_from_slice(b"\x08ordered\0")?;
    out.push(flag_byte(ordered))?;
    Ok(())
}

/// A flag as a byte.
fn flag_byte(flag: bool) -> u8
    ensures { result ≡ (if flag then 1 else 0) }
{
    if flag { 1 } else { 0 }
}

/// Appends the element that names a session: its key, a document of one key, and in that the sixteen bytes of a UUID.
fn push_session(out: &mut Bytes, id: &[u8; 16]) -> Result<(), AllocError>
    ensures sixteen { length id.now ≡ 16 }
    ensures field { OnOk result (out.new ≡ out.old ++ body_of (session_field id.now)) }
{
    out.extend_from_slice(b"\x03lsid\0\x1e\0\0\0\x05id\0\x10\0\0\0\x04")?;
    out.extend_from_slice(id)?;
    out.push(0)?;
    Ok(())
}

/// Appends the element of a transaction number.
fn push_number(out: &mut Bytes, number: i64) -> Result<(), AllocError>
    ensures { OnOk result (out.new ≡ out.old ++ body_of (number_field number)) }
{
    out.extend_from_slice(b"\x12txnNumber\0")?;
    out.extend_from_slice(&number_bytes(number))?;
    Ok(())
}

/// A number in its 64 bits.
fn number_bytes(number: i64) -> [u8; 8]
    ensures { result ≡ eight (cast_unsigned w64 number) }
{
    number.to_le_bytes()
}

/// Appends the element that names a database.
fn push_database(out: &mut Bytes, database: &Text) -> Result<(), AllocError>
    ensures utf8 { IsUtf8 database.now }
    ensures field { OnOk result (out.new ≡ out.old ++ body_of (database_field database.now)) }
{
    let name = database.as_str();
    push_name(out, name.as_bytes())
}

/// Appends the element of a database with a name in these bytes.
fn push_name(out: &mut Bytes, name: &[u8]) -> Result<(), AllocError>
    ensures { OnOk result (out.new ≡ out.old ++ body_of (database_field name.now)) }
{
    out.extend_from_slice(b"\x02$db\0")?;
    push_counted(out, name)?;
    Ok(())
}

/// Appends a text in these bytes, with its length before it and a zero byte behind it.
fn push_counted(out: &mut Bytes, text: &[u8]) -> Result<(), AllocError>
    ensures { OnOk result (out.new ≡ out.old ++ counted text.now) }
{
    out.extend_from_slice(&count_bytes(text.len() + 1))?;
    out.extend_from_slice(text)?;
    out.push(0)?;
    Ok(())
}

/// A length, of which the format keeps 32 bits.
fn count_bytes(count: usize) -> [u8; 4]
    ensures { result ≡ four count }
{
    let low = (count % 0x1_0000_0000) as u32;
    low.to_le_bytes()
}
