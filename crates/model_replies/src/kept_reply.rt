//! A reply until it is spelled: a document, or the number alone that a plain write is answered with, of which no
//! document is made.
ghost use Rattle.std.specs.Prelude.{◌≡◌, IfOk};
ghost use Rattle.std.specs.Int.{w32, cast_unsigned};
ghost use Rattle.bson_lite.specs.Spelling.{Spells, four};
ghost use Rattle.model_replies.specs.KeptReplies.{counted_reply};

use bson_lite::{Bytes, Document, encode};
use std::alloc::{AllocError, Global};
use std::marker::Model;

/// How many bytes the reply has that is kept as a number.
const COUNTED_LEN: usize = 20;

/// How a reply is kept.
#[derive(Drop)]
pub(crate) enum Form {
    /// As its document.
    Whole(Document),
    /// By the one number that is in it beside its first field.
    Counted(i32),
}

/// A reply, seen as its document.
pub struct Reply {
    form: Form,
}

impl Drop for Reply {
    fn drop(self) {
        let Reply { form } = self;
        drop(form);
    }
}

impl Model for Reply {
    ghost use Rattle.std.specs.Prelude.{List};
    ghost use Rattle.std.specs.Coded.{coded_list};
    ghost use Rattle.bson_lite.specs.declared.bson.Bson.{Bson};
    ghost use Rattle.bson_lite.specs.declared.document.Pair.{Pair};
    ghost use Rattle.bson_lite.specs.PairCode.{pair_code};
    ghost use Rattle.bson_lite.specs.contracts.bson.Bson as bson_contract;

    ghost Value = { List (Pair Bson) };

    ghost coded = { coded_list (pair_code bson_contract.the_row.coded) };

    ghost use Rattle.model_replies.specs.KeptReplies.{reply_in_form};

    ghost view = { λ reply. reply_in_form reply.form };
}

impl Reply {
    /// The reply of a document.
    pub fn whole(document: Document) -> Reply
        ensures { result ≡ document }
    {
        Reply {
            form: Form::Whole(document),
        }
    }

    /// The reply with a number alone beside its first field.
    pub fn counted(n: i32) -> Reply
        ensures { result ≡ counted_reply n }
    {
        Reply {
            form: Form::Counted(n),
        }
    }

    /// The bytes of the reply. One that is too long has no memory either.
    pub fn bytes(&self, alloc: Global) -> Result<Bytes, AllocError>
        ensures { IfOk result (λ bytes. Spells self.now bytes) }
    {
        match &self.form {
            Form::Whole(document) => document_bytes(alloc, document),
            Form::Counted(n) => counted_bytes(alloc, *n),
        }
    }
}

/// The bytes of a document. One that is too long has no memory either.
fn document_bytes(alloc: Global, document: &Document) -> Result<Bytes, AllocError>
    ensures { IfOk result (λ bytes. Spells document.now bytes) }
{
    match encode(alloc, document) {
        Ok(bytes) => Ok(bytes),
        Err(_) => Err(AllocError),
    }
}

/// The bytes of a reply with a number alone beside its first field.
fn counted_bytes(alloc: Global, n: i32) -> Result<Bytes, AllocError>
    ensures { IfOk result (λ bytes. Spells (counted_reply n) bytes) }
{
    let mut out = Bytes::with_capacity(alloc, COUNTED_LEN)?;
    out.extend_from_slice(b"\x14\0\0\0\x10ok\0\x01\0\0\0\x10n\0")?;
    out.extend_from_slice(&number_bytes(n))?;
    out.push(0)?;
    Ok(out)
}

/// A number in its 32 bits.
fn number_bytes(number: i32) -> [u8; 4]
    ensures { result ≡ four (cast_unsigned w32 number) }
{
    number.to_le_bytes()
}
