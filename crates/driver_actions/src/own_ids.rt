//! The ids of the caller's documents: each its own, else the next object id to come, drawn once.
ghost use Rattle.std.specs.Prelude.{◌≡◌, IfErr, IfOk, IsSome, None, Some};
ghost use Rattle.bson_lite.specs.Fields.{id_key, value_of};
ghost use Rattle.bson_lite.specs.Spelling.{Spells};
ghost use Rattle.driver_session.specs.StoreTells.{MayDrawObjectId};
ghost use Rattle.driver_attempt.specs.Client.{options_of, store_of};
ghost use Rattle.driver_actions.specs.Causes.{TellsOwnRefusal};
ghost use Rattle.driver_actions.specs.ManyIds.{OwnsAll};
ghost use Rattle.driver_actions.specs.OwnIds.{Owns};
ghost use Rattle.driver_actions.specs.OwnDocuments.{DrawsFront, DrawsTwelve, IsSent, MayDrawTwelve, TellsOneRefusal};

use bson_lite::{Bson, Document, ID_KEY, List, TryClone};
use driver_attempt::Client;
use driver_error::{InsertOneResult, Result};
use driver_ops::{encode_document, encode_document_with_id};
use driver_session::SessionStore;
use std::alloc::Global;
use write_ops::OwnDocument;

/// A document as it is sent, and the answer that tells its id.
#[derive(Drop)]
pub(crate) struct AnsweredDocument {
    pub(crate) document: OwnDocument,
    pub(crate) answer: InsertOneResult,
}

/// The caller's documents as they are sent, each with its id. Ids are drawn in order for those that have none.
pub fn own_documents<S: SessionStore>(
    alloc: Global,
    client: &mut Client<S>,
    documents: &[Document],
) -> Result<List<OwnDocument>>
    ensures owns { IfOk result (λ own. OwnsAll (S.tells (store_of client.old)) (S.tells (store_of client.new))
        documents.now own) }
    ensures refusal { IfErr result (λ error. TellsOneRefusal documents.now error) }
    ensures draws { DrawsFront (S.tells (store_of client.old)) (S.tells (store_of client.new)) documents.now }
    ensures options { options_of client.new ≡ options_of client.old }
{
    let mut own = List::with_capacity(alloc, documents.len())?;
    for document in documents {
        let made = sent_document(alloc, client, document)?;
        own.push(made)?;
    }
    Ok(own)
}

/// A caller's document with an id, and the answer that tells it.
#[tactic(auto, using(crate::proofs::OwnIds::owns_answered))]
pub(crate) fn own_document<S: SessionStore>(
    alloc: Global,
    client: &mut Client<S>,
    document: &Document,
) -> Result<AnsweredDocument>
    ensures refusal { IfErr result (λ error. TellsOwnRefusal document.now error) }
    ensures owns { IfOk result (λ own. Owns (S.tells (store_of client.old)) (S.tells (store_of client.new))
        document.now own.document own.answer) }
    ensures draws { MayDrawObjectId (S.tells (store_of client.old)) (S.tells (store_of client.new)) }
    ensures unused { IsSome (value_of id_key document.now) →
        S.tells (store_of client.new) ≡ S.tells (store_of client.old) }
    ensures options { options_of client.new ≡ options_of client.old }
{
    let document = sent_document(alloc, client, document)?;
    let answer = InsertOneResult {
        inserted_id: document.id.try_clone(alloc)?,
    };
    Ok(AnsweredDocument { document, answer })
}

/// A caller's document as it is sent, with an id.
fn sent_document<S: SessionStore>(
    alloc: Global,
    client: &mut Client<S>,
    document: &Document,
) -> Result<OwnDocument>
    ensures refusal { IfErr result (λ error. TellsOwnRefusal document.now error) }
    ensures owns { IfOk result (λ own. IsSent (S.tells (store_of client.old)) (S.tells (store_of client.new))
        document.now own) }
    ensures draws { MayDrawObjectId (S.tells (store_of client.old)) (S.tells (store_of client.new)) }
    ensures drawn { MayDrawTwelve (S.tells (store_of client.old)) (S.tells (store_of client.new)) }
    ensures unused { IsSome (value_of id_key document.now) →
        S.tells (store_of client.new) ≡ S.tells (store_of client.old) }
    ensures options { options_of client.new ≡ options_of client.old }
{
    match document.get(ID_KEY) {
        Some(id) => sent_with_own_id(alloc, document, id),
        None => sent_with_new_id(alloc, client, document),
    }
}

/// A document that has this id, as it is sent: as it was given.
fn sent_with_own_id(alloc: Global, document: &Document, id: &Bson) -> Result<OwnDocument>
    requires has { Some id.now ≡ value_of id_key document.now }
    ensures refusal { IfErr result (λ error. TellsOwnRefusal document.now error) }
    ensures id { IfOk result (λ own. own.id ≡ id.now) }
    ensures spelled { IfOk result (λ own. Spells document.now own.bytes) }
{
    let bytes = encode_document(alloc, document)?;
    let id = id.try_clone(alloc)?;
    Ok(OwnDocument { bytes, id })
}

/// A document that has no id, as it is sent: behind a new one.
#[tactic(auto, using(crate::proofs::OwnIds::sent_drawn))]
fn sent_with_new_id<S: SessionStore>(
    alloc: Global,
    client: &mut Client<S>,
    document: &Document,
) -> Result<OwnDocument>
    requires has_none { value_of id_key document.now ≡ None }
    ensures refusal { IfErr result (λ error. TellsOwnRefusal document.now error) }
    ensures owns { IfOk result (λ own. IsSent (S.tells (store_of client.old)) (S.tells (store_of client.new))
        document.now own) }
    ensures drawn { DrawsTwelve (S.tells (store_of client.old)) (S.tells (store_of client.new)) }
    ensures options { options_of client.new ≡ options_of client.old }
{
    let id = client.object_id();
    let bytes = encode_document_with_id(alloc, document, &id)?;
    let id = Bson::ObjectId(id);
    Ok(OwnDocument { bytes, id })
}
