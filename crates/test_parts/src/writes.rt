//! Single writes as rows spell them: to `items`, of what the filter `{x: 1}` finds, with small documents where a
//! row asks for no others.
use crate::finds::{find_and_delete, find_and_replace, find_and_update};
use bson_lite::{Boxed, Bson, Document, List, Namespace, Text};
use driver_inputs::{DeleteWrite, InsertWrite, ReplaceWrite, SingleWrite, UpdateWrite};
use driver_options::{
    Acknowledgment, DeleteOptions, Hint, InsertManyOptions, UpdateModifications, UpdateOptions,
    WriteConcern,
};
use std::alloc::{AllocError, Global};

/// The nine kinds of single writes.
#[derive(Clone, Copy, Debug, PartialEq, Eq)]
pub enum Kind {
    InsertOne,
    UpdateOne,
    UpdateMany,
    ReplaceOne,
    DeleteOne,
    DeleteMany,
    FindOneAndDelete,
    FindOneAndUpdate,
    FindOneAndReplace,
}

/// All of them.
pub const KINDS: &[Kind] = &[
    Kind::InsertOne,
    Kind::UpdateOne,
    Kind::UpdateMany,
    Kind::ReplaceOne,
    Kind::DeleteOne,
    Kind::DeleteMany,
    Kind::FindOneAndDelete,
    Kind::FindOneAndUpdate,
    Kind::FindOneAndReplace,
];

/// A part of a write that is a document of the caller's, or an option that is one.
#[derive(Clone, Copy, Debug, PartialEq, Eq)]
pub enum Part {
    Filter,
    /// The update, the replacement, or the inserted document.
    Change,
    /// The second document of a pipeline.
    Stage,
    /// The second filter of arrays.
    ArrayFilter,
    HintKeys,
    Collation,
    Let,
    Comment,
    Sort,
    Projection,
}

/// What is odd about a document.
#[derive(Clone, Copy, Debug)]
pub enum Flaw {
    /// It nests so many levels, itself counting one.
    Levels(usize),
    /// A key in a document in it holds a zero byte.
    ZeroByte,
}

/// What an update does, or what is put in the place of a document.
#[derive(Clone, Copy, Debug)]
pub enum Change {
    /// `{$set: {y: 2}}`
    Operators,
    /// `{y: 2}`
    Plain,
    /// `{y: 2, $set: 1}`
    LateOperator,
    Empty,
    /// The stages `{y: 2}` and `{x: 1}`.
    Pipeline,
    NoStages,
}

/// A part that is odd.
#[derive(Clone, Copy, Debug)]
pub struct Odd {
    pub part: Part,
    pub flaw: Flaw,
}

/// A concern of a write or of its client.
#[derive(Clone, Copy, Debug)]
pub enum Concern {
    Unset,
    /// One without a field.
    Bare,
    Nodes(u32),
}

/// A write that a row asks for: whether its database is `a.b` and not `shop`, and which parts of it are odd.
#[derive(Clone, Copy, Debug)]
pub struct Asked {
    pub kind: Kind,
    pub dotted: bool,
    pub change: Change,
    pub odd: Option<Odd>,
    pub also: Option<Odd>,
}

/// A concern as a write or a client has it.
pub fn write_concern(concern: Concern) -> Option<WriteConcern> {
    let w = match concern {
        Concern::Unset => return None,
        Concern::Bare => None,
        Concern::Nodes(nodes) => Some(Acknowledgment::Nodes(nodes)),
    };
    Some(WriteConcern {
        w,
        w_timeout: None,
        journal: None,
    })
}

/// The usual write of a kind.
pub fn usual(kind: Kind) -> Asked {
    let change = match kind {
        Kind::UpdateOne | Kind::UpdateMany | Kind::FindOneAndUpdate => Change::Operators,
        _ => Change::Plain,
    };
    Asked {
        kind,
        dotted: false,
        change,
        odd: None,
        also: None,
    }
}

/// A document of one number.
pub fn number(alloc: Global, key: &str, number: i32) -> Result<Document, AllocError> {
    let mut document = Document::new(alloc);
    document.push(key, Bson::Int32(number))?;
    Ok(document)
}

/// A document of one text.
pub fn text(alloc: Global, key: &str, text: &str) -> Result<Document, AllocError> {
    let text = Text::from_str(alloc, text)?;
    let mut document = Document::new(alloc);
    document.push(key, Bson::String(text))?;
    Ok(document)
}

/// A document of one document.
fn around(alloc: Global, key: &str, inner: Document) -> Result<Document, AllocError> {
    let mut document = Document::new(alloc);
    document.push(key, Bson::Document(inner))?;
    Ok(document)
}

/// The operator `$set`.
pub fn operators(alloc: Global, set: Document) -> Result<Document, AllocError> {
    around(alloc, "$set", set)
}

/// Two documents as a list.
pub fn two(alloc: Global, first: Document, second: Document) -> Result<List<Document>, AllocError> {
    let mut list = List::with_capacity(alloc, 2)?;
    list.push(first)?;
    list.push(second)?;
    Ok(list)
}

/// A document that nests so many levels.
fn nested(alloc: Global, levels: usize) -> Result<Document, AllocError> {
    let mut document = number(alloc, "x", 1)?;
    for _ in 1..levels {
        document = around(alloc, "d", document)?;
    }
    Ok(document)
}

/// A document with this flaw.
pub fn flawed(alloc: Global, flaw: Flaw) -> Result<Document, AllocError> {
    match flaw {
        Flaw::Levels(levels) => nested(alloc, levels),
        Flaw::ZeroByte => around(alloc, "x", number(alloc, "a\0b", 1)?),
    }
}

/// The flaw that this is for a part.
fn flaw_in(odd: Option<Odd>, part: Part) -> Option<Flaw> {
    match odd {
        Some(odd) if odd.part == part => Some(odd.flaw),
        _ => None,
    }
}

/// The flaw of a part, where it has one.
fn flaw_of(asked: Asked, part: Part) -> Option<Flaw> {
    match flaw_in(asked.odd, part) {
        Some(flaw) => Some(flaw),
        None => flaw_in(asked.also, part),
    }
}

/// The document of a part, which is `{key: value}` where it is not odd.
pub(crate) fn document_at(
    alloc: Global,
    asked: Asked,
    part: Part,
    key: &str,
    value: i32,
) -> Result<Document, AllocError> {
    match flaw_of(asked, part) {
        Some(flaw) => flawed(alloc, flaw),
        None => number(alloc, key, value),
    }
}

/// The document of an option, which is not set where it is not odd.
pub(crate) fn option_at(
    alloc: Global,
    asked: Asked,
    part: Part,
) -> Result<Option<Document>, AllocError> {
    match flaw_of(asked, part) {
        Some(flaw) => Ok(Some(flawed(alloc, flaw)?)),
        None => Ok(None),
    }
}

/// The filters of arrays, which are not set where the second is not odd.
pub(crate) fn array_filters(
    alloc: Global,
    asked: Asked,
) -> Result<Option<List<Document>>, AllocError> {
    match option_at(alloc, asked, Part::ArrayFilter)? {
        Some(second) => Ok(Some(two(alloc, number(alloc, "x", 1)?, second)?)),
        None => Ok(None),
    }
}

/// The hint by keys, which is not set where they are not odd.
fn hint_keys(alloc: Global, asked: Asked) -> Result<Option<Hint>, AllocError> {
    match option_at(alloc, asked, Part::HintKeys)? {
        Some(keys) => Ok(Some(Hint::Keys(keys))),
        None => Ok(None),
    }
}

/// The comment, which is not set where it is not odd.
fn comment(alloc: Global, asked: Asked) -> Result<Option<Bson>, AllocError> {
    match option_at(alloc, asked, Part::Comment)? {
        Some(document) => Ok(Some(Bson::Document(document))),
        None => Ok(None),
    }
}

/// The collection in a database.
pub fn namespace(alloc: Global, db: &str) -> Result<Namespace, AllocError> {
    Ok(Namespace {
        db: Text::from_str(alloc, db)?,
        coll: Text::from_str(alloc, "items")?,
    })
}

/// The database that a row asks for.
pub(crate) fn database(asked: Asked) -> &'static str {
    if asked.dotted { "a.b" } else { "shop" }
}

/// What `$set` sets: it nests one level less than what stands around it.
fn set_by(alloc: Global, asked: Asked) -> Result<Document, AllocError> {
    match flaw_of(asked, Part::Change) {
        Some(Flaw::Levels(levels)) => nested(alloc, levels.saturating_sub(1)),
        Some(Flaw::ZeroByte) => number(alloc, "a\0b", 1),
        None => number(alloc, "y", 2),
    }
}

/// The one document of a change.
pub(crate) fn change_document(alloc: Global, asked: Asked) -> Result<Document, AllocError> {
    match asked.change {
        Change::Operators => operators(alloc, set_by(alloc, asked)?),
        Change::LateOperator => {
            let mut document = number(alloc, "y", 2)?;
            document.push("$set", Bson::Int32(1))?;
            Ok(document)
        }
        Change::Empty => Ok(Document::new(alloc)),
        _ => document_at(alloc, asked, Part::Change, "y", 2),
    }
}

/// What an update does.
pub(crate) fn modifications(
    alloc: Global,
    asked: Asked,
) -> Result<UpdateModifications, AllocError> {
    match asked.change {
        Change::Pipeline => {
            let first = number(alloc, "y", 2)?;
            let second = document_at(alloc, asked, Part::Stage, "x", 1)?;
            Ok(UpdateModifications::Pipeline(two(alloc, first, second)?))
        }
        Change::NoStages => Ok(UpdateModifications::Pipeline(List::new(alloc))),
        _ => Ok(UpdateModifications::Document(change_document(alloc, asked)?)),
    }
}

/// The options that updates, deletes and the writes that answer a document share.
#[derive(Drop)]
pub(crate) struct Shared {
    pub(crate) collation: Option<Document>,
    pub(crate) let_vars: Option<Document>,
    pub(crate) hint: Option<Hint>,
    pub(crate) comment: Option<Bson>,
}

/// Those that a row asks for. They are made apart, since each option that is there lengthens the proof of what may
/// still fail.
pub(crate) fn shared_options(alloc: Global, asked: Asked) -> Result<Shared, AllocError> {
    Ok(Shared {
        collation: option_at(alloc, asked, Part::Collation)?,
        let_vars: option_at(alloc, asked, Part::Let)?,
        hint: hint_keys(alloc, asked)?,
        comment: comment(alloc, asked)?,
    })
}

/// The options of an update.
fn update_options(alloc: Global, asked: Asked, own: Concern) -> Result<UpdateOptions, AllocError> {
    let array_filters = array_filters(alloc, asked)?;
    let sort = option_at(alloc, asked, Part::Sort)?;
    let Shared {
        collation,
        let_vars,
        hint,
        comment,
    } = shared_options(alloc, asked)?;
    Ok(UpdateOptions {
        upsert: None,
        array_filters,
        hint,
        collation,
        bypass_document_validation: None,
        let_vars,
        comment,
        sort,
        write_concern: write_concern(own),
    })
}

/// An insert with a concern of its own.
fn insert(alloc: Global, asked: Asked, own: Concern) -> Result<SingleWrite, AllocError> {
    Ok(SingleWrite::InsertOne(InsertWrite {
        namespace: namespace(alloc, database(asked))?,
        document: change_document(alloc, asked)?,
        options: InsertManyOptions {
            ordered: None,
            bypass_document_validation: None,
            comment: comment(alloc, asked)?,
            write_concern: write_concern(own),
        },
    }))
}

/// An update of one or of all.
fn update(alloc: Global, asked: Asked, own: Concern) -> Result<SingleWrite, AllocError> {
    let namespace = namespace(alloc, database(asked))?;
    let filter = document_at(alloc, asked, Part::Filter, "x", 1)?;
    let update = modifications(alloc, asked)?;
    let options = Boxed::new(alloc, update_options(alloc, asked, own)?)?;
    let update = UpdateWrite {
        namespace,
        filter,
        update,
        options,
    };
    Ok(match asked.kind {
        Kind::UpdateMany => SingleWrite::UpdateMany(update),
        _ => SingleWrite::UpdateOne(update),
    })
}

/// A replacement.
fn replace(alloc: Global, asked: Asked, own: Concern) -> Result<SingleWrite, AllocError> {
    Ok(SingleWrite::ReplaceOne(ReplaceWrite {
        namespace: namespace(alloc, database(asked))?,
        filter: document_at(alloc, asked, Part::Filter, "x", 1)?,
        replacement: change_document(alloc, asked)?,
        options: Boxed::new(alloc, update_options(alloc, asked, own)?)?,
    }))
}

/// The options of a delete.
fn delete_options(alloc: Global, asked: Asked, own: Concern) -> Result<DeleteOptions, AllocError> {
    let Shared {
        collation,
        let_vars,
        hint,
        comment,
    } = shared_options(alloc, asked)?;
    Ok(DeleteOptions {
        collation,
        hint,
        let_vars,
        comment,
        write_concern: write_concern(own),
    })
}

/// A delete of one or of all.
fn delete(alloc: Global, asked: Asked, own: Concern) -> Result<SingleWrite, AllocError> {
    let namespace = namespace(alloc, database(asked))?;
    let filter = document_at(alloc, asked, Part::Filter, "x", 1)?;
    let options = Boxed::new(alloc, delete_options(alloc, asked, own)?)?;
    let delete = DeleteWrite {
        namespace,
        filter,
        options,
    };
    Ok(match asked.kind {
        Kind::DeleteMany => SingleWrite::DeleteMany(delete),
        _ => SingleWrite::DeleteOne(delete),
    })
}

/// The write that a row asks for, with a concern of its own.
pub fn write_of(alloc: Global, asked: Asked, own: Concern) -> Result<SingleWrite, AllocError> {
    match asked.kind {
        Kind::InsertOne => insert(alloc, asked, own),
        Kind::UpdateOne | Kind::UpdateMany => update(alloc, asked, own),
        Kind::ReplaceOne => replace(alloc, asked, own),
        Kind::DeleteOne | Kind::DeleteMany => delete(alloc, asked, own),
        Kind::FindOneAndDelete => find_and_delete(alloc, asked, own),
        Kind::FindOneAndUpdate => find_and_update(alloc, asked, own),
        Kind::FindOneAndReplace => find_and_replace(alloc, asked, own),
    }
}
