//! The three samples: documents whose spellings have 10,005 bytes, 397 bytes, and 10,000 times 52 bytes.
use bson_lite::{Bson, Document, ObjectId, Text};
use std::alloc::{AllocError, Global};
use std::fmt::Write;

/// How many fields the flat document has.
const FIELDS: u32 = 1000;

/// How deep the nested document is, itself counting 1.
const LEVELS: u32 = 50;

/// How many small documents there are.
const COUNT: u32 = 10_000;

/// Documents that are worked on one after the other.
#[derive(Clone, Copy)]
pub enum Sample {
    /// One document of 1,000 `Int32` under keys of four characters.
    Flat,
    /// One document that holds one that holds one, 50 deep.
    Nested,
    /// 10,000 documents of an object id, an `Int32` and a text of 12 characters.
    Small,
}

impl Sample {
    /// The sample with this name.
    pub fn named(word: &str) -> Option<Sample> {
        match word {
            "flat" => Some(Sample::Flat),
            "nested" => Some(Sample::Nested),
            "small" => Some(Sample::Small),
            _ => None,
        }
    }

    /// Its documents.
    pub fn documents(self, alloc: Global) -> Result<Vec<Document>, AllocError> {
        match self {
            Sample::Flat => alone(alloc, flat(alloc)?),
            Sample::Nested => alone(alloc, nested(alloc)?),
            Sample::Small => all_small(alloc),
        }
    }
}

fn alone(alloc: Global, document: Document) -> Result<Vec<Document>, AllocError> {
    let mut documents = Vec::with_capacity(alloc, 1)?;
    documents.push(document)?;
    Ok(documents)
}

fn flat(alloc: Global) -> Result<Document, AllocError> {
    let mut document = Document::new(alloc);
    for number in 0..FIELDS {
        let key = format!(in alloc; "f{number:03}")?;
        document.push(&key, Bson::Int32(number.cast_signed()))?;
    }
    Ok(document)
}

fn nested(alloc: Global) -> Result<Document, AllocError> {
    let mut document = Document::new(alloc);
    for _ in 1..LEVELS {
        let mut outer = Document::new(alloc);
        outer.push("d", Bson::Document(document))?;
        document = outer;
    }
    Ok(document)
}

fn all_small(alloc: Global) -> Result<Vec<Document>, AllocError> {
    let mut documents = Vec::with_capacity(alloc, COUNT as usize)?;
    for number in 0..COUNT {
        documents.push(small(alloc, number)?)?;
    }
    Ok(documents)
}

fn small(alloc: Global, number: u32) -> Result<Document, AllocError> {
    let [a, b, c, d] = number.to_be_bytes();
    let id = ObjectId {
        bytes: [0, 1, 2, 3, 4, 5, 6, 7, a, b, c, d],
    };
    let name = format!(in alloc; "name-{number:07}")?;
    let mut document = Document::new(alloc);
    document.push("_id", Bson::ObjectId(id))?;
    document.push("n", Bson::Int32(number.cast_signed()))?;
    document.push("name", Bson::String(Text::from_string(name)))?;
    Ok(document)
}
