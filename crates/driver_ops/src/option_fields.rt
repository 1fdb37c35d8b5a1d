//! Fields of commands and statements that stand only where their option is set.
ghost use Rattle.std.specs.Prelude.{◌≡◌, ◌++◌, ◌∷◌, [], IfOk, OnErr, OnOk};
ghost use Rattle.bson_lite.specs.declared.bson.Bson as bson;
ghost use Rattle.driver_ops.specs.OptionFields.{document_in, documents_of, documents_value, flag_of, hint_of, hint_value, option_field, where_true};

use bson_lite::{Bson, Document, List, TryClone};
use driver_options::Hint;
use std::alloc::{AllocError, Global};

/// Appends a flag where it is set.
pub fn push_flag(document: &mut Document, key: &str, flag: Option<bool>) -> Result<(), AllocError>
    ensures ok { OnOk result (document.new ≡ document.old ++ option_field key.now (flag_of flag)) }
    ensures err { OnErr result (document.new ≡ document.old) }
{
    match flag {
        None => Ok(()),
        Some(flag) => document.push(key, Bson::Boolean(flag)),
    }
}

/// Appends a copy of a value where one is set.
pub fn push_value(
    alloc: Global,
    document: &mut Document,
    key: &str,
    value: &Option<Bson>,
) -> Result<(), AllocError>
    ensures ok { OnOk result (document.new ≡ document.old ++ option_field key.now value.now) }
    ensures err { OnErr result (document.new ≡ document.old) }
{
    match value {
        None => Ok(()),
        Some(value) => document.push(key, value.try_clone(alloc)?),
    }
}

/// Appends a copy of a document where one is set.
pub fn push_document(
    alloc: Global,
    document: &mut Document,
    key: &str,
    value: &Option<Document>,
) -> Result<(), AllocError>
    ensures ok { OnOk result (document.new ≡ document.old ++ option_field key.now (document_in value.now)) }
    ensures err { OnErr result (document.new ≡ document.old) }
{
    match value {
        None => Ok(()),
        Some(value) => document.push(key, Bson::Document(value.try_clone(alloc)?)),
    }
}

/// Appends copies of documents as an array, where they are set.
pub fn push_documents(
    alloc: Global,
    document: &mut Document,
    key: &str,
    documents: &Option<List<Document>>,
) -> Result<(), AllocError>
    ensures ok { OnOk result (document.new ≡ document.old ++ option_field key.now (documents_of documents.now)) }
    ensures err { OnErr result (document.new ≡ document.old) }
{
    match documents {
        None => Ok(()),
        Some(documents) => document.push(key, documents_value(alloc, documents.as_slice())?),
    }
}

/// Copies of documents as an array.
pub fn documents_value(alloc: Global, documents: &[Document]) -> Result<Bson, AllocError>
    ensures { IfOk result (λ value. value ≡ documents_value documents.now) }
{
    let mut values = List::new(alloc);
    for document in documents {
        values.push(Bson::Document(document.try_clone(alloc)?))?;
    }
    Ok(Bson::Array(values))
}

/// Appends a hint where it is set.
pub fn push_hint(
    alloc: Global,
    document: &mut Document,
    key: &str,
    hint: &Option<Hint>,
) -> Result<(), AllocError>
    ensures ok { OnOk result (document.new ≡ document.old ++ option_field key.now (hint_of hint.now)) }
    ensures err { OnErr result (document.new ≡ document.old) }
{
    match hint {
        None => Ok(()),
        Some(hint) => document.push(key, hint_value(alloc, hint)?),
    }
}

/// An index by its keys or its name.
fn hint_value(alloc: Global, hint: &Hint) -> Result<Bson, AllocError>
    ensures { IfOk result (λ value. value ≡ hint_value hint.now) }
{
    Ok(match hint {
        Hint::Keys(keys) => Bson::Document(keys.try_clone(alloc)?),
        Hint::Name(name) => Bson::String(name.try_clone(alloc)?),
    })
}

/// Appends a flag only where it is true.
pub fn push_where(document: &mut Document, key: &str, flag: bool) -> Result<(), AllocError>
    ensures ok { OnOk result (document.new ≡ document.old ++ option_field key.now (where_true flag)) }
    ensures err { OnErr result (document.new ≡ document.old) }
{
    if flag {
        document.push(key, Bson::Boolean(true))
    } else {
        Ok(())
    }
}

/// The one statement of a command, as an array.
pub fn one_statement(alloc: Global, statement: Document) -> Result<Bson, AllocError>
    ensures { IfOk result (λ value. value ≡ bson.Array (bson.Document statement ∷ [])) }
{
    let mut statements = List::new(alloc);
    statements.push(Bson::Document(statement))?;
    Ok(Bson::Array(statements))
}
