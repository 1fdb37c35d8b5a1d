//! Numbers, texts, namespaces, values and documents as things that JSON is read as, each by its reader.
ghost use Rattle.script_parts.specs.Values.{code_of, count_of, document_of, namespace_of, pair_of, small_of, text_of, value_of, whole_of};

use crate::from_json::FromJson;
use bson_lite::{Bson, Document, Key, Namespace, Pair, Text};
use script_parts::forms::Unread;
use script_parts::leaves::{code, count, small, whole};
use script_parts::namespaces::{read_key, read_namespace, read_text};
use script_parts::tree::Json;
use script_parts::values::{read_document, read_pair, read_value};
use std::alloc::Global;

impl FromJson for u32 {
    ghost spec = { small_of };

    fn read(_alloc: Global, value: &Json<'_, '_>) -> Result<u32, Unread> {
        small(value)
    }
}

impl FromJson for u64 {
    ghost spec = { count_of };

    fn read(_alloc: Global, value: &Json<'_, '_>) -> Result<u64, Unread> {
        count(value)
    }
}

impl FromJson for i64 {
    ghost spec = { whole_of };

    fn read(_alloc: Global, value: &Json<'_, '_>) -> Result<i64, Unread> {
        whole(value)
    }
}

impl FromJson for i32 {
    ghost spec = { code_of };

    fn read(_alloc: Global, value: &Json<'_, '_>) -> Result<i32, Unread> {
        code(value)
    }
}

impl FromJson for Text {
    ghost spec = { text_of };

    fn read(alloc: Global, value: &Json<'_, '_>) -> Result<Text, Unread> {
        read_text(alloc, value)
    }
}

impl FromJson for Key {
    ghost spec = { text_of };

    fn read(alloc: Global, value: &Json<'_, '_>) -> Result<Key, Unread> {
        read_key(alloc, value)
    }
}

impl FromJson for Namespace {
    ghost spec = { namespace_of };

    fn read(alloc: Global, value: &Json<'_, '_>) -> Result<Namespace, Unread> {
        read_namespace(alloc, value)
    }
}

impl FromJson for Bson {
    ghost spec = { value_of };

    fn read(alloc: Global, value: &Json<'_, '_>) -> Result<Bson, Unread> {
        read_value(alloc, value)
    }
}

impl FromJson for Pair<Bson> {
    ghost spec = { pair_of };

    fn read(alloc: Global, value: &Json<'_, '_>) -> Result<Pair<Bson>, Unread> {
        read_pair(alloc, value)
    }
}

impl FromJson for Document {
    ghost spec = { document_of };

    fn read(alloc: Global, value: &Json<'_, '_>) -> Result<Document, Unread> {
        read_document(alloc, value)
    }
}
