//! What is done in a round, and how much came out of it.
use crate::samples::Sample;
use bson_lite::{Bytes, DecodeFault, Document, EncodeFault, List, encode};
use bson_reading::decode;
use std::alloc::{AllocError, Global};

/// What is done with each document of a sample in a round.
#[derive(Clone, Copy)]
pub enum Work {
    /// Its bytes are made, and counted.
    Encode,
    /// It is made from its bytes, and its pairs are counted.
    Decode,
    /// Its bytes are copied, and counted.
    Copy,
}

/// Why a round ended early.
#[derive(Clone, Copy, Debug)]
pub enum Stopped {
    Encode(EncodeFault),
    Decode(DecodeFault),
}

impl From<AllocError> for Stopped {
    fn from(_refused: AllocError) -> Stopped {
        Stopped::Encode(EncodeFault::Memory)
    }
}

impl From<EncodeFault> for Stopped {
    fn from(fault: EncodeFault) -> Stopped {
        Stopped::Encode(fault)
    }
}

impl From<DecodeFault> for Stopped {
    fn from(fault: DecodeFault) -> Stopped {
        Stopped::Decode(fault)
    }
}

impl Work {
    /// The work with this name.
    pub fn named(word: &str) -> Option<Work> {
        match word {
            "encode" => Some(Work::Encode),
            "decode" => Some(Work::Decode),
            "copy" => Some(Work::Copy),
            _ => None,
        }
    }

    /// So many rounds over a sample, and the sum of what they counted.
    pub fn run(self, alloc: Global, sample: Sample, rounds: u64) -> Result<u64, Stopped> {
        let documents = sample.documents(alloc)?;
        let spellings = spellings_of(alloc, &documents)?;
        let mut sum = 0u64;
        for _ in 0..rounds {
            sum = sum.wrapping_add(self.round(alloc, &documents, spellings.as_slice())?);
        }
        Ok(sum)
    }

    fn round(
        self,
        alloc: Global,
        documents: &[Document],
        spellings: &[Bytes],
    ) -> Result<u64, Stopped> {
        match self {
            Work::Encode => encode_all(alloc, documents),
            Work::Decode => decode_all(alloc, spellings),
            Work::Copy => copy_all(alloc, spellings),
        }
    }
}

fn spellings_of(alloc: Global, documents: &[Document]) -> Result<List<Bytes>, Stopped> {
    let mut spellings = List::with_capacity(alloc, documents.len())?;
    for document in documents {
        spellings.push(encode(alloc, document)?)?;
    }
    Ok(spellings)
}

fn encode_all(alloc: Global, documents: &[Document]) -> Result<u64, Stopped> {
    let mut sum = 0u64;
    for document in documents {
        sum = sum.wrapping_add(encode(alloc, document)?.len() as u64);
    }
    Ok(sum)
}

fn decode_all(alloc: Global, spellings: &[Bytes]) -> Result<u64, Stopped> {
    let mut sum = 0u64;
    for bytes in spellings {
        sum = sum.wrapping_add(decode(alloc, bytes.as_slice())?.len() as u64);
    }
    Ok(sum)
}

fn copy_all(alloc: Global, spellings: &[Bytes]) -> Result<u64, Stopped> {
    let mut sum = 0u64;
    for bytes in spellings {
        sum = sum.wrapping_add(Bytes::from_slice(alloc, bytes.as_slice())?.len() as u64);
    }
    Ok(sum)
}
