//! What a driver's user gives: calls as plain data, and what of them is refused before anything is drawn or asked.
#![tactic(auto)]

pub mod bulk_refusal;
pub mod call;
mod faults;
pub mod many_refusal;
mod model_faults;
mod refusal;
pub mod single_write;
pub mod to_document;

pub use call::{Answer, Call, Outcome, SingleAnswer};
pub use refusal::{delete_refusal, find_refusal, insert_refusal, update_refusal};
pub use single_write::{
    DeleteWrite, FindAndDelete, FindAndReplace, FindAndUpdate, InsertWrite, ReplaceWrite,
    SingleWrite, UpdateWrite,
};
pub use to_document::ToDocument;
