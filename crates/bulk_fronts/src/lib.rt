//! The ops of a bulk write's models, in bytes, and the fronts of them that go out in one command.
#![tactic(auto)]

mod bulk_front;
mod insert_spelling;
mod own_op;

pub use bulk_front::{
    OpFront, Taken, fixed_count, has_multi, is_numbered, old_server, oversized_op, past_numbers,
    serves_bulk, take_ops,
};
pub use own_op::{OpWork, OwnOp, SizedOp, insert_op, insert_op_with_id, model_op, op_document};
