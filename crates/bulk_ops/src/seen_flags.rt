//! Flags of the ops of a batch: an op's flag is set once its result came.
ghost use Rattle.std.specs.Prelude.{◌≡◌, ◌<◌, ℕ, cond, nat_eq, not, true, IfOk, OnOk};
ghost use Rattle.std.specs.Vec.{vec_len};
ghost use Rattle.bulk_ops.specs.inside.SeenFlags.{flag_at};

use std::alloc::AllocError;

/// Whether the flag at an index is set.
pub(crate) fn is_set(flags: &Vec<bool>, index: usize) -> bool
    ensures { result ≡ flag_at flags.now.items index }
{
    match flags.get(index) {
        Some(flag) => *flag,
        None => false,
    }
}

/// Makes room for a flag of each of so many ops, where that of an op has none yet. No flag is set there.
fn make_room(flags: &mut Vec<bool>, index: usize, ops: usize) -> Result<(), AllocError>
    requires { index < ops }
    ensures room { OnOk result (index < vec_len flags.new) }
    ensures none { OnOk result ((at : ℕ) → flag_at flags.new.items at ≡ flag_at flags.old.items at) }
{
    if index >= flags.len() {
        flags.resize(ops, false)?;
    }
    Ok(())
}

/// Sets the flag at an index for which there is room. It tells whether it was not set.
fn set_at(flags: &mut Vec<bool>, index: usize) -> bool
    requires { index < vec_len flags.old }
    ensures was { result ≡ not (flag_at flags.old.items index) }
    ensures sets { (at : ℕ) →
        flag_at flags.new.items at ≡ cond (nat_eq index at) true (flag_at flags.old.items at) }
{
    let was = is_set(flags, index);
    flags[index] = true;
    !was
}

/// Sets the flag of one of so many ops. It tells whether it was not set.
pub(crate) fn set_flag(flags: &mut Vec<bool>, index: usize, ops: usize) -> Result<bool, AllocError>
    requires { index < ops }
    ensures was { IfOk result (λ is_new. is_new ≡ not (flag_at flags.old.items index)) }
    ensures sets { OnOk result ((at : ℕ) →
        flag_at flags.new.items at ≡ cond (nat_eq index at) true (flag_at flags.old.items at)) }
{
    make_room(flags, index, ops)?;
    Ok(set_at(flags, index))
}
