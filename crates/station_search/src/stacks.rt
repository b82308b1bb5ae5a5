//! The two stacks of a search: the frames that wait for the one in hand, and their walks. Both stand in the heap and
//! grow one by one. A push takes room for one more item than its own, so the last push of a search, that of the frame
//! in hand, takes no memory and can't fail.
ghost use Rattle.std.specs.Prelude.{◌≡◌, ◌<◌, ◌∷◌, ◌++◌, [], length, vec_len, vec_capacity, IsNone, IfOk, IfSome, OnOk};

use std::alloc::{AllocError, Global};

/// An empty stack with room for an item.
pub fn stack_with_room<T: Drop>(alloc: Global) -> Result<Vec<T>, AllocError>
    ensures empty { IfOk result (λ stack. stack.items ≡ []) }
    ensures room { IfOk result (λ stack. vec_len stack < vec_capacity stack) }
{
    let mut stack = Vec::new(alloc);
    stack.reserve(1)?;
    Ok(stack)
}

/// Puts an item on a stack, and leaves room for one more.
pub fn push_on<T: Drop>(stack: &mut Vec<T>, item: T) -> Result<(), AllocError>
    ensures items { OnOk result (stack.new.items ≡ stack.old.items ++ item ∷ []) }
    ensures room { OnOk result (vec_len stack.new < vec_capacity stack.new) }
{
    stack.reserve(2)?;
    stack.push_reserved(item);
    Ok(())
}

/// Takes the item that was put on a stack last; None where there is none. Where there was room, there is room.
pub fn pop_from<T>(stack: &mut Vec<T>) -> Option<T>
    ensures none { IsNone result → stack.old.items ≡ [] }
    ensures some { IfSome result (λ item. stack.old.items ≡ stack.new.items ++ item ∷ []) }
    ensures room { vec_len stack.old < vec_capacity stack.old → vec_len stack.new < vec_capacity stack.new }
{
    stack.pop()
}

/// Takes the item that was put last on a stack that isn't empty.
pub fn take_from<T>(stack: &mut Vec<T>) -> T
    requires { 0 < length stack.old.items }
    ensures { stack.old.items ≡ stack.new.items ++ result ∷ [] }
{
    match stack.pop() {
        Some(item) => item,
        None => unreachable!(),
    }
}
