// Tables of equal elements.
ghost use Rattle.std.specs.Prelude.{◌≡◌, replicate, IfOk, vec_len};

use std::alloc::{AllocError, Global};

// A table of so many copies of a value.
// No `vec!`: it clones, and for a type that is only known to be `Copy` it stays open that a clone equals the value.
pub fn filled<T: Copy>(heap: Global, value: T, number: usize) -> Result<Vec<T>, AllocError>
    ensures items { IfOk result (λ v. v.items ≡ replicate number value) }
    ensures len { IfOk result (λ v. vec_len v ≡ number) }
{
    let mut table = Vec::new(heap);
    table.resize(number, value)?;
    Ok(table)
}
