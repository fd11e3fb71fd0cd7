//! The memory of a program.

ghost use Rattle.std.specs.Prelude.{◌≡◌, [], IfSome};

use std::alloc::Global;

/// How many bytes the block has room for.
const BLOCK: usize = 33_000_000;

/// A large block, empty; none if there is no memory for it. A program allocates it first and frees it at once: glibc
/// maps each large block by itself and unmaps it when it is freed, until it has seen one freed; then it keeps blocks of
/// up to that size, with their pages. Not inlined: otherwise an allocation that nothing uses is left out.
#[inline(never)]
pub fn large_block(alloc: Global) -> Option<Vec<u8>>
    ensures { IfSome result (λ block. block.items ≡ []) }
{
    Vec::with_capacity(alloc, BLOCK).ok()
}
