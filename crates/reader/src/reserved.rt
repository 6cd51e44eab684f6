ghost use Rattle.std.specs.Prelude.{◌≡◌, ◌<◌, ◌≤◌, List, [], ◌∷◌, ◌++◌, length, IfOk, vec_items, vec_len, vec_capacity, ◌==◌};

use std::alloc::{AllocError, Global};
use std::marker::Model;

/// A list of at most N items with room for all from the start, so that putting one in never wants memory.
#[derive(Drop)]
pub(crate) struct Reserved<T, const N: usize> {
    list: Vec<T>,
}

// The bound stands in clauses too: a caller sees the list alone, not the invariant.
impl<T, const N: usize> Model for Reserved<T, N> {
    ghost Value = { List T };

    ghost view = { λ r. vec_items r.list };

    ghost invariant = { λ r. (vec_len r.list ≤ N) × (N ≤ vec_capacity r.list) };
}

impl<T: Drop, const N: usize> Reserved<T, N> {
    pub(crate) fn new(heap: Global) -> Result<Reserved<T, N>, AllocError>
        ensures { IfOk result (λ r. r ≡ []) }
    {
        let list = Vec::with_capacity(heap, N)?;
        Ok(Reserved { list })
    }

    pub(crate) fn len(&self) -> usize
        ensures value { result ≡ length self.now }
        ensures few { result ≤ N }
    {
        self.list.len()
    }

    pub(crate) fn is_empty(&self) -> bool
        ensures { result ≡ (length self.now == 0) }
    {
        self.list.is_empty()
    }

    pub(crate) fn as_slice(&self) -> &[T]
        ensures value { result.now ≡ self.now }
        ensures few { length self.now ≤ N }
    {
        self.list.as_slice()
    }

    pub(crate) fn push(&mut self, item: T)
        requires { length self.old < N }
        ensures { self.new ≡ self.old ++ item ∷ [] }
    {
        self.list.push_reserved(item);
    }

    pub(crate) fn into_vec(self) -> Vec<T>
        ensures { vec_items result ≡ self }
    {
        self.list
    }
}
