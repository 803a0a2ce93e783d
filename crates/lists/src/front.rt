// A list in the front of an array of N, since there is no heap: the first len of its items are the list.
ghost use Rattle.std.specs.Prelude.{◌≡◌, ◌+◌, ◌≤◌, ◌<◌, ◌++◌, ◌∷◌, [], length, slice_set};

use crate::fronts;
use std::alloc::AllocError;

// items are public to be read as arrays are, in a layout known by the declaration.
pub struct Front<T, const N: usize> {
    pub items: [T; N],
    pub len: usize,
    pub ghost room: { len ≤ N },
    pub ghost size: { length items ≡ N },
}

impl<T: Copy, const N: usize> Front<T, N> {
    ghost use Rattle.lists.specs.Lists.{keep_by};
    ghost use Rattle.lists.specs.Arrays.{insert_at};
    ghost use Rattle.lists.specs.Front.{held};

    // The empty list; behind a list's end lies what has no meaning, here fill.
    pub fn new(fill: T) -> Front<T, N>
        ensures list { held result ≡ [] }
        ensures count { result.len ≡ 0 }
    {
        Front {
            items: [fill; N],
            len: 0,
        }
    }

    pub fn as_slice(&self) -> &[T]
        ensures { result.now ≡ held self.now }
    {
        &self.items[..self.len]
    }

    // x put behind the last.
    pub fn push(&mut self, x: T)
        requires { self.old.len < N }
        ensures list { held self.new ≡ held self.old ++ x ∷ [] }
        ensures count { self.new.len ≡ self.old.len + 1 }
    {
        self.items[self.len] = x;
        self.len += 1;
    }

    // x put where another stands.
    pub fn set(&mut self, i: usize, x: T)
        requires { i < self.old.len }
        ensures list { held self.new ≡ slice_set (held self.old) i x }
        ensures count { self.new.len ≡ self.old.len }
    {
        self.items[i] = x;
    }

    // x put in at k: those from k on move up by one.
    pub fn insert_at(&mut self, k: usize, x: T)
        requires { (k ≤ self.old.len) × (self.old.len < N) }
        ensures list { held self.new ≡ insert_at k x (held self.old) }
        ensures count { self.new.len ≡ self.old.len + 1 }
    {
        fronts::insert_at(&mut self.items, self.len, k, x);
        self.len += 1;
    }

    // Those whose flag is up, in their order, a flag for each.
    pub fn retain(&mut self, stay: &[bool])
        requires { length stay.now ≡ self.old.len }
        ensures list { held self.new ≡ keep_by stay.now (held self.old) }
    {
        self.len = fronts::retain(&mut self.items, stay);
    }
}

// By hand: no derive gives these to a struct with a parameter and a ghost field.
impl<T: Copy, const N: usize> Copy for Front<T, N> {}

impl<T: Copy, const N: usize> Clone for Front<T, N> {
    fn clone(&self) -> Result<Self, AllocError> {
        Ok(*self)
    }
}
