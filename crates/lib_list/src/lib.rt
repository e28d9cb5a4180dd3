// A list of at most so many elements, which lie in the value itself: no heap, and copied with it.
#![tactic(auto)]

ghost use Rattle.std.specs.Prelude.{◌≡◌, ◌+◌, ◌<◌, ◌≤◌, ◌==◌, [], ◌∷◌, ◌++◌, length, remove, replicate, slice_index_or, take};
ghost use Rattle.std.specs.Fn.{CalledAt};
ghost use Rattle.std.specs.List.Retain.{IsFiltered};
ghost use Rattle.lib_list.specs.ShortList.{short_list_len};

use std::marker::Model;
use std::ops::DerefSlice;

// CAP places. The first `len` hold the elements, the others what was there before.
#[derive(Clone, Copy)]
pub struct ShortList<T, const CAP: usize> {
    xs: [T; CAP],
    len: usize,
}

impl<T, const CAP: usize> Model for ShortList<T, CAP> {
    ghost use Rattle.std.specs.Prelude.{◌≡◌, ◌≤◌, ◌++◌, length, take, drop};
    ghost use Rattle.std.proofs.Common.{take-append-drop};
    ghost use Rattle.lib_list.specs.ShortList.{ShortList as Items, length_items};

    ghost Value = { Items T };

    ghost view = { λ l. record { items = take l.len l.xs; spare = drop l.len l.xs } };

    ghost invariant = { λ l. (l.len ≤ CAP) × (length l.xs ≡ CAP) };

    ghost inverse = { λ v. record { xs = v.items ++ v.spare; len = length v.items } };

    ghost inverse_ok = { λ l h i. record { xs = take-append-drop l.len l.xs i; len = length_items l.len l.xs h.0 h.1 i } };
}

impl<T: Copy + Default, const CAP: usize> ShortList<T, CAP> {
    // An empty list; its places are blank.
    pub fn new() -> Self
        ensures items { result.items ≡ [] }
        ensures spare { (blank : T) × T.is_default blank × (result.spare ≡ replicate CAP blank) }
    {
        ShortList {
            xs: [T::default(); CAP],
            len: 0,
        }
    }
}

impl<T, const CAP: usize> ShortList<T, CAP> {
    // How many there are.
    pub fn len(&self) -> usize
        ensures value { result ≡ short_list_len self.now }
        ensures fits { result ≤ CAP }
    {
        self.as_slice().len()
    }

    // Whether there is none.
    pub fn is_empty(&self) -> bool
        ensures { result ≡ (short_list_len self.now == 0) }
    {
        self.len == 0
    }

    // The elements.
    pub fn as_slice(&self) -> &[T]
        ensures value { result.now ≡ self.now.items }
        ensures fits { length result.now ≤ CAP }
    {
        &self.xs[..self.len]
    }

    // None is left.
    pub fn clear(&mut self)
        ensures { self.new.items ≡ [] }
    {
        self.len = 0;
    }
}

impl<T: Copy, const CAP: usize> ShortList<T, CAP> {
    // One more, behind the others. There must be room.
    pub fn push(&mut self, element: T)
        requires { short_list_len self.old < CAP }
        ensures items { self.new.items ≡ self.old.items ++ element ∷ [] }
        ensures len { short_list_len self.new ≡ short_list_len self.old + 1 }
    {
        self.xs[self.len] = element;
        self.len += 1;
    }

    // The one at a place goes, and those behind it move up.
    pub fn remove(&mut self, index: usize) -> T
        requires { index < short_list_len self.old }
        ensures value { result ≡ slice_index_or self.old.items index result }
        ensures items { self.new.items ≡ remove self.old.items index }
        ensures len { short_list_len self.new + 1 ≡ short_list_len self.old }
    {
        let gone = self.as_slice()[index];
        let len = self.len;
        self.xs.copy_within(index + 1..len, index);
        self.len = len - 1;
        gone
    }

    // Those stay at which `f` answers true, in their order.
    pub fn retain<F: FnMut(&T) -> bool>(&mut self, f: F)
        requires { F.IsAlwaysCallable f }
        ensures filtered { IsFiltered (CalledAt F.FnMut) f self.old.items self.new.items }
        ensures bound { short_list_len self.new ≤ short_list_len self.old }
    {
        let len = self.len;
        self.len = to_front(&mut self.xs[..len], f);
    }
}

// Those at which `f` answers true come first, in their order; how many they are.
fn to_front<T: Copy, F: FnMut(&T) -> bool>(xs: &mut [T], mut f: F) -> usize
    requires { F.IsAlwaysCallable f }
    ensures filtered { IsFiltered (CalledAt F.FnMut) f xs.old (take result xs.new) }
    ensures bound { result ≤ length xs.old }
    ensures len { length xs.new ≡ length xs.old }
{
    let mut kept = 0;
    for i in 0..xs.len() {
        let x = xs[i];
        if f(&x) {
            xs[kept] = x;
            kept += 1;
        }
    }
    kept
}

// The elements, as those of a slice.
impl<T, const CAP: usize> DerefSlice for ShortList<T, CAP> {
    type Elem = T;

    ghost deref_gives = { λ l xs. (xs ≡ l.items) × (length xs ≤ CAP) };

    fn deref(&self) -> &[T] {
        ShortList::as_slice(self)
    }
}
