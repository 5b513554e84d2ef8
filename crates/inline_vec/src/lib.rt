//! A vector of fixed capacity whose elements lie in the value itself, so that it is copied as they are. (The kit's `ArrayVec` can own what its elements own, and
//! so is no `Copy`.)

#![tactic(auto)]

ghost use Rattle.std.specs.Prelude.{◌≡◌, ◌+◌, ◌<◌, ◌≤◌, [], ◌∷◌, ◌++◌};
ghost use Rattle.inline_vec.specs.Vectors.{inline_len};

use std::marker::Model;

/// At most `CAP` elements, which lie in the value itself.
#[derive(Clone, Copy)]
pub struct InlineVec<T, const CAP: usize> {
    // the elements, and then fillers
    slots: [T; CAP],
    len: usize,
}

impl<T, const CAP: usize> Model for InlineVec<T, CAP> {
    ghost use Rattle.std.specs.Prelude.{◌≡◌, ◌≤◌, ◌++◌, length, take, drop};
    ghost use Rattle.std.proofs.Common.{arith, take-append-drop, length-take-le};
    ghost use Rattle.inline_vec.specs.Vectors.{InlineVec as Items};

    ghost Value = { Items T };

    ghost view = { λ v. record { items = take v.len v.slots; spare = drop v.len v.slots } };

    ghost invariant = { λ v. (v.len ≤ CAP) × (length v.slots ≡ CAP) };

    ghost inverse = { λ v. record { slots = v.items ++ v.spare; len = length v.items } };

    ghost inverse_ok = { λ v h i. record {
      slots = take-append-drop v.len v.slots i;
      len = length-take-le v.len v.slots (omega (arith, h.0, h.1)) i;
    } };
}

impl<T: Copy + Default, const CAP: usize> InlineVec<T, CAP> {
    /// An empty vector.
    pub fn new() -> Self
        ensures { result.items ≡ [] }
    {
        InlineVec {
            slots: [T::default(); CAP],
            len: 0,
        }
    }
}

impl<T: Copy, const CAP: usize> InlineVec<T, CAP> {
    /// How many elements there are.
    pub fn len(&self) -> usize
        ensures value { result ≡ inline_len self.now }
        ensures fits { result ≤ CAP }
    {
        self.as_slice().len()
    }

    /// The elements.
    pub fn as_slice(&self) -> &[T]
        ensures value { result.now ≡ self.now.items }
        ensures fits { inline_len self.now ≤ CAP }
    {
        &self.slots[..self.len]
    }

    /// One element more, behind the others. There must be room.
    pub fn push(&mut self, element: T)
        requires { inline_len self.old < CAP }
        ensures items { self.new.items ≡ self.old.items ++ element ∷ [] }
        ensures len { inline_len self.new ≡ inline_len self.old + 1 }
    {
        self.slots[self.len] = element;
        self.len += 1;
    }
}
