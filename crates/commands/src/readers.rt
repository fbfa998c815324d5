ghost use Rattle.std.specs.Prelude.{◌≡◌, ℕ, ◌+◌, ◌<◌, length, ⊤};

use std::alloc::AllocError;
use std::marker::PhantomData;

/// A stream of commands on values of a kind, as far as it is still to be read: the bytes that are left, and the offset where
/// they begin.
pub struct Reader<'a, K> {
    rest: &'a [u8],
    at: usize,
    kind: PhantomData<K>,
    ghost within: { at + length rest.now < 18446744073709551616 },
}

// A reader holds no value of the kind, so that neither hangs on the kind. The check of what sends or shares one proves it, as
// that of `crosses` in the tests.
unsafe impl<K> Send for Reader<'_, K> {}

unsafe impl<K> Sync for Reader<'_, K> {}

// By hand: neither is derived on a struct with a ghost field and a type parameter.
impl<K> Copy for Reader<'_, K> {}

impl<K> Clone for Reader<'_, K> {
    ghost is_clone = { λ x y. y ≡ x };

    ghost is_infallible = { λ _. ⊤ };

    fn clone(&self) -> Result<Self, AllocError> {
        Ok(*self)
    }
}

mod calls;
