//! Bytes of which a part is looked at at a time.

ghost use Rattle.std.specs.Prelude.{◌≡◌, ℕ, List, Option, Some, take, drop, length, OnOk, IfSome};

use std::alloc::AllocError;

/// The bytes of a file, of which a part is looked at at a time.
pub trait ByteSource {
    /// Why a part cannot be read.
    type Fault: From<AllocError> + Drop;

    /// The bytes, where they are known.
    ghost known: { Self → Option (List ℕ) };

    /// The part that is looked at.
    ghost seen: { Self → List ℕ };

    /// How many bytes there are.
    fn len(&self) -> usize
        ensures { IfSome (known self.now) (λ bytes. result ≡ length bytes) };

    /// Looks at so many bytes from this one on, or at those of them that there are.
    fn look(&mut self, from: usize, count: usize) -> Result<(), Self::Fault>
        ensures same { known self.new ≡ known self.old }
        ensures there { IfSome (known self.old) (λ bytes. OnOk result (seen self.new ≡ take count (drop from bytes))) };

    /// The part that is looked at.
    fn window(&self) -> &[u8]
        ensures { result.now ≡ seen self.now };
}

/// Bytes that are all there.
#[derive(Drop)]
pub struct WholeBytes<'a> {
    bytes: &'a [u8],
    window: &'a [u8],
}

impl<'a> WholeBytes<'a> {
    /// Bytes that are all there, none of which is looked at yet.
    pub fn new(bytes: &'a [u8]) -> WholeBytes<'a> {
        WholeBytes { bytes, window: &[] }
    }
}

impl<'a> ByteSource for WholeBytes<'a> {
    type Fault = AllocError;

    ghost known = { λ s. Some s.bytes.now };

    ghost seen = { λ s. s.window.now };

    fn len(&self) -> usize {
        self.bytes.len()
    }

    fn look(&mut self, from: usize, count: usize) -> Result<(), AllocError> {
        self.window = part_of(self.bytes, from, count);
        Ok(())
    }

    fn window(&self) -> &[u8] {
        self.window
    }
}

/// So many of the bytes from this one on, or those of them that there are.
pub fn part_of(bytes: &[u8], from: usize, count: usize) -> &[u8]
    ensures { result.now ≡ take count (drop from bytes.now) }
{
    let rest = bytes.split_at(from.min(bytes.len())).1;
    rest.split_at(count.min(rest.len())).0
}
