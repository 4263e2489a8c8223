// Bits and bytes: the definitions (specs/) and the laws (proofs/) that more than one crate cites.
#![tactic(auto)]

ghost use Rattle.std.specs.Prelude.{◌≡◌};
ghost use Rattle.bits.specs.Bytes.{word, word_bytes, copied};

// The number of four bytes, highest first.
pub fn word_of(a: u8, b: u8, c: u8, d: u8) -> u32
    ensures { result ≡ word a b c d }
{
    u32::from_be_bytes([a, b, c, d])
}

// The four bytes of a number, highest first.
pub fn bytes_of(word: u32) -> [u8; 4]
    ensures { result ≡ word_bytes word }
{
    word.to_be_bytes()
}

// Copies `from` into `to`, which is of the same length; else does nothing. A loop, as `copy_from_slice` calls memmove, which a kernel
// need not have: of what is outside it the library calls memcpy and memset at most.
pub fn copy(from: &[u8], to: &mut [u8])
    ensures { to.new ≡ copied from.now to.old }
{
    if to.len() == from.len() {
        for i in 0..from.len() {
            to[i] = from[i];
        }
    }
}
