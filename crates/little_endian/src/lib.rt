// Little-endian numbers in byte slices. Each takes all of its bytes or none: without bytes it reads as 0, and writing it changes nothing.
#![tactic(auto)]

ghost use Rattle.std.specs.Prelude.{◌≡◌, ℕ, ◌+◌, ◌≤◌, length};
ghost use Rattle.std.proofs.lemmas.List.Edits.{sets};
ghost use Rattle.little_endian.specs.LittleEndian.{number_at, bytes_of, Whole};

// An unsigned number, and the bytes that it takes.
pub trait Number: Copy + Default {
    // How many bytes it takes.
    ghost size: { ℕ };

    ghost value: { Self → ℕ };

    // The number in the bytes from `at` on.
    fn from_bytes(bytes: &[u8], at: usize) -> Self
        requires { at + size ≤ length bytes.now }
        ensures { value result ≡ number_at bytes.now at size };

    // Puts the number into the bytes from `at` on.
    fn put(self, target: &mut [u8], at: usize)
        requires { at + size ≤ length target.old }
        ensures { target.new ≡ sets target.old at (bytes_of size (value self)) };

    // Its default is 0.
    ghost zero: { (x : Self) → Self.is_default x → value x ≡ 0 };
}

impl Number for u8 {
    ghost size = { 1 };

    ghost value = { λ x. x };

    #[tactic(auto, using(crate::proofs::Numbers::number_1))]
    fn from_bytes(bytes: &[u8], at: usize) -> u8 {
        bytes[at]
    }

    #[tactic(auto, unfolding(crate::specs::LittleEndian::bytes_of))]
    fn put(self, target: &mut [u8], at: usize) {
        target[at] = self;
    }

    ghost zero = { λ x h. h };
}

impl Number for u16 {
    ghost size = { 2 };

    ghost value = { λ x. x };

    #[tactic(auto, using(crate::proofs::Numbers::number_2))]
    fn from_bytes(bytes: &[u8], at: usize) -> u16 {
        u16::from_le_bytes([bytes[at], bytes[at + 1]])
    }

    #[tactic(auto, using(crate::proofs::Numbers::stored_2))]
    fn put(self, target: &mut [u8], at: usize) {
        target[at..at + 2].copy_from_slice(&self.to_le_bytes());
    }

    ghost zero = { λ x h. h };
}

impl Number for u32 {
    ghost size = { 4 };

    ghost value = { λ x. x };

    #[tactic(auto, using(crate::proofs::Numbers::number_4))]
    fn from_bytes(bytes: &[u8], at: usize) -> u32 {
        u32::from_le_bytes([bytes[at], bytes[at + 1], bytes[at + 2], bytes[at + 3]])
    }

    #[tactic(auto, using(crate::proofs::Numbers::stored_4))]
    fn put(self, target: &mut [u8], at: usize) {
        target[at..at + 4].copy_from_slice(&self.to_le_bytes());
    }

    ghost zero = { λ x h. h };
}

// The number in all of its bytes, or in none, from `at`.
#[tactic(auto, using(crate::proofs::Numbers::read_none, crate::proofs::Numbers::all_of))]
pub fn read<N: Number>(bytes: &[u8], at: usize, width: usize) -> N
    requires whole { Whole N.size width }
    requires room { at + width ≤ length bytes.now }
    ensures { N.value result ≡ number_at bytes.now at width }
{
    if width == 0 {
        return N::default();
    }
    N::from_bytes(bytes, at)
}

// Puts a number into all of its bytes, or into none, from `at`.
#[tactic(auto, using(crate::proofs::Numbers::write_none, crate::proofs::Numbers::all_of))]
pub fn write<N: Number>(target: &mut [u8], at: usize, width: usize, x: N)
    requires whole { Whole N.size width }
    requires room { at + width ≤ length target.old }
    ensures { target.new ≡ sets target.old at (bytes_of width (N.value x)) }
{
    if width == 0 {
        return;
    }
    x.put(target, at);
}
