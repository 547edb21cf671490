// Little-endian words: four bytes as a number. The laws beside this code are in specs/.
#![tactic(auto)]

ghost use Rattle.std.specs.Prelude.{◌≡◌, [], ◌∷◌, ℕ, ◌+◌, ◌≤◌, length};
ghost use Rattle.laws.specs.Words.{number, word, word_at};

// The number of four bytes, the low one first.
#[tactic(auto, unfolding(crate::specs::Words::number))]
pub fn word_of(a: u8, b: u8, c: u8, d: u8) -> u32
    ensures { result ≡ number (a ∷ b ∷ c ∷ d ∷ []) }
{
    u32::from_le_bytes([a, b, c, d])
}

// The word at an index.
pub fn word_at(s: &[u8], at: usize) -> u32
    requires { at + 4 ≤ length s.now }
    ensures { result ≡ word_at s.now at }
{
    word_of(s[at], s[at + 1], s[at + 2], s[at + 3])
}

// A word stored in a part of four.
pub fn write_word(x: u32, p: &mut [u8])
    requires { length p.old ≡ 4 }
    ensures { p.new ≡ word x }
{
    p.copy_from_slice(&x.to_le_bytes());
}
