// The head of an image: its mark, its version, a word of its own, and a word that is 0.
ghost use Rattle.std.specs.Prelude.{◌≡◌, ◌+◌, ◌*◌, ◌<◌, ◌≤◌, length};
ghost use Rattle.images.specs.Head.{head_formed, head_bytes, rest_zero, part_at};

// A head's bytes, and where its words stand: the version, a word of the image's own, and the last.
pub const SIZE: usize = 16;

const VERSION: usize = 4;

pub const OWN: usize = 8;

pub const LAST: usize = 12;

// The mark is "RT" and a letter; the version is 1.
#[tactic(auto, unfolding(crate::specs::Head::head_formed))]
pub fn head_formed(b: &[u8], letter: u8) -> bool
    requires { 16 ≤ length b.now }
    ensures { result ≡ head_formed letter b.now }
{
    laws::word_at(b, 0) == laws::word_of(b'R', b'T', letter, 0)
        && laws::word_at(b, VERSION) == 1
        && laws::word_at(b, LAST) == 0
}

// The 16 bytes of a head.
pub fn write_head(letter: u8, w: u32, p: &mut [u8])
    requires { length p.old ≡ 16 }
    ensures { p.new ≡ head_bytes letter w }
{
    p[0..VERSION].copy_from_slice(&[b'R', b'T', letter, 0]);
    laws::write_word(1, &mut p[VERSION..OWN]);
    laws::write_word(w, &mut p[OWN..LAST]);
    laws::write_word(0, &mut p[LAST..SIZE]);
}

// Byte 7 and the last four bytes of a part, which no kind of part uses.
#[tactic(auto, unfolding(crate::specs::Head::rest_zero))]
pub fn rest_is_zero(p: &[u8], size: usize) -> bool
    requires { (8 ≤ size) × (length p.now ≡ size) }
    ensures { result ≡ rest_zero size p.now }
{
    p[7] == 0 && laws::word_at(p, size - 4) == 0
}

// Part i of an image: so many bytes, counted from the end of the head.
pub fn part<const N: usize>(image: &[u8], i: usize) -> &[u8; N]
    requires size { 0 < N }
    requires within { 16 + N * i + N ≤ length image.now }
    ensures { result.now ≡ part_at N image.now i }
{
    &image[SIZE..].as_chunks::<N>().0[i]
}
