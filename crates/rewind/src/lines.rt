// The text of an answer: "a line each: answer, undone in decimal, touched as 8 lower-case hex digits". Each function puts its bytes behind
// those that stand in the output, whatever its room. By hand, since a line by `write!` takes 45 ns, and a request that is refused may take 13
// (docs/BENCHMARKS.md).
ghost use Rattle.std.specs.Prelude.{◌≡◌, ◌+◌, ◌≤◌, ◌<◌, [], ◌∷◌};
ghost use Rattle.arrayvec.specs.ArrayVec.{array_vec_len};
ghost use Rattle.rewind.specs.Lines.{line_size, Puts, decimal, hex_digit, hex_four, hex_word, numbers_of, tells_nothing, line_of};

use arrayvec::ArrayVec;
use names::Localities;
use requests::Told;

// The longest line: two digits, a space, two digits, a space, eight digits and the line's end.
pub const LINE: usize = 15;

// How many lines the output has room for.
pub const LINES: usize = 4096;

const ROOM: usize = LINES * LINE;

pub type Output = ArrayVec<u8, ROOM>;

// The digits from 10 on are letters.
const LETTERS: u8 = b'a' - 10;

fn put<const N: usize>(b: u8, out: &mut ArrayVec<u8, N>)
    requires { array_vec_len out.old < N }
    ensures { Puts out.old.items out.new.items (b ∷ []) }
{
    out.push(b);
}

// ---- numbers

// Without a zero in front.
fn put_decimal<const N: usize>(n: u8, out: &mut ArrayVec<u8, N>)
    requires { (n < 100) × (array_vec_len out.old + 2 ≤ N) }
    ensures { Puts out.old.items out.new.items (decimal n) }
{
    if n < 10 {
        put(b'0' + n, out);
    } else {
        put(b'0' + n / 10, out);
        put(b'0' + n % 10, out);
    }
}

fn hex_digit(d: u32) -> u8
    requires { d < 16 }
    ensures { result ≡ hex_digit d }
{
    if d < 10 {
        b'0' + d as u8
    } else {
        LETTERS + d as u8
    }
}

// The lower four of a number's hex digits.
fn put_four<const N: usize>(w: u32, out: &mut ArrayVec<u8, N>)
    requires { array_vec_len out.old + 4 ≤ N }
    ensures { Puts out.old.items out.new.items (hex_four w) }
{
    put(hex_digit(w / 4096 % 16), out);
    put(hex_digit(w / 256 % 16), out);
    put(hex_digit(w / 16 % 16), out);
    put(hex_digit(w % 16), out);
}

fn put_word<const N: usize>(w: u32, out: &mut ArrayVec<u8, N>)
    requires { array_vec_len out.old + 8 ≤ N }
    ensures { Puts out.old.items out.new.items (hex_word w) }
{
    put_four(w / 65536, out);
    put_four(w, out);
}

// ---- lines

// The numbers beside an answer, and the line's end.
fn put_numbers<const N: usize>(undone: u8, touched: Localities, out: &mut ArrayVec<u8, N>)
    requires { (undone < 100) × (array_vec_len out.old + 13 ≤ N) }
    ensures { Puts out.old.items out.new.items (numbers_of undone touched.0) }
{
    put(b' ', out);
    put_decimal(undone, out);
    put(b' ', out);
    put_word(touched.0, out);
    put(b'\n', out);
}

// The same where both are 0: most lines are of a refusal or of a forward step. Of numbers that are known the bytes are too, so none is computed.
fn put_nothing<const N: usize>(out: &mut ArrayVec<u8, N>)
    requires { array_vec_len out.old + 13 ≤ N }
    ensures { Puts out.old.items out.new.items (numbers_of 0 0) }
{
    put_numbers(0, Localities::EMPTY, out);
}

fn tells_nothing(t: Told) -> bool
    ensures { result ≡ tells_nothing t }
{
    t.undone == 0 && t.touched == Localities::EMPTY
}

pub fn put_line<const N: usize>(t: Told, out: &mut ArrayVec<u8, N>)
    requires { (t.undone < 100) × (array_vec_len out.old + line_size ≤ N) }
    ensures { Puts out.old.items out.new.items (line_of t) }
{
    put_decimal(u8::from(t.answer), out);
    if tells_nothing(t) {
        put_nothing(out);
    } else {
        put_numbers(t.undone, t.touched, out);
    }
}
