// The program of document 01: "The program `rewind` reads from standard input one script, one net, then requests, and prints a line each:
// answer, undone in decimal, touched as 8 lower-case hex digits."
#![tactic(auto)]

ghost use Rattle.std.specs.Prelude.{◌≡◌, ◌-◌, ◌*◌, ◌/◌, ◌%◌, ◌≤◌, length, take, drop};
ghost use Rattle.machine.specs.Calls.{GoodImages};
ghost use Rattle.rewind.specs.Lines.{line_size};
ghost use Rattle.rewind.specs.Run.{request_size, run_of, answered};

use arrayvec::ArrayVec;
use images::net_image::{self, NetBytes};
use images::script_image::{self, ScriptBytes};
use lines::{LINE, LINES, Output, put_line};
use machine::{call_on, image_answer};
use requests::{Answer, Request, refused};
use std::io::Read;
use streams::read_full;

mod lines;

// Room for the bytes of as many requests as the output has lines: so many are answered at a time.
const INPUT_ROOM: usize = LINES * Request::SIZE;

// ---- requests that have arrived

// All whole requests of a chunk, in their order, each on the net that the one before it left; the output then holds their lines.
fn answer_chunk<const N: usize>(
    script: &ScriptBytes,
    net: &mut NetBytes,
    requests: &[u8],
    out: &mut ArrayVec<u8, N>,
)
    requires good_images { GoodImages script.now net.old }
    requires room { line_size * (length requests.now / request_size) ≤ N }
    ensures run { run_of out.new.items net.new ≡ answered script.now net.old requests.now (length requests.now / request_size) }
    ensures good_images { GoodImages script.now net.new }
{
    out.clear();
    for request in requests.as_chunks::<{ Request::SIZE }>().0 {
        put_line(call_on(script, net, request), out);
    }
}

// ---- the stream

// The bytes after the last whole request, moved to the front; how many they are.
fn keep_rest(input: &mut [u8], whole: usize) -> usize
    requires { whole ≤ length input.old }
    ensures count { result ≡ whole % request_size }
    ensures moved { take result input.new ≡ take result (drop (whole - result) input.old) }
{
    let rest = whole % Request::SIZE;
    let from = whole - rest;
    for i in 0..rest {
        input[i] = input[from + i];
    }
    rest
}

// What has arrived of the input, put behind the first `have` bytes; how many bytes there are then. None more is the end of the input, and so is
// a read that fails. The count stands beside the room, since `read` wants bytes that are there.
fn read_more(source: &mut impl Read, input: &mut [u8], have: usize) -> usize
    requires { have ≤ length input.old }
    ensures count { (have ≤ result) × (result ≤ length input.new) }
    ensures kept { take have input.new ≡ take have input.old }
{
    have + source.read(&mut input[have..]).unwrap_or(0)
}

// The line of a refusal; the program ends after it, so nobody asks whether it was written.
fn print_refusal(rt: &impl Print, answer: Answer) {
    let mut out: ArrayVec<u8, LINE> = ArrayVec::new();
    put_line(refused(answer), &mut out);
    let _ = rt.write_all(out.as_slice());
}

// "1 to 5 bytes left over count as a request of wrong length."
fn print_rest(rt: &impl Print, rest: usize) {
    if 0 < rest {
        print_refusal(rt, Answer::BadRequest);
    }
}

// Requests as they arrive: all whole ones are answered, and their lines written, before the next read. An output that takes no more ends the run.
// There are more turns than any run comes to. Script and net, and that they are good, come as in `step`.
fn answer_all(rt: &impl Print, source: &mut impl Read, script: &ScriptBytes, net: &mut NetBytes)
    requires { GoodImages script.now net.old }
{
    let mut input = [0u8; INPUT_ROOM];
    let mut out: Output = ArrayVec::new();
    let mut have: usize = 0;
    for _ in 0..u64::MAX {
        let whole = read_more(source, &mut input, have);
        if whole == have {
            print_rest(rt, have);
            return;
        }
        answer_chunk(script, net, &input[..whole], &mut out);
        if rt.write_all(out.as_slice()).is_err() {
            return;
        }
        have = keep_rest(&mut input, whole);
    }
}

// "A bad script or net prints one such line and ends." One whose read fails has not its length, and is bad.
fn main(rt: HostRuntime) {
    let mut source = rt.stdin();
    let mut script = [0u8; script_image::SIZE];
    let mut net = [0u8; net_image::SIZE];
    let script_length = read_full(&mut source, &mut script).unwrap_or(0);
    let net_length = read_full(&mut source, &mut net).unwrap_or(0);
    let answer = image_answer(&script[..script_length], &net[..net_length]);
    if answer != Answer::Done {
        print_refusal(&rt, answer);
        return;
    }
    answer_all(&rt, &mut source, &script, &mut net);
}
