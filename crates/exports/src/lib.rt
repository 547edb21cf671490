// The calls of the machine for other languages: a slice comes as a pointer and a length, and what is told goes back as one word. Nothing is
// asked of a caller beyond that, and nothing is kept between calls. include/rewind.h says it in C.
#![tactic(auto)]

ghost use Rattle.std.specs.Prelude.{◌≡◌};
ghost use Rattle.requests.specs.Requests.{number};
ghost use Rattle.machine.specs.Calls.{reply};
ghost use Rattle.machine.specs.Asks.{found_in, free_key_in, free_locality_in};
ghost use Rattle.exports.specs.Packed.{packed, packed_told, packed_found, packed_locality};

use finder::Found;
use machine::asks::{find, free_key, free_locality};
use machine::call;
use names::Name;
use requests::Answer;

// The first bit of a count or a name, and of localities, in the word.
const NAME: u64 = 1 << 8;

const TOUCHED: u64 = 1 << 32;

// Bits 0 to 7 the answer's number, 8 to 15 a count or a name, 32 to 63 localities.
fn pack(answer: Answer, name: u8, touched: u32) -> u64
    ensures { result ≡ packed (number answer) name touched }
{
    u8::from(answer) as u64 + NAME * name as u64 + TOUCHED * touched as u64
}

// Nothing is touched by a question.
fn pack_found<N: Name>(f: Found<N>) -> u64
    ensures { result ≡ packed (number f.answer) (N.number_of f.name) 0 }
{
    pack(f.answer, f.name.number(), 0)
}

// Codes 0 to 3: the net is written only where the answer is 0.
#[unsafe(no_mangle)]
pub extern "C" fn rewind_call(script: &[u8], net: &mut [u8], request: &[u8]) -> u64
    ensures { (result ≡ packed_told (reply script.now net.old request.now).told) × (net.new ≡ (reply script.now net.old request.now).net) }
{
    let t = call(script, net, request);
    pack(t.answer, t.undone, t.touched.0)
}

// The finder; any byte may be given as the process's key.
#[unsafe(no_mangle)]
pub extern "C" fn rewind_find(script: &[u8], net: &[u8], key: u8) -> u64
    ensures { result ≡ packed_found (found_in script.now net.now key) }
{
    pack_found(find(script, net, key))
}

#[unsafe(no_mangle)]
pub extern "C" fn rewind_free_key(script: &[u8], net: &[u8]) -> u64
    ensures { result ≡ packed_found (free_key_in script.now net.now) }
{
    pack_found(free_key(script, net))
}

#[unsafe(no_mangle)]
pub extern "C" fn rewind_free_locality(script: &[u8], net: &[u8]) -> u64
    ensures { result ≡ packed_locality (free_locality_in script.now net.now) }
{
    pack_found(free_locality(script, net))
}
