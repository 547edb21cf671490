// Questions on bytes that change nothing: the finder, the least free key and the least absent locality. The images are checked as for a call, in each
// by a match, which is plainer than a function that takes what is asked as a closure.
ghost use Rattle.std.specs.Prelude.{◌≡◌};
ghost use Rattle.machine.specs.Asks.{found_in, free_key_in, free_locality_in};

use super::images_in;
use finder::{Found, absent_locality};
use images::net_image::present_in;
use names::{Key, Locality};
use requests::Answer;

// The least key of a live tuple that the process with this key would meet; any byte may be given as its key.
pub fn find(script: &[u8], net: &[u8], key: u8) -> Found<Key>
    ensures { result ≡ found_in script.now net.now key }
{
    match images_in(script, net) {
        Ok((script, net)) => finder::find(script, net, Key(key)),
        Err(answer) => Found {
            answer,
            name: Key::NONE,
        },
    }
}

pub fn free_key(script: &[u8], net: &[u8]) -> Found<Key>
    ensures { result ≡ free_key_in script.now net.now }
{
    match images_in(script, net) {
        Ok((_, net)) => Found {
            answer: Answer::Done,
            name: finder::free_key(net),
        },
        Err(answer) => Found {
            answer,
            name: Key::NONE,
        },
    }
}

pub fn free_locality(script: &[u8], net: &[u8]) -> Found<Locality>
    ensures { result ≡ free_locality_in script.now net.now }
{
    match images_in(script, net) {
        Ok((_, net)) => Found {
            answer: Answer::Done,
            name: absent_locality(present_in(net)),
        },
        Err(answer) => Found {
            answer,
            name: Locality::NONE,
        },
    }
}
