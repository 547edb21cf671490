// Holds the calls on bytes against the second program. Standard input is a stream of items (docs/REFERENCE.md): 'S' a script and 'N' a net, of
// any length; 'P' a change of one byte of the net, 'B' the net as it was given; 'C' a call, 'F' the finder, 'K' the least free key, 'L' the least
// absent locality. Each of the last four prints a line.
#![tactic(auto)]

use check_sum::crc;
use finder::Found;
use machine::asks::{find, free_key, free_locality};
use machine::call;
use names::Name;
use std::io::{self, Read};
use streams::read_full;

// Room for a script or a net.
const ROOM: usize = 4096;

// The longest request that an item may give.
const REQUEST: usize = 16;

// More items than a stream has.
const ITEMS: usize = 4194304;

// A script or a net of any length up to the room's; of fixed memory, as the machine is.
#[derive(Clone, Copy)]
struct Image {
    room: [u8; ROOM],
    length: usize,
}

impl Image {
    fn empty() -> Image {
        Image {
            room: [0; ROOM],
            length: 0,
        }
    }

    // A length and so many bytes; whether there is room for them and they were there.
    fn read(&mut self, input: &mut impl Read) -> io::Result<bool> {
        let mut length = [0u8; 2];
        if read_full(input, &mut length)? < length.len() {
            return Ok(false);
        }
        let length = u16::from_le_bytes(length) as usize;
        if ROOM < length {
            return Ok(false);
        }
        self.length = length;
        Ok(read_full(input, self.bytes_mut())? == length)
    }

    fn bytes(&self) -> &[u8] {
        &self.room[..self.length.min(ROOM)]
    }

    fn bytes_mut(&mut self) -> &mut [u8] {
        &mut self.room[..self.length.min(ROOM)]
    }
}

// ---- lines

// What was asked for, in a letter, and what was found.
fn print_found<N: Name>(rt: &impl Print, what: char, found: Found<N>) -> io::Result<()> {
    let answer = u8::from(found.answer);
    let name = found.name.number();
    println!(rt; "{what} {answer} {name}")
}

// ---- items

// What items are taken on.
#[derive(Drop)]
struct Items {
    script: Image,
    net: Image,
    // The net as it was given.
    base: Image,
}

impl Items {
    fn new() -> Items {
        Items {
            script: Image::empty(),
            net: Image::empty(),
            base: Image::empty(),
        }
    }

    // A change of one byte, which past the net's end changes nothing; whether the byte was there. An input that ends within the offset and then
    // goes on, as a terminal's may, gives the byte all the same, and changes nothing.
    fn patch(&mut self, input: &mut impl Read) -> io::Result<bool> {
        let mut offset = [0u8; 2];
        let whole = read_full(input, &mut offset)? == offset.len();
        let mut value = [0u8; 1];
        if read_full(input, &mut value)? < value.len() {
            return Ok(false);
        }
        let at = u16::from_le_bytes(offset) as usize;
        if whole {
            if let Some(place) = self.net.bytes_mut().get_mut(at) {
                *place = value[0];
            }
        }
        Ok(true)
    }

    // A length byte of at most 16, and so many bytes of a request; whether they were there.
    fn ask_call(&mut self, rt: &impl Print, input: &mut impl Read) -> io::Result<bool> {
        let mut length = [0u8; 1];
        if read_full(input, &mut length)? < length.len() {
            return Ok(false);
        }
        let length = length[0] as usize;
        if REQUEST < length {
            return Ok(false);
        }
        let mut room = [0u8; REQUEST];
        let request = &mut room[..length];
        if read_full(input, request)? < length {
            return Ok(false);
        }
        let told = call(self.script.bytes(), self.net.bytes_mut(), request);
        let sum = crc(self.net.bytes());
        println!(rt; "C {told} {sum:08x}")?;
        Ok(true)
    }

    // The finder, of the process with the key that a byte gives; whether it was there.
    fn ask_find(&self, rt: &impl Print, input: &mut impl Read) -> io::Result<bool> {
        let mut key = [0u8; 1];
        if read_full(input, &mut key)? < key.len() {
            return Ok(false);
        }
        print_found(rt, 'F', find(self.script.bytes(), self.net.bytes(), key[0]))?;
        Ok(true)
    }

    fn ask_free_key(&self, rt: &impl Print) -> io::Result<bool> {
        print_found(rt, 'K', free_key(self.script.bytes(), self.net.bytes()))?;
        Ok(true)
    }

    fn ask_free_locality(&self, rt: &impl Print) -> io::Result<bool> {
        let found = free_locality(self.script.bytes(), self.net.bytes());
        print_found(rt, 'L', found)?;
        Ok(true)
    }

    // One item; whether there may be more.
    fn take(&mut self, rt: &impl Print, input: &mut impl Read, what: u8) -> io::Result<bool> {
        match what {
            b'S' => self.script.read(input),
            b'N' => {
                let there = self.net.read(input)?;
                self.base = self.net;
                Ok(there)
            }
            b'P' => self.patch(input),
            b'B' => {
                self.net = self.base;
                Ok(true)
            }
            b'C' => self.ask_call(rt, input),
            b'F' => self.ask_find(rt, input),
            b'K' => self.ask_free_key(rt),
            b'L' => self.ask_free_locality(rt),
            _ => Ok(false),
        }
    }
}

fn main(rt: HostRuntime) -> io::Result<()> {
    let mut input = rt.stdin();
    let mut items = Items::new();
    let mut what = [0u8; 1];
    for _ in 0..ITEMS {
        if read_full(&mut input, &mut what)? < what.len() {
            return Ok(());
        }
        if !items.take(&rt, &mut input, what[0])? {
            return Ok(());
        }
    }
    Ok(())
}
