// Holds acceptance and single steps against the second program. Standard input is a stream of trials (docs/REFERENCE.md): 'S' a script, 'N' a
// net, 'P' a change of one byte of the net, 'B' the net as it was given, 'V' whether it is accepted, 'R' a request. Each 'V' and 'R' prints
// a line: the answer, and of a request also undone, touched, and the check sum of the net's bytes after it.
#![tactic(auto)]

use check_sum::crc;
use images::net_image::{self, NetBytes};
use images::script_image::{self, ScriptBytes};
use machine::{call, image_answer};
use requests::Request;
use std::io::{self, Read};
use streams::read_full;

// More trials than a stream has.
const TRIALS: usize = 4194304;

// What trials are made on. The stream is read as in `calls`, whose items are others.
#[derive(Drop)]
struct Trials {
    script: ScriptBytes,
    net: NetBytes,
    // The net as it was given.
    base: NetBytes,
}

impl Trials {
    fn new() -> Trials {
        Trials {
            script: [0; script_image::SIZE],
            net: [0; net_image::SIZE],
            base: [0; net_image::SIZE],
        }
    }

    // A change of one byte; one past the net's end changes nothing.
    fn patch(&mut self, input: &mut impl Read) -> io::Result<()> {
        let mut change = [0u8; 3];
        if read_full(input, &mut change)? == change.len() {
            let at = u16::from_le_bytes([change[0], change[1]]) as usize;
            if let Some(place) = self.net.get_mut(at) {
                *place = change[2];
            }
        }
        Ok(())
    }

    fn print_verdict(&self, rt: &impl Print) -> io::Result<()> {
        let answer = u8::from(image_answer(&self.script, &self.net));
        println!(rt; "V {answer}")
    }

    fn ask(&mut self, rt: &impl Print, input: &mut impl Read) -> io::Result<()> {
        let mut request = [0u8; Request::SIZE];
        if read_full(input, &mut request)? < request.len() {
            return Ok(());
        }
        let told = call(&self.script, &mut self.net, &request);
        let sum = crc(&self.net);
        println!(rt; "R {told} {sum:08x}")
    }

    // One trial; whether there may be more.
    fn make(&mut self, rt: &impl Print, input: &mut impl Read, what: u8) -> io::Result<bool> {
        match what {
            b'S' => return Ok(read_full(input, &mut self.script)? == self.script.len()),
            b'N' => {
                let got = read_full(input, &mut self.net)?;
                self.base.copy_from_slice(&self.net);
                return Ok(got == self.net.len());
            }
            b'P' => self.patch(input)?,
            b'B' => self.net.copy_from_slice(&self.base),
            b'V' => self.print_verdict(rt)?,
            b'R' => self.ask(rt, input)?,
            _ => return Ok(false),
        }
        Ok(true)
    }
}

fn main(rt: HostRuntime) -> io::Result<()> {
    let mut input = rt.stdin();
    let mut trials = Trials::new();
    let mut what = [0u8; 1];
    for _ in 0..TRIALS {
        if read_full(&mut input, &mut what)? < what.len() {
            return Ok(());
        }
        if !trials.make(&rt, &mut input, what[0])? {
            return Ok(());
        }
    }
    Ok(())
}
