// Holds the form of images against the second program. Standard input: a script, a net, and cases of four bytes. A case changes one
// byte of the script ('S') or the net ('N'), or takes only so many bytes of it ('s', 'n'; one more than it has is allowed, and is 0).
// Each case prints a line: the case, and whether what it makes has the form. A net that has it must be written as it was read.
#![tactic(auto)]

ghost use Rattle.std.specs.Prelude.{◌≤◌, length};

use images::net_image::{self, read_net, write_net};
use images::script_image::{self, read_script};
use std::io::{self, Read};
use streams::read_full;

// One byte more than an image has, which stays 0.
const SCRIPT_ROOM: usize = script_image::SIZE + 1;

const NET_ROOM: usize = net_image::SIZE + 1;

const CASE: usize = 4;

// More cases than a stream has.
const CASES: usize = 65536;

// ---- whether bytes have the form

fn script_has_form(b: &[u8]) -> bool {
    read_script(b).is_some()
}

fn net_has_form(b: &[u8]) -> bool {
    let Some(net) = read_net(b) else {
        return false;
    };
    let mut again = [0u8; net_image::SIZE];
    write_net(net, &mut again).is_ok() && b == again.as_slice()
}

// ---- what a case makes of an image: its bytes, and one more

// The image with one byte changed; it is changed back.
fn changed<F: Fn(&[u8]) -> bool>(image: &mut [u8], at: usize, value: u8, has_form: F) -> bool
    requires { F.IsAlwaysCallable has_form }
{
    let Some(old) = image.get(at).copied() else {
        return false;
    };
    image[at] = value;
    let good = has_form(&image[..image.len() - 1]);
    image[at] = old;
    good
}

// The first so many bytes of it.
fn cut<F: Fn(&[u8]) -> bool>(image: &[u8], length: usize, has_form: F) -> bool
    requires { F.IsAlwaysCallable has_form }
{
    let Some(part) = image.get(..length) else {
        return false;
    };
    has_form(part)
}

#[derive(Drop)]
struct Images {
    script: [u8; SCRIPT_ROOM],
    net: [u8; NET_ROOM],
}

// What is made, at which byte or of which length, and of which value.
#[derive(Clone, Copy)]
struct Case {
    what: u8,
    at: usize,
    value: u8,
}

impl Case {
    fn of_bytes(b: [u8; CASE]) -> Case {
        Case {
            what: b[0],
            at: u16::from_le_bytes([b[1], b[2]]) as usize,
            value: b[3],
        }
    }

    // Whether what it makes has the form.
    fn verdict(&self, images: &mut Images) -> bool {
        match self.what {
            b'S' => changed(&mut images.script, self.at, self.value, script_has_form),
            b'N' => changed(&mut images.net, self.at, self.value, net_has_form),
            b's' => cut(&images.script, self.at, script_has_form),
            _ => cut(&images.net, self.at, net_has_form),
        }
    }

    // The first byte of a case may be any, so it is written as it is.
    fn print(&self, rt: &impl Print, good: bool) -> io::Result<()> {
        rt.write_all(&[self.what])?;
        let form = if good { "form" } else { "no form" };
        println!(rt; " {} {} {form}", self.at, self.value)
    }
}

fn main(rt: HostRuntime) -> io::Result<()> {
    let mut input = rt.stdin();
    let mut images = Images {
        script: [0; SCRIPT_ROOM],
        net: [0; NET_ROOM],
    };
    read_full(&mut input, &mut images.script[..script_image::SIZE])?;
    read_full(&mut input, &mut images.net[..net_image::SIZE])?;
    let mut bytes = [0u8; CASE];
    for _ in 0..CASES {
        if read_full(&mut input, &mut bytes)? < bytes.len() {
            return Ok(());
        }
        let case = Case::of_bytes(bytes);
        let good = case.verdict(&mut images);
        case.print(&rt, good)?;
    }
    Ok(())
}
