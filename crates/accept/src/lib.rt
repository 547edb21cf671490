// Which nets are accepted, for images of a script and a net that have their form; both are looked at where they stand. One function a
// clause, in the order of document 01's paragraph; what events made and used is found once, and the last clause, that dependence has no
// cycle, asks the crate below. Script and net are two parameters, as C lends them.
#![tactic(auto)]

ghost use Rattle.std.specs.Prelude.{◌≡◌};
ghost use Rattle.images.specs.Read.{script_of, net_of};
ghost use Rattle.accept.specs.Verdict.{verdict_of};

use agreement::events_agree;
use cycles::has_no_cycle;
use images::net_image::{NetBytes, present_in};
use images::script_image::ScriptBytes;
use traces::{deeds_of, events_of, keys_made, localities_made, rows_of, tuples_taken};
use whole::{localities_right, roots_right, tuples_right};

pub mod whole;

// Why a net is not accepted: the first clause that does not hold.
#[derive(Clone, Copy, PartialEq, Eq)]
pub enum Fault {
    // A past record, or what it made, does not agree with its rule.
    Disagrees,
    // A key or a locality is made twice, or a tuple taken twice.
    Twice,
    // A consumed tuple was not taken, or a taken one is live.
    WrongTuple,
    // A locality 8..31 is present and not made, or made and absent.
    WrongLocality,
    // A record that nobody made lives, names or holds what it may not.
    WrongRoot,
    // Something depends on itself.
    Cycle,
}

pub fn accept(script: &ScriptBytes, net: &NetBytes) -> Result<(), Fault>
    ensures { result ≡ verdict_of (script_of script.now) (net_of net.now) }
{
    if !events_agree(script, net) {
        return Err(Fault::Disagrees);
    }
    let deeds = deeds_of(script, net);
    let made = keys_made(net);
    let places = localities_made(deeds, net);
    let taken = tuples_taken(deeds, net);
    if !(made.once && places.once && taken.once) {
        return Err(Fault::Twice);
    }
    if !tuples_right(deeds, net, taken.names) {
        return Err(Fault::WrongTuple);
    }
    if !localities_right(present_in(net), places.names) {
        return Err(Fault::WrongLocality);
    }
    if !roots_right(net, made.names) {
        return Err(Fault::WrongRoot);
    }
    let events = events_of(net);
    let rows = rows_of(deeds, net, events);
    if !has_no_cycle(rows, events) {
        return Err(Fault::Cycle);
    }
    Ok(())
}
