// The finder and the helpers of document 01, on the bytes of a script and a net: which tuple a process at an in or a read would meet, and which
// names are left for a step to make. Nothing is changed by asking. Script and net are two parameters, as C lends them.
#![tactic(auto)]

ghost use Rattle.std.specs.Prelude.{◌≡◌};
ghost use Rattle.names.specs.Names.{none, key};
ghost use Rattle.images.specs.Read.{action_of, slot_of, script_of, net_of};
ghost use Rattle.finder.specs.Finder.{found, found_of};
ghost use Rattle.finder.specs.Helpers.{free_key, absent_locality};
ghost use Rattle.finder.specs.Searched.{meets_at, meets_in, searched, found_at};

use images::net_image::{NetBytes, SlotBytes, is_free, present_in, slot_at, slot_bytes, slot_of};
use images::script_image::{NodeBytes, ScriptBytes, action_of, node_bytes};
use images::{Datum, Slot};
use matching::match_tuple;
use names::{Key, Localities, Locality, NONE, Name, NameSet, Node, Variable};
use products::{evaluable, meets_tuple, target_there};
use requests::Answer;

// The answer, and the name that was found; none where there is none. No Result: answer 0 stands with none too, where none is left, and document 01
// says which name a refusal has.
#[derive(Clone, Copy)]
pub struct Found<N> {
    pub answer: Answer,
    pub name: N,
}

// ---- the finder

// "A refusal returns key 255".
fn refused(answer: Answer) -> Found<Key>
    ensures { result ≡ found answer (key none) }
{
    Found {
        answer,
        name: Key::NONE,
    }
}

// A live tuple that is here and matches. Most slots hold none: nothing more is looked at of these.
#[tactic(auto, unfolding(crate::specs::Searched::meets_at, matching::specs::Match::match_of))]
fn meets_at(
    vars: [Datum; Variable::COUNT],
    node: &NodeBytes,
    at: Locality,
    tuple: &SlotBytes,
) -> bool
    ensures { result ≡ meets_at (action_of node.now) vars at (slot_of tuple.now) }
{
    let t = slot_of(tuple);
    t.kind == Slot::TUPLE && t.locality == at && match_tuple(vars, node, tuple).is_ok()
}

// 9: "exactly when no such tuple exists"; otherwise the least key of one.
fn search(
    vars: [Datum; Variable::COUNT],
    node: &NodeBytes,
    at: Locality,
    net: &NetBytes,
) -> Found<Key>
    ensures { result ≡ searched (meets_in (action_of node.now) vars at (net_of net.now)) }
{
    let met = (0..Key::LIMIT).find(|t| meets_at(vars, node, at, slot_bytes(net, *t as usize)));
    let Some(t) = met else {
        return refused(Answer::NoTuple);
    };
    Found {
        answer: Answer::Done,
        name: Key(t),
    }
}

// Checks 5, 7 and 8, and the search, of the live process x at this node.
fn find_at(node: &NodeBytes, x: Slot, net: &NetBytes) -> Found<Key>
    ensures { result ≡ found_at (action_of node.now) x (net_of net.now) }
{
    let a = action_of(node);
    if !meets_tuple(a.kind) {
        return refused(Answer::WrongNode);
    }
    let Some(at) = evaluable(x.contents, x.locality, node) else {
        return refused(Answer::Unset);
    };
    if !target_there(a.kind, present_in(net), at) {
        return refused(Answer::TargetAbsent);
    }
    search(x.contents, node, at, net)
}

// Any images of their lengths, and any key: document 01's answer from check 3 on, and "the least key of a live tuple at the target that matches".
pub fn find(script: &ScriptBytes, net: &NetBytes, key: Key) -> Found<Key>
    ensures { result ≡ found_of (script_of script.now) (net_of net.now) key }
{
    let Some(k) = Key::of_byte(key.0) else {
        return refused(Answer::BadRequest);
    };
    let x = slot_at(net, k.0 as usize);
    if x.kind != Slot::LIVE {
        return refused(Answer::WrongProcess);
    }
    let Some(node) = Node::of_byte(x.node.0) else {
        return refused(Answer::WrongNode);
    };
    find_at(node_bytes(script, node.0 as usize), x, net)
}

// ---- the helpers

// "the least free key"; none exactly when none is left.
pub fn free_key(net: &NetBytes) -> Key
    ensures { result ≡ free_key (net_of net.now) }
{
    let free = (0..Key::LIMIT).find(|k| is_free(slot_at(net, *k as usize)));
    Key(free.unwrap_or(NONE))
}

// "least absent locality from 8": those below are never made. None exactly when none is left.
pub fn absent_locality(present: Localities) -> Locality
    ensures { result ≡ absent_locality present }
{
    let absent = (Locality::FIRST_MADE..Locality::LIMIT).find(|l| !present.has(Locality(*l)));
    Locality(absent.unwrap_or(NONE))
}
