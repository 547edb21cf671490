// An event and its rule: the rule applies, and what the event made is what the rule makes, but for what happened to it since. Script and net are
// two parameters, as C lends them; kinds are the numbers that nodes and slots hold (`images`).
#![tactic(auto)]

ghost use Rattle.std.specs.Prelude.{◌≡◌, ◌<◌, eqb};
ghost use Rattle.laws.specs.Choice.{pick};
ghost use Rattle.laws.specs.Checks.{all};
ghost use Rattle.names.specs.Names.{key_count, none};
ghost use Rattle.images.specs.Net.{slot_at, slot_with};
ghost use Rattle.images.specs.Read.{action_of, net_of, script_of};
ghost use Rattle.agreement.specs.Agreement.{placed_by, is_tuple, tuple_fits, same_record, stands_as, first_stands, agrees_at, slot_agrees};
ghost use Rattle.agreement.specs.Looked.{applies_at, second_stands_at, agrees_in};

use images::net_image::{NetBytes, made_are, present_in, slot_at, slot_bytes, slot_in, slot_of};
use images::script_image::{NodeBytes, ScriptBytes, action_of, node_bytes};
use images::{Action, Slot};
use matching::match_tuple;
use names::{Key, Locality, NONE, Name};
use products::{
    continuation, evaluable, is_step, makes_second, meets_tuple, second_made, target_there,
};
use rules::is_makeable;

// ---- the places of an event

// What the kind of an event needs is named there, and elsewhere stands the mark for none.
fn as_needed(need: bool, is_named: bool, b: u8) -> bool
    ensures { result ≡ pick need is_named (eqb b none) }
{
    if need { is_named } else { b == NONE }
}

// An event holds what its kind makes and uses, and none where it does neither; its two keys are not one.
#[tactic(auto, unfolding(crate::specs::Agreement::placed_by))]
fn places_right(kind: u8, x: Slot) -> bool
    ensures { result ≡ placed_by kind x }
{
    x.first.is_name()
        && as_needed(makes_second(kind), x.second.is_name(), x.second.0)
        && x.first != x.second
        && as_needed(meets_tuple(kind), x.used.is_name(), x.used.0)
        && as_needed(kind == Action::NEWLOC, is_makeable(x.place), x.place.0)
}

// ---- its rule

fn is_tuple(t: Slot) -> bool
    ensures { result ≡ is_tuple t }
{
    t.kind == Slot::TUPLE || t.kind == Slot::CONSUMED
}

// The tuple that the event used is one, live or consumed since, where the event acted, and matches.
fn tuple_fits(node: &NodeBytes, x: Slot, at: Locality, net: &NetBytes) -> bool
    ensures { result ≡ tuple_fits (action_of node.now) x.contents at (slot_with (net_of net.now) x.used) }
{
    if !x.used.is_name() {
        return false;
    }
    let tuple = slot_bytes(net, x.used.0 as usize);
    let t = slot_of(tuple);
    if !is_tuple(t) || t.locality != at {
        return false;
    }
    let vars = x.contents;
    let Ok(()) = match_tuple(vars, node, tuple) else {
        return false;
    };
    true
}

// The rule of the event's node applies to what the event says of itself; the event acted here.
#[tactic(auto, unfolding(crate::specs::Looked::applies_at))]
fn rule_applies(node: &NodeBytes, x: Slot, at: Locality, net: &NetBytes) -> bool
    ensures { result ≡ applies_at (action_of node.now) x at (net_of net.now) }
{
    let a = action_of(node);
    is_step(a.kind)
        && places_right(a.kind, x)
        && target_there(a.kind, present_in(net), at)
        && (!meets_tuple(a.kind) || tuple_fits(node, x, at, net))
}

// ---- what it made

// All that never changes while a key is held.
fn same_record(x: Slot, y: Slot) -> bool
    ensures { result ≡ same_record x y }
{
    x.locality == y.locality
        && x.node == y.node
        && x.count == y.count
        && x.contents == y.contents
        && x.refs == y.refs
}

// What was made is there as it was made, or past or consumed since.
#[tactic(auto, unfolding(crate::specs::Agreement::stands_as))]
fn stands_as(x: Slot, made: Slot, since: u8) -> bool
    ensures { result ≡ stands_as x made since }
{
    if !same_record(x, made) {
        false
    } else if x.kind == made.kind {
        made_are(NONE, x)
    } else {
        x.kind == since
    }
}

// What follows the event, from the fields of the tuple that it used.
fn first_stands(a: Action, k: Key, x: Slot, net: &NetBytes) -> bool
    ensures { result ≡ first_stands a k x (slot_with (net_of net.now) x.used) (slot_with (net_of net.now) x.first) }
{
    let t = slot_in(net, x.used);
    let fields = t.contents;
    let next = continuation(a, k, x, fields);
    let first = slot_in(net, x.first);
    stands_as(first, next, Slot::PAST)
}

// The second thing made, where the kind makes one: there where the event acted.
#[tactic(auto, unfolding(crate::specs::Looked::second_stands_at))]
fn second_stands(a: Action, x: Slot, at: Locality, net: &NetBytes) -> bool
    ensures { result ≡ second_stands_at a x at (slot_with (net_of net.now) x.second) }
{
    if !makes_second(a.kind) {
        return true;
    }
    let second = slot_in(net, x.second);
    let made = second_made(a, x, at);
    if a.kind == Action::OUT {
        return stands_as(second, made, Slot::CONSUMED);
    }
    stands_as(second, made, Slot::PAST)
}

// ---- the events of a net

// The event x with this key agrees with the rule of its node. Where it acted is found once.
fn step_agrees(node: &NodeBytes, k: Key, x: Slot, net: &NetBytes) -> bool
    ensures { result ≡ agrees_in (action_of node.now) k x (net_of net.now) }
{
    // The variables are handed on as a value of their own: out of the slot they are stored part by part.
    let vars = x.contents;
    let Some(at) = evaluable(vars, x.locality, node) else {
        return false;
    };
    let a = action_of(node);
    rule_applies(node, x, at, net) && first_stands(a, k, x, net) && second_stands(a, x, at, net)
}

// The event with this key agrees with its rule. What is at no node took no step.
fn event_agrees(script: &ScriptBytes, net: &NetBytes, k: Key) -> bool
    requires { k.0 < key_count }
    ensures { result ≡ agrees_at (script_of script.now) (net_of net.now) k (slot_at (net_of net.now) k.0) }
{
    let x = slot_at(net, k.0 as usize);
    x.node.is_name() && step_agrees(node_bytes(script, x.node.0 as usize), k, x, net)
}

// Each past record and what it made agree with its rule. Of a slot that holds no event only the kind is looked at.
pub fn events_agree(script: &ScriptBytes, net: &NetBytes) -> bool
    ensures { result ≡ all key_count (slot_agrees (script_of script.now) (net_of net.now)) }
{
    for k in 0..Key::LIMIT {
        let x = slot_at(net, k as usize);
        if x.kind == Slot::PAST && !event_agrees(script, net, Key(k)) {
            return false;
        }
    }
    true
}
