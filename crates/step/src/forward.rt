// A forward step: the checks in their order, and what the rule makes, written where it belongs.
ghost use Rattle.std.specs.Prelude.{◌≡◌, true, Ok};
ghost use Rattle.images.specs.Net.{slot_with};
ghost use Rattle.images.specs.InPlace.{slot_put, present_put};
ghost use Rattle.images.specs.Read.{action_of, script_of, net_of};
ghost use Rattle.requests.specs.Answers.{in_range};
ghost use Rattle.requests.specs.Requests.{asked};
ghost use Rattle.step.specs.Lent.{Lent, told, lent_after};
ghost use Rattle.step.specs.Forward.{past_slot, present_after, forward_in, forward_outcome};
ghost use Rattle.step.specs.InPlace.{put_bytes, change_bytes};
ghost use Rattle.step.specs.Allowed.{allowed_by};
ghost use Rattle.step.specs.Next.{refer_put, bound_place, next_put, bound_next, second_put, taken_put};

use super::as_new;
use super::checks::{acts, is_live, names_fresh, places_given, template_met, tuple_there};
use images::net_image::{
    NetBytes, present_in, put_keeping, put_present, put_reference, put_slot, put_variable, slot_at,
    slot_in,
};
use images::script_image::{NodeBytes, ScriptBytes, action_of, node_bytes};
use images::{Action, Slot};
use matching::bind_in;
use names::{Localities, Locality, Name, NameSet, Reference, Variable};
use products::{
    evaluable, live_process, made_datum, makes_second, meets_tuple, process_made, target_there,
    tuple_made,
};
use requests::{Answer, Request, Told, refused};

// ---- the checks

// Checks 4 to 11, of the process with the request's key at this node: where the step acts, or the answer of the first that does not hold.
#[tactic(auto, using(crate::specs::Allowed::finding))]
fn forward_found(node: &NodeBytes, net: &NetBytes, r: Request) -> Result<Locality, Answer>
    requires { in_range (asked r) ≡ true }
    ensures { result ≡ allowed_by (action_of node.now) (net_of net.now) r }
{
    let a = action_of(node);
    let x = slot_at(net, r.key.0 as usize);
    if !is_live(x) {
        return Err(Answer::WrongProcess);
    }
    if !acts(a) {
        return Err(Answer::WrongNode);
    }
    if !places_given(a.kind, r) {
        return Err(Answer::WrongPlaces);
    }
    // The variables are handed on as a value of their own: out of the slot they are stored part by part.
    let vars = x.contents;
    let Some(at) = evaluable(vars, x.locality, node) else {
        return Err(Answer::Unset);
    };
    if !target_there(a.kind, present_in(net), at) {
        return Err(Answer::TargetAbsent);
    }
    if !tuple_there(a.kind, net, r.used, at) {
        return Err(Answer::NoTuple);
    }
    let Ok(()) = template_met(vars, node, net, r.used) else {
        return Err(Answer::NoMatch);
    };
    if !names_fresh(a.kind, net, r) {
        return Err(Answer::NotFresh);
    }
    Ok(at)
}

// ---- what the rule makes

// The process becomes past and keeps its contents.
fn past_slot(x: Slot, r: Request) -> Slot
    ensures { result ≡ past_slot x r }
{
    Slot {
        kind: Slot::PAST,
        first: r.first,
        second: r.second,
        used: r.used,
        place: r.place,
        ..x
    }
}

fn put_event(r: Request, net: &mut NetBytes)
    ensures { net.new ≡ slot_put r.key (past_slot (slot_with (net_of net.old) r.key) r) net.old }
{
    let x = slot_in(net, r.key);
    put_keeping(r.key, past_slot(x, r), net);
}

// "the node's reference, if any, takes the old key"
#[tactic(auto, unfolding(crate::specs::Next::refer_put))]
fn refer(a: Action, r: Request, net: &mut NetBytes)
    ensures { net.new ≡ refer_put a r net.old }
{
    if a.reference.0 < Reference::LIMIT {
        put_reference(r.first, a.reference, r.key, net);
    }
}

// "newloc binds its variable"
#[tactic(auto, unfolding(crate::specs::Next::bound_place))]
fn bind_place(a: Action, r: Request, net: &mut NetBytes)
    ensures { net.new ≡ bound_place a r net.old }
{
    if let Some(v) = Variable::of_number(a.target.number) {
        put_variable(r.first, v, made_datum(r.place), net);
    }
}

// The continuation: the record as it is, at the next node, and its reference.
#[tactic(auto, unfolding(crate::specs::Next::next_put))]
fn put_next(node: &NodeBytes, r: Request, net: &mut NetBytes)
    ensures { net.new ≡ next_put (action_of node.now) r net.old }
{
    let a = action_of(node);
    let x = slot_in(net, r.key);
    let contents = x.contents;
    let refs = x.refs;
    let same = live_process(x.locality, a.next, contents, refs);
    put_slot(r.first, same, net);
    refer(a, r, net);
}

// "an in or read binds its formals, newloc binds its variable"
#[tactic(auto, unfolding(crate::specs::Next::bound_next))]
fn bind_next(node: &NodeBytes, r: Request, net: &mut NetBytes)
    ensures { net.new ≡ bound_next (action_of node.now) r net.old }
{
    let a = action_of(node);
    if meets_tuple(a.kind) {
        let t = slot_in(net, r.used);
        let met = t.contents;
        bind_in(node, met, r.first, net);
    } else if a.kind == Action::NEWLOC {
        bind_place(a, r, net);
    }
}

// What an out, an eval or a split makes besides, where the step acts.
#[tactic(auto, using(crate::specs::Next::seconds), unfolding(crate::specs::Next::second_put))]
fn put_second(node: &NodeBytes, r: Request, at: Locality, net: &mut NetBytes)
    ensures { net.new ≡ put_bytes (second_put (action_of node.now) (slot_with (net_of net.old) r.key) at r) net.old }
{
    let a = action_of(node);
    if !makes_second(a.kind) {
        return;
    }
    let x = slot_in(net, r.key);
    // Two calls of put_slot, and not one of second_made: a slot that comes by two ways is copied once more.
    if a.kind == Action::OUT {
        let vars = x.contents;
        put_slot(r.second, tuple_made(a, vars, at), net);
    } else {
        put_slot(r.second, process_made(a, x, at), net);
    }
}

// The tuple that an in takes becomes consumed.
#[tactic(auto, using(crate::specs::Next::puts_nothing), unfolding(crate::specs::Next::taken_put))]
fn put_taken(node: &NodeBytes, r: Request, net: &mut NetBytes)
    ensures { net.new ≡ put_bytes (taken_put (action_of node.now) (slot_with (net_of net.old) r.used) r) net.old }
{
    if action_of(node).kind == Action::IN {
        let t = slot_in(net, r.used);
        put_keeping(r.used, as_new(Slot::CONSUMED, t), net);
    }
}

// Beside `present_before` of the way back: one function over both would take `with` or `without` as a parameter, and be no plainer.
#[tactic(auto, unfolding(crate::specs::Forward::present_after))]
fn present_after(kind: u8, present: Localities, l: Locality) -> Localities
    ensures { result ≡ present_after kind present l }
{
    if kind == Action::NEWLOC && l.is_name() {
        present.with(l)
    } else {
        present
    }
}

// "the new locality, now present"
fn put_made(node: &NodeBytes, r: Request, net: &mut NetBytes)
    ensures { net.new ≡ present_put (present_after (action_of node.now).kind (net_of net.old).present r.place) net.old }
{
    let a = action_of(node);
    let after = present_after(a.kind, present_in(net), r.place);
    put_present(after, net);
}

// The step of the process with the request's key at this node, which acts here: no check refuses it.
fn write_forward(node: &NodeBytes, r: Request, at: Locality, net: &mut NetBytes)
    requires in_form { in_range (asked r) ≡ true }
    requires allowed { allowed_by (action_of node.now) (net_of net.old) r ≡ Ok at }
    ensures { net.new ≡ change_bytes (forward_in (action_of node.now) (net_of net.old) r) net.old }
{
    put_event(r, net);
    put_next(node, r, net);
    bind_next(node, r, net);
    put_second(node, r, at, net);
    put_taken(node, r, net);
    put_made(node, r, net);
}

// ---- the step

// Code 0, on images that are good. A refusal writes nothing.
pub fn forward(script: &ScriptBytes, net: &mut NetBytes, r: Request) -> Told
    requires { Lent script.now net.old × (in_range (asked r) ≡ true) }
    ensures value { result ≡ told (forward_outcome (script_of script.now) (net_of net.old) r) }
    ensures net_after { net.new ≡ lent_after (forward_outcome (script_of script.now) (net_of net.old) r) net.old }
{
    let x = slot_in(net, r.key);
    let node = node_bytes(script, x.node.0 as usize);
    match forward_found(node, net, r) {
        Err(answer) => refused(answer),
        Ok(at) => {
            write_forward(node, r, at, net);
            Told {
                answer: Answer::Done,
                undone: 0,
                touched: Localities::EMPTY,
            }
        }
    }
}
