// A backward step: the checks in their order, and what the event made taken back. The undoing of one event is what a rollback stands on.
ghost use Rattle.std.specs.Prelude.{◌≡◌};
ghost use Rattle.images.specs.Net.{slot_with};
ghost use Rattle.images.specs.Read.{script_of, net_of};
ghost use Rattle.nets.specs.Undo.{Undoable};
ghost use Rattle.rules.specs.View.{view};
ghost use Rattle.step.specs.Lent.{Lent, told, lent_after};
ghost use Rattle.step.specs.Way.{Least, took, user_of, taker_of, way_of};
ghost use Rattle.step.specs.Backward.{present_before, freed_at, back_put, undone_at, backward_outcome};
ghost use Rattle.step.specs.InPlace.{put_bytes, change_bytes};

use super::as_new;
use super::checks::{is_past, none_placed};
use images::net_image::{
    NetBytes, free_slot, kind_in, locality_in, present_in, put_keeping, put_present, put_slot,
    slot_at, slot_in, used_in,
};
use images::script_image::{ScriptBytes, node_in};
use images::{Action, Slot};
use names::{Key, Localities, Locality, Name, NameSet};
use requests::{Answer, Request, Told, refused};

// ---- 12: whether the event may be undone

// The least key that passes the test.
fn least_key<F: Fn(Key) -> bool>(passes: F) -> Option<Key>
    requires { F.IsAlwaysCallable passes }
    ensures { Least (F.post passes) result }
{
    for i in 0..Key::LIMIT {
        let k = Key(i);
        if passes(k) {
            return Some(k);
        }
    }
    None
}

// An event that used this tuple. Few slots name it, so that is asked first.
fn user_of(net: &NetBytes, t: Key) -> Option<Key>
    ensures { result ≡ user_of (net_of net.now) t }
{
    least_key(|k| used_in(net, k) == t && kind_in(net, k) == Slot::PAST)
}

// The event that took this tuple.
fn taker_of(script: &ScriptBytes, net: &NetBytes, t: Key) -> Option<Key>
    ensures { result ≡ taker_of (script_of script.now) (net_of net.now) t }
{
    least_key(|k| used_in(net, k) == t && took(script, net, k))
}

// Whether the slot with this key holds an event at an in.
fn took(script: &ScriptBytes, net: &NetBytes, k: Key) -> bool
    ensures { result ≡ took (script_of script.now) (slot_with (net_of net.now) k) }
{
    let x = slot_in(net, k);
    x.kind == Slot::PAST && node_in(script, x.node).kind == Action::IN
}

// What stands in the way of undoing an event: one that it made and that went on, one that used the tuple that it put out, or, for a read, the one
// that took the tuple since.
#[tactic(auto, unfolding(crate::specs::Way::way_of))]
pub fn in_the_way(script: &ScriptBytes, net: &NetBytes, k: Key) -> Option<Key>
    ensures { result ≡ way_of (script_of script.now) (net_of net.now) k }
{
    let x = slot_in(net, k);
    if kind_in(net, x.first) == Slot::PAST {
        return Some(x.first);
    }
    if x.second.is_name() {
        return match kind_in(net, x.second) {
            Slot::LIVE => None,
            Slot::PAST => Some(x.second),
            _ => user_of(net, x.second),
        };
    }
    if node_in(script, x.node).kind == Action::READ && kind_in(net, x.used) == Slot::CONSUMED {
        return taker_of(script, net, x.used);
    }
    None
}

// ---- what the event made is taken back

#[tactic(auto, unfolding(crate::specs::Backward::present_before))]
fn present_before(kind: u8, present: Localities, l: Locality) -> Localities
    ensures { result ≡ present_before kind present l }
{
    if kind == Action::NEWLOC && l.is_name() {
        present.without(l)
    } else {
        present
    }
}

// The localities with that of the record at this key, which becomes free.
#[tactic(auto, unfolding(crate::specs::Backward::freed_at))]
fn freed_at(set: Localities, net: &NetBytes, k: Key) -> Localities
    ensures { result ≡ freed_at set k (slot_with (net_of net.now) k) }
{
    let l = locality_in(net, k);
    if k.is_name() && l.is_name() {
        set.with(l)
    } else {
        set
    }
}

// The second thing made becomes free, or the tuple that an in took is live again.
#[tactic(auto, unfolding(crate::specs::Backward::back_put, images::specs::InPlace::slot_put))]
fn put_back(kind: u8, second: Key, used: Key, net: &mut NetBytes)
    ensures { net.new ≡ put_bytes (back_put kind second used (slot_with (net_of net.old) used)) net.old }
{
    if second.is_name() {
        put_slot(second, free_slot(), net);
    } else if kind == Action::IN {
        let t = slot_in(net, used);
        put_keeping(used, as_new(Slot::TUPLE, t), net);
    }
}

// Undoes the event with this key, which may be undone. The localities at which a slot becomes free.
pub fn undo(script: &ScriptBytes, net: &mut NetBytes, k: Key) -> Localities
    requires { Lent script.now net.old × Undoable (view (script_of script.now) (net_of net.old)) k.0 }
    ensures value { result ≡ (undone_at (script_of script.now) (net_of net.old) k).touched }
    ensures net_after { net.new ≡ change_bytes (undone_at (script_of script.now) (net_of net.old) k) net.old }
{
    let x = slot_at(net, k.0 as usize);
    let a = node_in(script, x.node);
    let one = freed_at(Localities::EMPTY, net, x.first);
    let touched = freed_at(one, net, x.second);
    put_keeping(k, as_new(Slot::LIVE, x), net);
    put_slot(x.first, free_slot(), net);
    put_back(a.kind, x.second, x.used, net);
    let before = present_before(a.kind, present_in(net), x.place);
    put_present(before, net);
    touched
}

// ---- the step

// Code 1, on images that are good. A refusal writes nothing.
pub fn backward(script: &ScriptBytes, net: &mut NetBytes, r: Request) -> Told
    requires { Lent script.now net.old }
    ensures value { result ≡ told (backward_outcome (script_of script.now) (net_of net.old) r) }
    ensures net_after { net.new ≡ lent_after (backward_outcome (script_of script.now) (net_of net.old) r) net.old }
{
    if !is_past(slot_in(net, r.key)) {
        return refused(Answer::WrongProcess);
    }
    if !none_placed(r) {
        return refused(Answer::WrongPlaces);
    }
    let None = in_the_way(script, net, r.key) else {
        return refused(Answer::NotUndoable);
    };
    let touched = undo(script, net, r.key);
    Told {
        answer: Answer::Done,
        undone: 1,
        touched,
    }
}
