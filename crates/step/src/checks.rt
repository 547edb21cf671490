// The checks of document 01's table, each by a function that answers whether it holds.
ghost use Rattle.std.specs.Prelude.{◌≡◌, true, eqb};
ghost use Rattle.names.specs.Names.{is_key};
ghost use Rattle.images.specs.Net.{is_free, slot_with};
ghost use Rattle.images.specs.Read.{action_of, net_of};
ghost use Rattle.requests.specs.Answers.{as_needed, no_places};
ghost use Rattle.requests.specs.Requests.{asked};
ghost use Rattle.products.specs.Products.{is_step, meets_tuple};
ghost use Rattle.step.specs.Tests.{places_by, tuple_there, template_answer, second_fresh, place_fresh, names_fresh};

use images::net_image::{NetBytes, kind_in, locality_in, present_in, slot_bytes};
use images::script_image::{NodeBytes, action_of};
use images::{Action, Datum, Slot};
use matching::{Mismatch, match_tuple};
use names::{Key, Localities, Locality, NONE, Name, NameSet, Variable};
use products::{is_step, makes_second, meets_tuple};
use requests::Request;
use rules::is_makeable;

// ---- 4 and 5: the process and its node

pub fn is_live(x: Slot) -> bool
    ensures { result ≡ eqb x.kind 1 }
{
    x.kind == Slot::LIVE
}

pub fn is_past(x: Slot) -> bool
    ensures { result ≡ eqb x.kind 2 }
{
    x.kind == Slot::PAST
}

pub fn acts(a: Action) -> bool
    ensures { result ≡ is_step a.kind }
{
    is_step(a.kind)
}

// ---- 6: a needed place is given, and an unneeded one is none

fn as_needed<N: Name>(need: bool, name: N) -> bool
    ensures { result ≡ as_needed need (N.number_of name) }
{
    need == (name.number() != NONE)
}

#[tactic(auto, unfolding(crate::specs::Tests::places_by))]
pub fn places_given(kind: u8, r: Request) -> bool
    ensures { result ≡ places_by kind r }
{
    as_needed(meets_tuple(kind), r.used)
        && as_needed(true, r.first)
        && as_needed(makes_second(kind), r.second)
        && as_needed(kind == Action::NEWLOC, r.place)
}

#[tactic(auto, unfolding(requests::specs::Answers::no_places))]
pub fn none_placed(r: Request) -> bool
    ensures { result ≡ no_places (asked r) }
{
    as_needed(false, r.used)
        && as_needed(false, r.first)
        && as_needed(false, r.second)
        && as_needed(false, r.place)
}

// ---- 9 and 10: the tuple there, and the match

#[tactic(auto, unfolding(crate::specs::Tests::tuple_there))]
pub fn tuple_there(kind: u8, net: &NetBytes, used: Key, l: Locality) -> bool
    ensures { result ≡ tuple_there kind (slot_with (net_of net.now) used) l }
{
    if !meets_tuple(kind) {
        return true;
    }
    kind_in(net, used) == Slot::TUPLE && locality_in(net, used) == l
}

// The node's template against the tuple with this key; a node that meets none asks nothing.
#[tactic(auto, unfolding(crate::specs::Tests::template_answer))]
pub fn template_met(
    vars: [Datum; Variable::COUNT],
    node: &NodeBytes,
    net: &NetBytes,
    used: Key,
) -> Result<(), Mismatch>
    requires { (meets_tuple (action_of node.now).kind ≡ true) → (is_key used ≡ true) }
    ensures { result ≡ template_answer (action_of node.now) vars (slot_with (net_of net.now) used) }
{
    let a = action_of(node);
    if !meets_tuple(a.kind) {
        return Ok(());
    }
    let tuple = slot_bytes(net, used.0 as usize);
    match_tuple(vars, node, tuple)
}

// ---- 11: fresh names

// Of the second key: its slot is free, and it is not the first.
#[tactic(auto, unfolding(crate::specs::Tests::second_fresh))]
fn second_fresh(kind: u8, free: bool, r: Request) -> bool
    ensures { result ≡ second_fresh kind free r }
{
    if !makes_second(kind) {
        return true;
    }
    free && r.first != r.second
}

#[tactic(auto, unfolding(crate::specs::Tests::place_fresh))]
fn place_fresh(kind: u8, present: Localities, l: Locality) -> bool
    ensures { result ≡ place_fresh kind present l }
{
    if kind != Action::NEWLOC {
        return true;
    }
    is_makeable(l) && !present.has(l)
}

// "a fresh key not free": nothing is held there.
fn is_free_in(net: &NetBytes, k: Key) -> bool
    ensures { result ≡ is_free (slot_with (net_of net.now) k) }
{
    let kind = kind_in(net, k);
    kind == Slot::FREE || Slot::CONSUMED < kind
}

// The fresh names that the request gives, in this net.
#[tactic(auto, unfolding(crate::specs::Tests::names_fresh))]
pub fn names_fresh(kind: u8, net: &NetBytes, r: Request) -> bool
    ensures { result ≡ names_fresh kind (is_free (slot_with (net_of net.now) r.first)) (is_free (slot_with (net_of net.now) r.second)) (net_of net.now).present r }
{
    is_free_in(net, r.first)
        && second_fresh(kind, is_free_in(net, r.second), r)
        && place_fresh(kind, present_in(net), r.place)
}
