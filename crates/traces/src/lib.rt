// What the events of a net made and used, found once: the keys and localities made and the tuples taken as sets, and who depends on whom
// as a set for each event. Script and net are two parameters, as C lends them; a deed is the number that a node's kind is (`images::Action`).
#![tactic(auto)]

ghost use Rattle.std.specs.Prelude.{◌≡◌, ◌<◌, ℕ};
ghost use Rattle.names.specs.Names.{key_count};
ghost use Rattle.images.specs.Read.{script_of, net_of};
ghost use Rattle.traces.specs.Traces.{deeds_of, events_of, marked, marked_keys, Names, named_at, marks, keys_made, localities_made, tuples_taken, users_of, after_key_by, after_read_by, rows_of};

use images::net_image::{NetBytes, index_of, kind_in, slot_at, used_in};
use images::script_image::{ScriptBytes, node_in};
use images::{Action, Slot};
use names::{Key, Keys, Localities, Name, NameSet};

// Names that events speak of, and whether each was spoken of once. No Option of the names: the definition `keys_made` has them in either case, and
// laws speak of both (`specs/Traced.antt`).
#[derive(Clone, Copy)]
pub struct Marks<S> {
    pub once: bool,
    pub names: S,
}

// ---- what each event did

// The kind of each event's node; nil where a slot holds no event, or there is no such node.
pub fn deeds_of(script: &ScriptBytes, net: &NetBytes) -> [u8; Key::COUNT]
    ensures { result ≡ deeds_of (script_of script.now) (net_of net.now) }
{
    let mut deeds = [Action::NIL; Key::COUNT];
    for i in 0..Key::COUNT {
        let x = slot_at(net, i);
        if x.kind == Slot::PAST {
            deeds[i] = node_in(script, x.node).kind;
        }
    }
    deeds
}

#[tactic(auto, using(crate::specs::Marks::at_key, crate::specs::Marks::event_start, crate::specs::Marks::event_none, crate::specs::Marks::event_more), unfolding(crate::specs::Traces::events_of))]
pub fn events_of(net: &NetBytes) -> Keys
    ensures { result ≡ events_of (net_of net.now) }
{
    let mut events = Keys::EMPTY;
    for k in 0..Key::LIMIT {
        if kind_in(net, Key(k)) == Slot::PAST {
            events = events.with(Key(k));
        }
    }
    events
}

// ---- made once, taken once

// One name more, which was not spoken of before, if there is such a name.
#[tactic(auto, unfolding(crate::specs::Traces::marked))]
fn mark<S: NameSet>(m: Marks<S>, n: S::Name) -> Marks<S>
    ensures { result ≡ marked S.set_of S.word_of S.Name.number_of S.Name.LIMIT m n }
{
    if !n.is_name() {
        return m;
    }
    let again = m.names.has(n);
    Marks {
        once: m.once && !again,
        names: m.names.with(n),
    }
}

// The two keys of one event: each was not spoken of before.
#[tactic(auto, unfolding(crate::specs::Traces::marked_keys))]
fn mark_keys(m: Marks<Keys>, first: Key, second: Key) -> Marks<Keys>
    ensures { result ≡ marked_keys m first second }
{
    let one = mark(m, first);
    if first == second {
        return one;
    }
    mark(one, second)
}

pub fn keys_made(net: &NetBytes) -> Marks<Keys>
    ensures { result ≡ keys_made (net_of net.now) }
{
    let mut m = Marks {
        once: true,
        names: Keys::EMPTY,
    };
    for i in 0..Key::COUNT {
        let x = slot_at(net, i);
        if x.kind == Slot::PAST {
            m = mark_keys(m, x.first, x.second);
        }
    }
    m
}

// The names that the events of one kind speak of, each of one.
fn marks_of<S: NameSet, F: Fn(usize) -> S::Name>(
    deed: u8,
    deeds: [u8; Key::COUNT],
    name: F,
) -> Marks<S>
    requires { (i : ℕ) → i < key_count → F.pre name i }
    ensures { (named : ℕ → ℕ) → Names (F.post name) S.Name.number_of named → result ≡ marks S.set_of S.Name.LIMIT key_count (named_at deed deeds named) }
{
    let mut m = Marks {
        once: true,
        names: S::of_word(0),
    };
    for i in 0..Key::COUNT {
        if deeds[i] == deed {
            m = mark(m, name(i));
        }
    }
    m
}

pub fn localities_made(deeds: [u8; Key::COUNT], net: &NetBytes) -> Marks<Localities>
    ensures { result ≡ localities_made deeds (net_of net.now) }
{
    marks_of(Action::NEWLOC, deeds, |i| slot_at(net, i).place)
}

pub fn tuples_taken(deeds: [u8; Key::COUNT], net: &NetBytes) -> Marks<Keys>
    ensures { result ≡ tuples_taken deeds (net_of net.now) }
{
    marks_of(Action::IN, deeds, |i| slot_at(net, i).used)
}

// ---- who depends on whom

// For each tuple, by its key, the events of one kind that used it.
fn users_of(deed: u8, deeds: [u8; Key::COUNT], net: &NetBytes) -> [Keys; Key::COUNT]
    ensures { result ≡ users_of deed deeds (net_of net.now) }
{
    let mut users = [Keys::EMPTY; Key::COUNT];
    for k in 0..Key::LIMIT {
        if deeds[k as usize] == deed {
            let tuple = used_in(net, Key(k));
            if tuple.is_name() {
                let u = tuple.0 as usize;
                users[u] = users[u].with(Key(k));
            }
        }
    }
    users
}

// What depends on an event that made this key: the event of that key, and those that took or read that tuple.
#[tactic(auto, unfolding(crate::specs::Traces::after_key_by))]
fn after_key(events: Keys, takes: Keys, reads: Keys, k: Key) -> Keys
    ensures { result ≡ after_key_by events takes reads k }
{
    if !k.is_name() {
        return Keys::EMPTY;
    }
    let users = takes.either(reads);
    if events.has(k) {
        return users.with(k);
    }
    users
}

// What depends on an event since it read this tuple: whoever took it.
#[tactic(auto, unfolding(crate::specs::Traces::after_read_by))]
fn after_read(deed: u8, takes: Keys, tuple: Key) -> Keys
    ensures { result ≡ after_read_by deed takes tuple }
{
    if deed == Action::READ && tuple.is_name() {
        takes
    } else {
        Keys::EMPTY
    }
}

// For each event the events that depend on it directly; for a slot that holds no event none.
pub fn rows_of(deeds: [u8; Key::COUNT], net: &NetBytes, events: Keys) -> [Keys; Key::COUNT]
    ensures { result ≡ rows_of deeds (net_of net.now) events }
{
    let takers = users_of(Action::IN, deeds, net);
    let readers = users_of(Action::READ, deeds, net);
    let mut rows = [Keys::EMPTY; Key::COUNT];
    for i in 0..Key::COUNT {
        let x = slot_at(net, i);
        if x.kind == Slot::PAST {
            let f = index_of(x.first);
            let one = after_key(events, takers[f], readers[f], x.first);
            let g = index_of(x.second);
            let two = after_key(events, takers[g], readers[g], x.second);
            let three = after_read(deeds[i], takers[index_of(x.used)], x.used);
            rows[i] = one.either(two).either(three);
        }
    }
    rows
}
