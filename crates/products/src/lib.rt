// What a step makes, by the kind of its node: a continuation, and besides it a tuple, a process or nothing. Forward steps write what
// these functions give, and acceptance compares with it.
#![tactic(auto)]

ghost use Rattle.std.specs.Prelude.{◌≡◌, true};
ghost use Rattle.laws.specs.Choice.{pick};
ghost use Rattle.laws.specs.Lists.{tab};
ghost use Rattle.images.specs.Read.{action_of};
ghost use Rattle.images.specs.Script.{field_at};
ghost use Rattle.matching.specs.Evaluate.{fields_ready, actual};
ghost use Rattle.matching.specs.Match.{with_variable};
ghost use Rattle.products.specs.Body.{body_of, live_process};
ghost use Rattle.products.specs.Products.{is_step, is_out, meets_tuple, makes_second, has_target, has_fields, target_there, variables_after, references_after, continued_by, field_made, made_datum};
ghost use Rattle.products.specs.Acting.{acting_at, readiness, tuple_of, process_at, second_at};

use images::script_image::{NodeBytes, action_of};
use images::{Action, Datum, Field, Slot};
use matching::{actual_of, bind, fields_ready, find_target, with_variable};
use names::{Key, Localities, Locality, Name, NameSet, Node, Reference, Variable};

const UNSET: Datum = Datum {
    tag: Datum::UNSET,
    number: 0,
};

// A record that made and used nothing yet, and holds nothing.
const FRESH: Slot = Slot {
    kind: Slot::FREE,
    locality: Locality::NONE,
    node: Node(0),
    count: 0,
    first: Key::NONE,
    second: Key::NONE,
    used: Key::NONE,
    place: Locality::NONE,
    contents: [UNSET; Variable::COUNT],
    refs: [Key::NONE; Reference::COUNT],
};

// ---- kinds of nodes, as the numbers that nodes hold (`images::Action`)

pub fn is_step(kind: u8) -> bool
    ensures { result ≡ is_step kind }
{
    matches!(kind, Action::OUT..=Action::SPLIT)
}

pub fn meets_tuple(kind: u8) -> bool
    ensures { result ≡ meets_tuple kind }
{
    matches!(kind, Action::IN | Action::READ)
}

pub fn makes_second(kind: u8) -> bool
    ensures { result ≡ makes_second kind }
{
    matches!(kind, Action::OUT | Action::EVAL | Action::SPLIT)
}

pub fn has_target(kind: u8) -> bool
    ensures { result ≡ has_target kind }
{
    matches!(kind, Action::OUT | Action::EVAL) || meets_tuple(kind)
}

pub fn has_fields(kind: u8) -> bool
    ensures { result ≡ has_fields kind }
{
    kind == Action::OUT || meets_tuple(kind)
}

// ---- the target, and whether all can be evaluated

// Where the node acts at a target, that locality is present.
pub fn target_there(kind: u8, present: Localities, l: Locality) -> bool
    ensures { result ≡ target_there kind present l }
{
    !has_target(kind) || l.is_name() && present.has(l)
}

// Where the step acts: at the node's target, or, where it has none, where the process is.
fn acting_at(a: Action, own: Locality, vars: [Datum; Variable::COUNT]) -> Option<Locality>
    ensures { result ≡ acting_at a own vars }
{
    if has_target(a.kind) {
        find_target(vars, a.target)
    } else {
        Some(own)
    }
}

fn fields_found(a: Action, vars: [Datum; Variable::COUNT]) -> bool
    ensures { result ≡ pick (has_fields a.kind) (fields_ready vars a) true }
{
    !has_fields(a.kind) || fields_ready(vars, a)
}

// The target and the actual fields of a node, evaluated with the variables of a process that is here: where the step acts, if all of them
// can be. They cannot where one is an unset variable, or the target is no locality.
pub fn evaluable(
    vars: [Datum; Variable::COUNT],
    own: Locality,
    node: &NodeBytes,
) -> Option<Locality>
    ensures { result ≡ readiness (action_of node.now) own vars }
{
    let a = action_of(node);
    let l = acting_at(a, own, vars)?;
    if !fields_found(a, vars) {
        return None;
    }
    Some(l)
}

// ---- the continuation

// "newloc binds its variable": it takes the locality that was made.
fn with_place(vars: [Datum; Variable::COUNT], a: Action, l: Locality) -> [Datum; Variable::COUNT]
    ensures { result ≡ with_variable vars a.target.number (made_datum l) }
{
    let Some(v) = Variable::of_number(a.target.number) else {
        return vars;
    };
    let made = made_datum(l);
    with_variable(vars, v, made)
}

// A locality as what a variable holds.
pub fn made_datum(l: Locality) -> Datum
    ensures { result ≡ made_datum l }
{
    Datum {
        tag: Datum::LOCALITY,
        number: l.0 as u32,
    }
}

fn variables_after(
    a: Action,
    vars: [Datum; Variable::COUNT],
    fields: [Datum; Variable::COUNT],
    l: Locality,
) -> [Datum; Variable::COUNT]
    ensures { result ≡ variables_after a vars fields l }
{
    if meets_tuple(a.kind) {
        return bind(vars, a, fields);
    }
    if a.kind == Action::NEWLOC {
        return with_place(vars, a, l);
    }
    vars
}

fn references_after(a: Action, k: Key, mut refs: [Key; Reference::COUNT]) -> [Key; Reference::COUNT]
    ensures { result ≡ references_after a k refs }
{
    let i = a.reference.0 as usize;
    if i < Reference::COUNT {
        refs[i] = k;
    }
    refs
}

// A process that nothing happened to yet.
pub fn live_process(
    locality: Locality,
    node: Node,
    contents: [Datum; Variable::COUNT],
    refs: [Key; Reference::COUNT],
) -> Slot
    ensures { result ≡ live_process (record { locality = locality; node = node; count = 0; contents = contents; refs = refs }) }
{
    Slot {
        kind: Slot::LIVE,
        locality,
        node,
        contents,
        refs,
        ..FRESH
    }
}

// What follows the event with this key: from the fields of the tuple that it met, with the locality that it made.
pub fn continuation(a: Action, k: Key, x: Slot, fields: [Datum; Variable::COUNT]) -> Slot
    ensures { result ≡ live_process (continued_by a k (body_of x) fields x.place) }
{
    let vars = x.contents;
    let old = x.refs;
    let contents = variables_after(a, vars, fields, x.place);
    let refs = references_after(a, k, old);
    live_process(x.locality, a.next, contents, refs)
}

// ---- the second thing made

pub fn field_made(vars: [Datum; Variable::COUNT], count: u8, j: u8, f: Field) -> Datum
    ensures { result ≡ field_made vars count j f }
{
    if j < count { actual_of(vars, f) } else { UNSET }
}

// The fields of an out, evaluated; the rest of a tuple's places stay unset. In line, as is the tuple of them: for a call the node and the
// variables would be stored part by part.
#[inline(always)]
fn fields_made(a: Action, vars: [Datum; Variable::COUNT]) -> [Datum; Variable::COUNT]
    ensures { result ≡ tab 8 (λ j. field_made vars a.count j (field_at a j)) }
{
    let mut made = [UNSET; Variable::COUNT];
    for j in 0..Field::COUNT {
        let f = a.fields[j];
        made[j] = field_made(vars, a.count, j as u8, f);
    }
    made
}

// The tuple that an out makes of a process's variables, where the step acts.
#[inline(always)]
pub fn tuple_made(a: Action, vars: [Datum; Variable::COUNT], at: Locality) -> Slot
    ensures { result ≡ tuple_of a vars at }
{
    let contents = fields_made(a, vars);
    Slot {
        kind: Slot::TUPLE,
        locality: at,
        count: a.count,
        contents,
        ..FRESH
    }
}

// It has the variables and references of the process as it was.
pub fn process_made(a: Action, x: Slot, at: Locality) -> Slot
    ensures { result ≡ process_at a (body_of x) at }
{
    live_process(at, a.other, x.contents, x.refs)
}

// What an out, an eval or a split makes at its second key, where the step acts.
pub fn second_made(a: Action, x: Slot, at: Locality) -> Slot
    ensures { result ≡ second_at a (body_of x) at }
{
    // A return, and no value of an if: a slot that comes by two ways is copied once more.
    if a.kind == Action::OUT {
        let vars = x.contents;
        return tuple_made(a, vars, at);
    }
    process_made(a, x, at)
}
