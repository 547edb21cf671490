// What a process's fields stand for, where it acts, and whether its template meets a tuple: each answers an enum. The process is a value, its
// eight variables; a node and a tuple are looked at where they stand, in their 32 and 56 bytes.
#![tactic(auto)]

ghost use Rattle.std.specs.Prelude.{◌≡◌, ◌<◌, set};
ghost use Rattle.names.specs.Names.{variable_count};
ghost use Rattle.images.specs.Read.{action_of, slot_of};
ghost use Rattle.matching.specs.Evaluate.{actual, evaluated, place_of, target_of, has_value, fields_ready, variable_of, formal_of};
ghost use Rattle.matching.specs.Match.{field_meets, bound, match_of};
ghost use Rattle.matching.specs.Bound.{bound_put};

use images::net_image::{NetBytes, SlotBytes, put_variable, slot_of};
use images::script_image::{NodeBytes, action_of};
use images::{Action, Datum, Field};
use names::{Key, Locality, Name, Variable};

// A tuple does not meet a template: some field does not, or they have not the same number of fields.
#[derive(Clone, Copy, PartialEq, Eq)]
pub struct Mismatch;

// ---- evaluating

// The variable of this number; unset where there is none.
fn variable_of(vars: [Datum; Variable::COUNT], x: u32) -> Datum
    ensures { result ≡ variable_of vars x }
{
    let Some(v) = Variable::of_number(x) else {
        return Datum {
            tag: Datum::UNSET,
            number: 0,
        };
    };
    vars[v.0 as usize]
}

// What the field stands for as a datum: unset where the variable is.
#[tactic(auto, unfolding(crate::specs::Evaluate::actual))]
pub fn actual_of(vars: [Datum; Variable::COUNT], f: Field) -> Datum
    ensures { result ≡ actual vars f }
{
    if f.tag == Field::VARIABLE {
        return variable_of(vars, f.number);
    }
    Datum {
        tag: f.tag,
        number: f.number,
    }
}

#[tactic(auto, unfolding(crate::specs::Evaluate::evaluated))]
fn evaluate(vars: [Datum; Variable::COUNT], f: Field) -> Option<Datum>
    ensures { result ≡ evaluated vars f }
{
    let d = actual_of(vars, f);
    if d.tag == Datum::UNSET {
        return None;
    }
    Some(d)
}

fn place_of(d: Datum) -> Option<Locality>
    ensures { result ≡ place_of d }
{
    if d.tag != Datum::LOCALITY {
        return None;
    }
    Locality::of_number(d.number)
}

// Where a process acts: nowhere if the target is a variable that is unset, or holds no locality.
#[tactic(auto, unfolding(crate::specs::Evaluate::target_of))]
pub fn find_target(vars: [Datum; Variable::COUNT], f: Field) -> Option<Locality>
    ensures { result ≡ target_of vars f }
{
    place_of(actual_of(vars, f))
}

// A formal needs no value; any other field has to be set.
#[tactic(auto, unfolding(crate::specs::Evaluate::evaluated))]
fn has_value(vars: [Datum; Variable::COUNT], f: Field) -> bool
    ensures { result ≡ has_value vars f }
{
    f.tag >= Field::VALUE_FORMAL || evaluate(vars, f).is_some()
}

// Every field of the node that is no formal is set.
pub fn fields_ready(vars: [Datum; Variable::COUNT], a: Action) -> bool
    ensures { result ≡ fields_ready vars a }
{
    (0..Field::COUNT).all(|j| a.count as usize <= j || has_value(vars, a.fields[j]))
}

// ---- matching

#[tactic(auto, unfolding(crate::specs::Match::field_meets))]
fn field_meets(vars: [Datum; Variable::COUNT], f: Field, d: Datum) -> bool
    ensures { result ≡ field_meets vars f d }
{
    match f.tag {
        Field::VALUE_FORMAL => d.tag == Datum::VALUE,
        Field::LOCALITY_FORMAL => d.tag == Datum::LOCALITY,
        _ => actual_of(vars, f) == d,
    }
}

// A node's template against a tuple, with the process's variables as they stand.
#[tactic(auto, unfolding(crate::specs::Match::place_meets))]
pub fn match_tuple(
    vars: [Datum; Variable::COUNT],
    node: &NodeBytes,
    tuple: &SlotBytes,
) -> Result<(), Mismatch>
    ensures { result ≡ match_of vars (action_of node.now) (slot_of tuple.now) }
{
    let a = action_of(node);
    let t = slot_of(tuple);
    if a.count != t.count {
        return Err(Mismatch);
    }
    for j in 0..Field::COUNT {
        if j < a.count as usize && !field_meets(vars, a.fields[j], t.contents[j]) {
            return Err(Mismatch);
        }
    }
    Ok(())
}

// ---- binding

// The variables with this one set.
pub fn with_variable(
    vars: [Datum; Variable::COUNT],
    v: Variable,
    d: Datum,
) -> [Datum; Variable::COUNT]
    requires { v.0 < variable_count }
    ensures { result ≡ set vars v.0 d }
{
    let mut next = vars;
    next[v.0 as usize] = d;
    next
}

// The variable that a formal binds; none where the field is no formal.
fn formal_of(f: Field) -> Option<Variable>
    ensures { result ≡ formal_of f }
{
    if f.tag < Field::VALUE_FORMAL {
        return None;
    }
    Variable::of_number(f.number)
}

// The variables with every formal of the node's template bound to the tuple's field.
#[tactic(auto, unfolding(crate::specs::Match::bound, crate::specs::Match::bind_up_to, crate::specs::Match::bind_one))]
pub fn bind(
    vars: [Datum; Variable::COUNT],
    a: Action,
    tuple: [Datum; Variable::COUNT],
) -> [Datum; Variable::COUNT]
    ensures { result ≡ bound vars a tuple }
{
    let mut next = vars;
    for j in 0..Field::COUNT {
        if let Some(v) = formal_of(a.fields[j]) {
            next[v.0 as usize] = tuple[j];
        }
    }
    next
}

// Every formal of the node's template takes the field that it met, in the process with this key, where it lies in the net.
#[tactic(auto, unfolding(crate::specs::Bound::bound_put, crate::specs::Bound::bound_up_to, crate::specs::Bound::bind_put))]
pub fn bind_in(node: &NodeBytes, met: [Datum; Variable::COUNT], k: Key, net: &mut NetBytes)
    ensures { net.new ≡ bound_put (action_of node.now) met k net.old }
{
    let a = action_of(node);
    for j in 0..Field::COUNT {
        if let Some(v) = formal_of(a.fields[j]) {
            put_variable(k, v, met[j], net);
        }
    }
}
