// Rollback of an event with all its dependents, and roll by a live process, in the lent bytes of images that are good. Both stand on the step's
// promise for the undoing of one event, and see none of its code. Script and net, and that they are good, come as in `step`.
#![tactic(auto)]

ghost use Rattle.std.specs.Prelude.{◌≡◌, eqb, not, Some, None};
ghost use Rattle.laws.specs.Choice.{pick};
ghost use Rattle.order.specs.KeySets.{◌∈◌};
ghost use Rattle.images.specs.Net.{net_bytes};
ghost use Rattle.images.specs.Read.{script_of, net_of};
ghost use Rattle.nets.specs.Net.{events};
ghost use Rattle.rules.specs.View.{view};
ghost use Rattle.products.specs.Products.{is_split};
ghost use Rattle.requests.specs.Checks.{refusal};
ghost use Rattle.step.specs.Lent.{Lent, told, lent_after};
ghost use Rattle.rollback.specs.Rollback.{rolled_back, rollback_outcome, roll_outcome};
ghost use Rattle.rollback.specs.Checked.{held_by, is_held, is_roll, rollback_tests, roll_tests, answered};

use images::net_image::{NetBytes, slot_in};
use images::script_image::{ScriptBytes, node_in};
use images::{Action, Slot};
use names::{Key, Localities, NameSet, Reference};
use requests::{Answer, Request, Told, refused};
use step::backward::{in_the_way, undo};
use step::checks::{is_live, is_past, none_placed};

// ---- an event with its dependents, undone one by one

// An event with all that depends on it. From the event the walk goes to one that is in the way, and on, until nothing is: that one is undone, and the
// walk begins anew. So the event itself is undone last.
fn undo_dependents(script: &ScriptBytes, net: &mut NetBytes, e: Key) -> Told
    requires { Lent script.now net.old × (e.0 ∈ events (view (script_of script.now) (net_of net.old))) }
    ensures value { result ≡ told (rolled_back (script_of script.now) (net_of net.old) e.0) }
    ensures net_after { net.new ≡ net_bytes (rolled_back (script_of script.now) (net_of net.old) e.0).net }
{
    let mut touched = Localities::EMPTY;
    let mut undone: u8 = 0;
    let mut k = e;
    loop {
        match in_the_way(script, net, k) {
            Some(f) => k = f,
            None => {
                let freed = undo(script, net, k);
                touched = touched.either(freed);
                undone += 1;
                if k == e {
                    return Told {
                        answer: Answer::Done,
                        undone,
                        touched,
                    };
                }
                k = e;
            }
        }
    }
}

// ---- rollback of the named event

// 5: "2 at a split".
fn may_roll_back(a: Action) -> bool
    ensures { result ≡ not (is_split a.kind) }
{
    a.kind != Action::SPLIT
}

#[tactic(auto, unfolding(crate::specs::Checked::rollback_tests, crate::specs::Checked::answered, requests::specs::Checks::refusal))]
fn rollback_answer(a: Action, x: Slot, r: Request) -> Result<(), Answer>
    ensures { result ≡ answered tt (refusal (rollback_tests a x r)) }
{
    if !is_past(x) {
        return Err(Answer::WrongProcess);
    }
    if !may_roll_back(a) {
        return Err(Answer::WrongNode);
    }
    if !none_placed(r) {
        return Err(Answer::WrongPlaces);
    }
    Ok(())
}

// Code 2, on images that are good. A refusal writes nothing.
pub fn rollback(script: &ScriptBytes, net: &mut NetBytes, r: Request) -> Told
    requires { Lent script.now net.old }
    ensures value { result ≡ told (rollback_outcome (script_of script.now) (net_of net.old) r) }
    ensures net_after { net.new ≡ lent_after (rollback_outcome (script_of script.now) (net_of net.old) r) net.old }
{
    let x = slot_in(net, r.key);
    let a = node_in(script, x.node);
    match rollback_answer(a, x, r) {
        Ok(()) => undo_dependents(script, net, r.key),
        Err(answer) => refused(answer),
    }
}

// ---- roll by the named live process

// The event that the node's reference holds. 7: "roll's reference is 255".
#[tactic(auto, unfolding(crate::specs::Checked::held_by))]
fn held_by(a: Action, x: Slot) -> Option<Key>
    ensures { result ≡ pick (is_held (held_by a x)) (Some (held_by a x)) None }
{
    let i = a.reference.0 as usize;
    if Reference::COUNT <= i {
        return None;
    }
    let e = x.refs[i];
    if e == Key::NONE { None } else { Some(e) }
}

// 5: "3 not at roll".
fn is_roll(a: Action) -> bool
    ensures { result ≡ is_roll a.kind }
{
    a.kind == Action::ROLL
}

// The event that is rolled back, or the refusal.
#[tactic(auto, unfolding(crate::specs::Checked::roll_tests, crate::specs::Checked::answered, requests::specs::Checks::refusal))]
fn roll_answer(a: Action, x: Slot, r: Request) -> Result<Key, Answer>
    ensures { result ≡ answered (held_by a x) (refusal (roll_tests a x (held_by a x) r)) }
{
    if !is_live(x) {
        return Err(Answer::WrongProcess);
    }
    if !is_roll(a) {
        return Err(Answer::WrongNode);
    }
    if !none_placed(r) {
        return Err(Answer::WrongPlaces);
    }
    let Some(e) = held_by(a, x) else {
        return Err(Answer::Unset);
    };
    Ok(e)
}

// Code 3, on images that are good. What a reference holds there is an event, so it needs no check of its own. It goes as `rollback` does; one
// function over both would take the check as a parameter, and be no plainer.
pub fn roll(script: &ScriptBytes, net: &mut NetBytes, r: Request) -> Told
    requires { Lent script.now net.old }
    ensures value { result ≡ told (roll_outcome (script_of script.now) (net_of net.old) r) }
    ensures net_after { net.new ≡ lent_after (roll_outcome (script_of script.now) (net_of net.old) r) net.old }
{
    let x = slot_in(net, r.key);
    let a = node_in(script, x.node);
    match roll_answer(a, x, r) {
        Ok(e) => undo_dependents(script, net, e),
        Err(answer) => refused(answer),
    }
}
