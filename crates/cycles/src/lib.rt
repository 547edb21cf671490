// Whether what depends on what goes round in a circle: what nothing left depends on is taken away, until nothing is left or nothing can
// be taken. First dependence is followed: from a key to one that is left and depends on it, and on from there; one on which nothing left
// depends is taken, and the key that led to it is looked at again. Without a cycle each key is reached once and taken once, so two looks a
// key leave nothing, in whatever order the keys were given out. What is left after as many looks goes in turns, and a cycle is found by
// a turn that takes none; each turn takes at least one and looks only at those left, so the work is at most in proportion to the square of
// their number.
#![tactic(auto)]

ghost use Rattle.std.specs.Prelude.{◌≡◌, true, false, ◌<◌};
ghost use Rattle.names.specs.Names.{key_count};
ghost use Rattle.names.specs.KeySets.{is_in, is_empty};
ghost use Rattle.order.specs.Peeling.{acyclic};
ghost use Rattle.cycles.specs.Highest.{Highest};
ghost use Rattle.cycles.specs.Cycles.{edges, members, after_taking};

use names::{Key, Keys, Name, NameSet};

const LAST: u8 = Key::LIMIT - 1;

// How often dependence is followed before the turns: two looks a key.
const LOOKS: u8 = 2 * Key::LIMIT;

// The greatest key of a set that has one.
pub fn highest(set: Keys) -> Key
    requires { is_empty set ≡ false }
    ensures { Highest set result }
{
    let above = set.0.leading_zeros() as u8;
    Key(LAST - above)
}

// What is left once this key of those left is taken, which may be where no key that is left depends on it.
#[tactic(auto, unfolding(crate::specs::Cycles::after_taking))]
fn take_last(row: Keys, left: Keys, k: Key) -> Keys
    requires { (k.0 < key_count) × (is_in left k ≡ true) }
    ensures { result ≡ after_taking row left k }
{
    if row.both(left).is_empty() {
        return left.without(k);
    }
    left
}

// The key to look at: the one to go back to, or, where that is none or is taken, the greatest of those left.
fn look_at(left: Keys, back: Key) -> Key
    requires { is_empty left ≡ false }
    ensures { (result.0 < key_count) × (is_in left result ≡ true) }
{
    if back.is_name() && left.has(back) {
        return back;
    }
    highest(left)
}

// Whether nothing is left once keys are taken in turns. Each turn goes once over those left, from the last to the first, in this function:
// rows that are handed on are copied.
fn peels_away(rows: [Keys; Key::COUNT], keys: Keys) -> bool
    ensures { result ≡ acyclic key_count (edges rows keys) (members keys) }
{
    let mut left = keys;
    for _turn in 0..Key::LIMIT {
        if left.is_empty() {
            return true;
        }
        let mut rest = left;
        let mut to_come = left;
        while !to_come.is_empty() {
            let k = highest(to_come);
            let row = rows[k.0 as usize];
            rest = take_last(row, rest, k);
            to_come = to_come.without(k);
        }
        if rest == left {
            return false;
        }
        left = rest;
    }
    left.is_empty()
}

// Row e holds the keys that depend directly on e; of these, and of the rows, only the given keys count. `from` holds for each key which one
// led to it; it says where to look next and no more.
pub fn has_no_cycle(rows: [Keys; Key::COUNT], keys: Keys) -> bool
    ensures { result ≡ acyclic key_count (edges rows keys) (members keys) }
{
    let mut left = keys;
    let mut at = Key::NONE;
    let mut from = [Key::NONE; Key::COUNT];
    for _ in 0..LOOKS {
        if left.is_empty() {
            return true;
        }
        let k = look_at(left, at);
        let row = rows[k.0 as usize];
        let dependent = row.both(left);
        if dependent.is_empty() {
            left = left.without(k);
            at = from[k.0 as usize];
        } else {
            at = highest(dependent);
            from[at.0 as usize] = k;
        }
    }
    peels_away(rows, left)
}
