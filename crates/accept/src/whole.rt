// Clauses about the net as a whole: tuples, localities and records that nobody made.
ghost use Rattle.std.specs.Prelude.{◌≡◌};
ghost use Rattle.images.specs.Read.{net_of};
ghost use Rattle.accept.specs.Whole.{tuples_right, localities_right, root_right, roots_right};

use images::net_image::{NetBytes, is_free, kind_in, present_in, slot_at};
use images::{Action, Slot};
use names::{Key, Keys, Localities, Locality, Name, NameSet};
use rules::is_rooted;

// A consumed tuple was taken; what an in took is no live tuple. What a slot used is looked up only for an in.
pub fn tuples_right(deeds: [u8; Key::COUNT], net: &NetBytes, taken: Keys) -> bool
    ensures { result ≡ tuples_right deeds (net_of net.now) taken }
{
    for k in 0..Key::LIMIT {
        let i = k as usize;
        let x = slot_at(net, i);
        if x.kind == Slot::CONSUMED {
            if !taken.has(Key(k)) {
                return false;
            }
        } else if deeds[i] == Action::IN && kind_in(net, x.used) == Slot::TUPLE {
            return false;
        }
    }
    true
}

// Localities 8..31 are present exactly when made: from bit 8 on the two sets are one.
pub fn localities_right(present: Localities, made: Localities) -> bool
    ensures { result ≡ localities_right present made }
{
    present.0 >> Locality::FIRST_MADE == made.0 >> Locality::FIRST_MADE
}

// A record that nobody made lives at a present locality 0..7, names only such ones, and holds no reference.
#[tactic(auto, unfolding(crate::specs::Whole::root_right))]
fn root_right(present: Localities, made: bool, x: Slot) -> bool
    ensures { result ≡ root_right present made x }
{
    if is_free(x) || made {
        return true;
    }
    is_rooted(x) && x.locality.is_name() && present.has(x.locality)
}

pub fn roots_right(net: &NetBytes, made: Keys) -> bool
    ensures { result ≡ roots_right (net_of net.now) made }
{
    let present = present_in(net);
    for k in 0..Key::LIMIT {
        let x = slot_at(net, k as usize);
        if !root_right(present, made.has(Key(k)), x) {
            return false;
        }
    }
    true
}
