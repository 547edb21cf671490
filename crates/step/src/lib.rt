// Forward and backward steps in the lent bytes of a script and a net. The checks answer document 01's number from check 4 on; a step that none
// refuses is written into the net's bytes: at most three slots, and the present set. Script and net are two parameters, as C lends them; that they
// are good is a clause and no type, since it holds again only after a whole call, by a theorem (`next_held` of `machine`). Kinds are the numbers
// that nodes and slots hold (`images`).
#![tactic(auto)]

ghost use Rattle.std.specs.Prelude.{◌≡◌};
ghost use Rattle.products.specs.Body.{body_of, fresh};

use images::Slot;
use names::{Key, Locality};

pub mod backward;
pub mod checks;
pub mod forward;

// The record as it would be made, of this kind: nothing made and nothing used.
fn as_new(kind: u8, x: Slot) -> Slot
    ensures { result ≡ fresh kind (body_of x) }
{
    Slot {
        kind,
        first: Key::NONE,
        second: Key::NONE,
        used: Key::NONE,
        place: Locality::NONE,
        ..x
    }
}
