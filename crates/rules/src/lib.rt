// What no step brings about by itself: which localities need a maker, and what a record that nobody made may be.
#![tactic(auto)]

ghost use Rattle.std.specs.Prelude.{◌≡◌};
ghost use Rattle.std.specs.List.{list_all};
ghost use Rattle.products.specs.Body.{body_of};
ghost use Rattle.rules.specs.Instance.{makeable};
ghost use Rattle.rules.specs.Roots.{is_home, rooted};

use images::net_image::refs_are;
use images::{Datum, Slot};
use names::{Locality, NONE, Name, Variable};

// A locality that a newloc may make, and that needs a maker to be present.
pub fn is_makeable(l: Locality) -> bool
    ensures { result ≡ makeable l.0 }
{
    Locality::FIRST_MADE <= l.0 && l.is_name()
}

fn is_home(d: Datum) -> bool
    ensures { result ≡ is_home d }
{
    d.tag != Datum::LOCALITY || d.number < Locality::FIRST_MADE as u32
}

fn all_home(contents: [Datum; Variable::COUNT]) -> bool
    ensures { result ≡ list_all is_home contents }
{
    contents.iter().all(|d| is_home(*d))
}

// What a record that nobody made must be: at a locality 0..7, naming only such ones, and holding no reference.
pub fn is_rooted(x: Slot) -> bool
    ensures { result ≡ rooted (body_of x) }
{
    x.locality.0 < Locality::FIRST_MADE && all_home(x.contents) && refs_are(NONE, x.refs)
}
