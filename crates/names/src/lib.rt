// The names of document 01, "Names and images": keys, localities, variables and nodes are four disjoint sets, so each is a type of
// its own, and nothing that takes one accepts another. References hold keys. Sets of localities are the bits of a word.
#![tactic(auto)]

ghost use Rattle.std.specs.Prelude.{◌≡◌, ◌^◌, ◌<◌, ◌≤◌, ltb, eqb, ℕ, refl};
ghost use Rattle.std.specs.Int.Bits.{bit_or, bit_and};
ghost use Rattle.std.proofs.Common.{rules};
ghost use Rattle.laws.specs.Sets.{member, including, excluding};
ghost use Rattle.names.specs.Names.{key_count, locality_count, variable_count, node_count, key, locality, variable, node, below_or_none, is_reference_or_none, name_of, name_or_none};
ghost use Rattle.names.specs.Localities.{localities};
ghost use Rattle.names.specs.KeySets.{keys};

// The mark for none, where that may stand.
pub const NONE: u8 = 255;

// A slot of the net, 0..63, or none.
#[derive(Clone, Copy, PartialEq, Eq)]
pub struct Key(pub u8);

// A place of the net, 0..31, or none.
#[derive(Clone, Copy, PartialEq, Eq)]
pub struct Locality(pub u8);

// One of a process's eight variables.
#[derive(Clone, Copy, PartialEq, Eq)]
pub struct Variable(pub u8);

// A node of the script, 0..63.
#[derive(Clone, Copy, PartialEq, Eq)]
pub struct Node(pub u8);

// One of a process's four references, 0..3, or none.
#[derive(Clone, Copy, PartialEq, Eq)]
pub struct Reference(pub u8);

// A set of keys: bit n is key n.
#[derive(Clone, Copy, PartialEq, Eq)]
pub struct Keys(pub u64);

// A set of localities: bit n is locality n.
#[derive(Clone, Copy, PartialEq, Eq)]
pub struct Localities(pub u32);

// A byte below a count, or the mark for none.
fn below_or_none(b: u8, count: u8) -> bool
    ensures { result ≡ below_or_none count b }
{
    b == NONE || b < count
}

// What the four kinds of names have in common: a name is a number below a limit.
pub trait Name: Copy {
    ghost LIMIT: { ℕ };

    ghost named: { ℕ → Self };

    ghost number_of: { Self → ℕ };

    // How many names there are.
    const LIMIT: u8;

    fn from_number(b: u8) -> Self
        ensures { result ≡ named b };

    fn number(self) -> u8
        ensures { result ≡ number_of self };

    fn of_byte(b: u8) -> Option<Self>
        ensures { result ≡ name_of named LIMIT b }
    {
        if b < Self::LIMIT {
            Some(Self::from_number(b))
        } else {
            None
        }
    }

    // A field's number as the name that it says.
    fn of_number(x: u32) -> Option<Self>
        ensures { result ≡ name_of named LIMIT x }
    {
        if x < Self::LIMIT as u32 {
            Some(Self::from_number(x as u8))
        } else {
            None
        }
    }

    // A name, or the mark for none.
    fn or_none(b: u8) -> Option<Self>
        ensures { result ≡ name_or_none named LIMIT b }
    {
        if below_or_none(b, Self::LIMIT) {
            Some(Self::from_number(b))
        } else {
            None
        }
    }

    fn is_name(self) -> bool
        ensures { result ≡ ltb (number_of self) LIMIT }
    {
        self.number() < Self::LIMIT
    }
}

impl Name for Key {
    ghost LIMIT = { key_count };

    ghost named = { key };

    ghost number_of = { λ k. k.0 };

    const LIMIT: u8 = 64;

    fn from_number(b: u8) -> Key {
        Key(b)
    }

    fn number(self) -> u8 {
        self.0
    }
}

impl Key {
    pub const NONE: Key = Key(NONE);

    pub const COUNT: usize = 64;
}

impl Name for Locality {
    ghost LIMIT = { locality_count };

    ghost named = { locality };

    ghost number_of = { λ l. l.0 };

    const LIMIT: u8 = 32;

    fn from_number(b: u8) -> Locality {
        Locality(b)
    }

    fn number(self) -> u8 {
        self.0
    }
}

impl Locality {
    pub const NONE: Locality = Locality(NONE);

    pub const COUNT: usize = 32;

    // Localities below this one are never made; a literal names one of these.
    pub const FIRST_MADE: u8 = 8;

    // Whether a number of 32 bits is a locality's.
    pub fn is_number(x: u32) -> bool
        ensures { result ≡ ltb x locality_count }
    {
        x < Locality::LIMIT as u32
    }
}

impl Name for Variable {
    ghost LIMIT = { variable_count };

    ghost named = { variable };

    ghost number_of = { λ v. v.0 };

    const LIMIT: u8 = 8;

    fn from_number(b: u8) -> Variable {
        Variable(b)
    }

    fn number(self) -> u8 {
        self.0
    }
}

impl Variable {
    pub const COUNT: usize = 8;
}

impl Name for Node {
    ghost LIMIT = { node_count };

    ghost named = { node };

    ghost number_of = { λ n. n.0 };

    const LIMIT: u8 = 64;

    fn from_number(b: u8) -> Node {
        Node(b)
    }

    fn number(self) -> u8 {
        self.0
    }
}

impl Node {
    pub const COUNT: usize = 64;
}

impl Reference {
    pub const NONE: Reference = Reference(NONE);

    pub const COUNT: usize = 4;

    pub const LIMIT: u8 = 4;

    pub fn is_reference_or_none(self) -> bool
        ensures { result ≡ is_reference_or_none self }
    {
        below_or_none(self.0, Reference::LIMIT)
    }
}

// A set of names of one kind, in the bits of a word: bit n is name n.
pub trait NameSet: Copy {
    type Name: Name;

    ghost word_of: { Self → ℕ };

    ghost set_of: { ℕ → Self };

    fn of_word(w: u64) -> Self
        requires { w < 2 ^ Self.Name.LIMIT }
        ensures { result ≡ set_of w };

    fn word(self) -> u64
        ensures value { result ≡ word_of self }
        ensures within { result < 2 ^ Self.Name.LIMIT };

    fn has(self, n: Self::Name) -> bool
        requires { Self.Name.number_of n < Self.Name.LIMIT }
        ensures { result ≡ member (word_of self) (Self.Name.number_of n) }
    {
        (self.word() >> n.number()) & 1 == 1
    }

    fn with(self, n: Self::Name) -> Self
        requires { Self.Name.number_of n < Self.Name.LIMIT }
        ensures { result ≡ set_of (including (word_of self) (Self.Name.number_of n)) }
    {
        Self::of_word(self.word() | (1 << n.number()))
    }

    fn without(self, n: Self::Name) -> Self
        requires { Self.Name.number_of n < Self.Name.LIMIT }
        ensures { result ≡ set_of (excluding Self.Name.LIMIT (word_of self) (Self.Name.number_of n)) }
    {
        Self::of_word(self.word() & !(1 << n.number()))
    }

    fn either(self, others: Self) -> Self
        ensures { result ≡ set_of (bit_or (word_of self) (word_of others)) }
    {
        Self::of_word(self.word() | others.word())
    }

    fn both(self, others: Self) -> Self
        ensures { result ≡ set_of (bit_and (word_of self) (word_of others)) }
    {
        Self::of_word(self.word() & others.word())
    }

    fn is_empty(self) -> bool
        ensures { result ≡ eqb (word_of self) 0 }
    {
        self.word() == 0
    }

    // A word has a bit for each name.
    ghost in_a_word: { Self.Name.LIMIT ≤ 64 };

    // A set is its word.
    ghost word_back: { (w : ℕ) → word_of (set_of w) ≡ w };
}

impl NameSet for Keys {
    type Name = Key;

    ghost word_of = { λ s. s.0 };

    ghost set_of = { keys };

    fn of_word(w: u64) -> Keys {
        Keys(w)
    }

    fn word(self) -> u64 {
        self.0
    }

    ghost in_a_word = { Prim.search rules };

    ghost word_back = { λ w. refl };
}

impl Keys {
    pub const EMPTY: Keys = Keys(0);
}

impl NameSet for Localities {
    type Name = Locality;

    ghost word_of = { λ s. s.0 };

    ghost set_of = { localities };

    fn of_word(w: u64) -> Localities {
        Localities(w as u32)
    }

    fn word(self) -> u64 {
        u64::from(self.0)
    }

    ghost in_a_word = { Prim.search rules };

    ghost word_back = { λ w. refl };
}

impl Localities {
    pub const EMPTY: Localities = Localities(0);
}
