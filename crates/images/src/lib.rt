// The two images of document 01, taken apart into values and, for the net, put together again. A value of these types may hold any
// bytes; which are in range is said in specs/, and reading answers only those.
#![tactic(auto)]

pub mod head;
pub mod net_image;
pub mod script_image;

use names::{Key, Localities, Locality, Node, Reference, Variable};

// A field of a node: a value, a literal locality, a variable or a formal, by its tag.
// Its tag is a number with a name, and no enum: `action_of` takes any byte for a tag, and `field_in_range` answers on every one.
#[derive(Clone, Copy, PartialEq, Eq)]
pub struct Field {
    pub tag: u8,
    pub number: u32,
}

impl Field {
    pub const COUNT: usize = 4;
    // The count as a byte.
    pub const LIMIT: u8 = 4;

    pub const VALUE: u8 = 1;

    pub const LOCALITY: u8 = 2;

    pub const VARIABLE: u8 = 3;

    pub const VALUE_FORMAL: u8 = 4;

    pub const LOCALITY_FORMAL: u8 = 5;
    // Literal localities and variables are numbers below this.
    pub const NAMES: u32 = 8;
}

// A node of the script, as what it does.
// Its kind is a number with a name, and no enum: `action_of` takes any byte for a kind, and `action_in_range` answers on every one.
#[derive(Clone, Copy, PartialEq, Eq)]
pub struct Action {
    pub kind: u8,
    pub next: Node,
    pub other: Node,
    pub target: Field,
    pub reference: Reference,
    pub count: u8,
    pub fields: [Field; Field::COUNT],
}

impl Action {
    pub const NIL: u8 = 0;

    pub const OUT: u8 = 1;

    pub const IN: u8 = 2;

    pub const READ: u8 = 3;

    pub const NEWLOC: u8 = 4;

    pub const EVAL: u8 = 5;

    pub const SPLIT: u8 = 6;

    pub const ROLL: u8 = 7;

    pub const KINDS: u8 = 8;
}

#[derive(Clone, Copy)]
pub struct Script {
    pub nodes: [Action; Node::COUNT],
}

// How a kind of node uses its target.
#[derive(Clone, Copy, PartialEq, Eq)]
pub enum TargetUse {
    Unused,
    // A literal locality or a variable.
    Given,
    // A variable, which the node binds.
    Bound,
}

// How a kind of node uses its reference.
#[derive(Clone, Copy, PartialEq, Eq)]
pub enum ReferenceUse {
    Unused,
    // It may be none.
    Optional,
    // It may not.
    Needed,
}

// Which places a kind of node uses: document 01's table of eight rows.
#[derive(Clone, Copy)]
pub struct Row {
    pub next: bool,
    pub other: bool,
    pub target: TargetUse,
    pub reference: ReferenceUse,
    // The highest field tag; 0 where there are no fields.
    pub fields: u8,
}

// A variable of a process or a field of a tuple: unset, a value or a locality, by its tag.
// Its tag is a number with a name, and no enum: `slot_of` takes any byte for a tag, and `is_datum` answers on every one. It looks like a field, and is
// a type of its own: their tags mean different things, and must not mix.
#[derive(Clone, Copy, PartialEq, Eq)]
pub struct Datum {
    pub tag: u8,
    pub number: u32,
}

impl Datum {
    pub const UNSET: u8 = 0;

    pub const VALUE: u8 = 1;

    pub const LOCALITY: u8 = 2;
}

// A record of the net: free, a process or a tuple, by its kind.
// Its kind is a number with a name, and no enum: `slot_of` takes any byte for a kind, and `is_free` answers on those above 4.
#[derive(Clone, Copy, PartialEq, Eq)]
pub struct Slot {
    pub kind: u8,
    pub locality: Locality,
    // Of a process.
    pub node: Node,
    // Of a tuple: how many fields it has.
    pub count: u8,
    // The keys that a past process made: its continuation first.
    pub first: Key,
    pub second: Key,
    // The tuple that it used.
    pub used: Key,
    // The locality that it made.
    pub place: Locality,
    // A process's eight variables, or a tuple's fields.
    pub contents: [Datum; Variable::COUNT],
    pub refs: [Key; Reference::COUNT],
}

impl Slot {
    pub const FREE: u8 = 0;

    pub const LIVE: u8 = 1;

    pub const PAST: u8 = 2;

    pub const TUPLE: u8 = 3;

    pub const CONSUMED: u8 = 4;
}

#[derive(Clone, Copy)]
pub struct Net {
    pub present: Localities,
    pub slots: [Slot; Key::COUNT],
}

// Why a net is not written: the lent bytes are not as many as an image has.
#[derive(Clone, Copy, PartialEq, Eq)]
pub struct WrongLength;
