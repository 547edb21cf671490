// The script image, taken apart: 64 nodes, each held to the row of its kind.
ghost use Rattle.std.specs.Prelude.{◌≡◌, ◌+◌, ◌*◌, ◌<◌, true, false, MatchOption};
ghost use Rattle.names.specs.Names.{node_count};
ghost use Rattle.images.specs.Head.{part_at};
ghost use Rattle.images.specs.Sizes.{head_size, node_size};
ghost use Rattle.images.specs.Script.{kind_count, field_count, row_of, node_in_place, target_in_place, reference_in_place, field_in_range, count_in_place, field_in_place, fields_in_place, same_formal, fresh_formal, formals_distinct, places_in_row, fields_in_row, action_in_range};
ghost use Rattle.images.specs.Formed.{nil_word};
ghost use Rattle.images.specs.Read.{field_of, action_of, action_formed, nodes_formed, script_of, script_formed, nil_action, node_with, read_script};

use super::head::{head_formed, part, rest_is_zero};
use super::{Action, Field, ReferenceUse, Row, Script, TargetUse, head};
use names::{NONE, Name, Node, Reference};

pub const SIZE: usize = head::SIZE + NODE_SIZE * Node::COUNT;

pub const NODE_SIZE: usize = 32;

// The bytes of a script, and of one of its nodes.
pub type ScriptBytes = [u8; SIZE];

pub type NodeBytes = [u8; NODE_SIZE];

// Where the parts of a node stand: its kind, its next and its other node, its target, its reference, how many fields it has, and their tags and
// numbers.
const KIND: usize = 0;

const NEXT: usize = 1;

const OTHER: usize = 2;

const TARGET_TAG: usize = 3;

const TARGET: usize = 4;

const REF: usize = 5;

const COUNT: usize = 6;

const TAGS: usize = 8;

const NUMBERS: usize = 12;

const WORDS: usize = NODE_SIZE / 4;

// What stands where no field does.
const BLANK: Field = Field { tag: 0, number: 0 };

// Document 01's table: which places each kind uses.
static ROWS: [Row; Action::KINDS as usize] = [
    // nil
    Row {
        next: false,
        other: false,
        target: TargetUse::Unused,
        reference: ReferenceUse::Unused,
        fields: 0,
    },
    // out
    Row {
        next: true,
        other: false,
        target: TargetUse::Given,
        reference: ReferenceUse::Optional,
        fields: Field::VARIABLE,
    },
    // in
    Row {
        next: true,
        other: false,
        target: TargetUse::Given,
        reference: ReferenceUse::Optional,
        fields: Field::LOCALITY_FORMAL,
    },
    // read
    Row {
        next: true,
        other: false,
        target: TargetUse::Given,
        reference: ReferenceUse::Optional,
        fields: Field::LOCALITY_FORMAL,
    },
    // newloc
    Row {
        next: true,
        other: false,
        target: TargetUse::Bound,
        reference: ReferenceUse::Optional,
        fields: 0,
    },
    // eval
    Row {
        next: true,
        other: true, // is spawned
        target: TargetUse::Given,
        reference: ReferenceUse::Optional,
        fields: 0,
    },
    // split
    Row {
        next: true,
        other: true, // goes right
        target: TargetUse::Unused,
        reference: ReferenceUse::Unused,
        fields: 0,
    },
    // roll
    Row {
        next: false,
        other: false,
        target: TargetUse::Unused,
        reference: ReferenceUse::Needed,
        fields: 0,
    },
];

fn row_of(kind: u8) -> Row
    requires { kind < kind_count }
    ensures { result ≡ row_of kind }
{
    ROWS[kind as usize]
}

// ---- a node taken apart

fn field_of(p: &NodeBytes, j: usize) -> Field
    requires { j < field_count }
    ensures { result ≡ field_of p.now j }
{
    Field {
        tag: p[TAGS + j],
        number: laws::word_at(p, NUMBERS + 4 * j),
    }
}

#[tactic(auto, unfolding(crate::specs::Read::action_of, laws::specs::Lists::tab))]
pub fn action_of(p: &NodeBytes) -> Action
    ensures { result ≡ action_of p.now }
{
    Action {
        kind: p[KIND],
        next: Node(p[NEXT]),
        other: Node(p[OTHER]),
        target: Field {
            tag: p[TARGET_TAG],
            number: p[TARGET] as u32,
        },
        reference: Reference(p[REF]),
        count: p[COUNT],
        fields: [
            field_of(p, 0),
            field_of(p, 1),
            field_of(p, 2),
            field_of(p, 3),
        ],
    }
}

// ---- a node held to its row

#[tactic(auto, unfolding(crate::specs::Script::node_in_place))]
fn node_in_place(used: bool, n: Node) -> bool
    ensures { result ≡ node_in_place used n.0 }
{
    if used { n.is_name() } else { n == Node(0) }
}

#[tactic(auto, unfolding(crate::specs::Script::target_in_place))]
fn target_in_place(used: TargetUse, f: Field) -> bool
    ensures { result ≡ target_in_place used f }
{
    match used {
        TargetUse::Unused => f == BLANK,
        TargetUse::Given => f.tag >= Field::LOCALITY
            && f.tag <= Field::VARIABLE
            && f.number < Field::NAMES,
        TargetUse::Bound => f.tag == Field::VARIABLE && f.number < Field::NAMES,
    }
}

#[tactic(auto, unfolding(crate::specs::Script::reference_in_place))]
fn reference_in_place(used: ReferenceUse, r: Reference) -> bool
    ensures { result ≡ reference_in_place used r.0 }
{
    match used {
        ReferenceUse::Unused => r == Reference::NONE,
        ReferenceUse::Optional => r.is_reference_or_none(),
        ReferenceUse::Needed => r.0 < Reference::LIMIT,
    }
}

#[tactic(auto, unfolding(crate::specs::Script::field_in_range))]
fn field_in_range(top: u8, f: Field) -> bool
    ensures { result ≡ field_in_range top f }
{
    f.tag >= Field::VALUE && f.tag <= top && (f.tag == Field::VALUE || f.number < Field::NAMES)
}

#[tactic(auto, unfolding(crate::specs::Script::count_in_place))]
fn count_in_place(top: u8, count: u8) -> bool
    ensures { result ≡ count_in_place top count }
{
    if top == 0 {
        count == 0
    } else {
        count >= 1 && count <= Field::LIMIT
    }
}

// Field j of a node: those past the count are blank.
#[tactic(auto, unfolding(crate::specs::Script::field_in_place))]
fn field_in_place(top: u8, count: u8, j: usize, f: Field) -> bool
    ensures { result ≡ field_in_place top count j f }
{
    if j < count as usize {
        field_in_range(top, f)
    } else {
        f == BLANK
    }
}

fn fields_in_place(top: u8, a: Action) -> bool
    ensures { result ≡ fields_in_place top a.count a.fields }
{
    (0..Field::COUNT).all(|j| field_in_place(top, a.count, j, a.fields[j]))
}

#[tactic(auto, unfolding(crate::specs::Script::same_formal))]
fn same_formal(f: Field, g: Field) -> bool
    ensures { result ≡ same_formal f g }
{
    f.tag >= Field::VALUE_FORMAL && g.tag >= Field::VALUE_FORMAL && f.number == g.number
}

// No formal before this one names its variable.
fn fresh_formal(fields: [Field; Field::COUNT], j: usize) -> bool
    requires { j < field_count }
    ensures { result ≡ fresh_formal fields j }
{
    (0..j).all(|i| !same_formal(fields[i], fields[j]))
}

fn formals_distinct(fields: [Field; Field::COUNT]) -> bool
    ensures { result ≡ formals_distinct fields }
{
    (0..Field::COUNT).all(|j| fresh_formal(fields, j))
}

#[tactic(auto, unfolding(crate::specs::Script::places_in_row))]
fn places_in_row(r: Row, a: Action) -> bool
    ensures { result ≡ places_in_row r a }
{
    node_in_place(r.next, a.next)
        && node_in_place(r.other, a.other)
        && target_in_place(r.target, a.target)
        && reference_in_place(r.reference, a.reference)
}

#[tactic(auto, unfolding(crate::specs::Script::fields_in_row))]
fn fields_in_row(r: Row, a: Action) -> bool
    ensures { result ≡ fields_in_row r a }
{
    count_in_place(r.fields, a.count) && fields_in_place(r.fields, a) && formals_distinct(a.fields)
}

#[tactic(auto, unfolding(crate::specs::Script::action_in_range))]
fn action_in_range(a: Action) -> bool
    ensures { result ≡ action_in_range a }
{
    if a.kind >= Action::KINDS {
        return false;
    }
    let r = row_of(a.kind);
    places_in_row(r, a) && fields_in_row(r, a)
}

// ---- the form of a node, looked at where it stands: p is its 32 bytes

// Word j of a nil node: all are 0 but for the one with its reference.
#[tactic(auto, unfolding(laws::specs::Words::number))]
fn nil_word(j: usize) -> u32
    ensures { result ≡ nil_word j }
{
    if j == 1 {
        laws::word_of(0, NONE, 0, 0)
    } else {
        0
    }
}

// Whether a node is nil, by its words: most nodes of a script are.
fn is_nil(p: &NodeBytes) -> bool
    ensures { (result ≡ true) → (action_formed p.now ≡ true) }
{
    (0..WORDS).all(|j| laws::word_at(p, 4 * j) == nil_word(j))
}

// The bytes that no node uses, and the range.
#[tactic(auto, unfolding(crate::specs::Read::action_formed))]
fn action_formed(p: &NodeBytes) -> bool
    ensures { result ≡ action_formed p.now }
{
    is_nil(p) || rest_is_zero(p, NODE_SIZE) && action_in_range(action_of(p))
}

// ---- a node of an image

// Where the bytes of the node of this number begin.
pub fn start(k: Node) -> usize
    ensures { result ≡ head_size + node_size * k.0 }
{
    head::SIZE + NODE_SIZE * k.0 as usize
}

// The bytes of node i of an image.
pub fn node_bytes(script: &ScriptBytes, i: usize) -> &NodeBytes
    requires { i < node_count }
    ensures { result.now ≡ part_at node_size script.now i }
{
    part::<NODE_SIZE>(script, i)
}

fn nil() -> Action
    ensures { result ≡ nil_action }
{
    Action {
        kind: Action::NIL,
        next: Node(0),
        other: Node(0),
        target: BLANK,
        reference: Reference::NONE,
        count: 0,
        fields: [BLANK; Field::COUNT],
    }
}

// The node of this number in an image; where there is no such node, nil.
pub fn node_in(script: &ScriptBytes, k: Node) -> Action
    ensures { result ≡ node_with (script_of script.now) k }
{
    if k.is_name() {
        action_of(node_bytes(script, k.0 as usize))
    } else {
        nil()
    }
}

// ---- the whole image

fn nodes_formed(script: &ScriptBytes) -> bool
    ensures { result ≡ nodes_formed script.now }
{
    (0..Node::COUNT).all(|i| action_formed(node_bytes(script, i)))
}

// The bytes as those of a script, if they are the writing of one in range.
#[tactic(auto, unfolding(crate::specs::Read::script_formed))]
fn formed(b: &[u8]) -> Option<&ScriptBytes>
    ensures { MatchOption result (script_formed b.now ≡ false) (λ script. (script_formed b.now ≡ true) × (script.now ≡ b.now)) }
{
    let Ok(script) = <&ScriptBytes>::try_from(b) else {
        return None;
    };
    if head_formed(script, b'S') && laws::word_at(script, head::OWN) == 0 && nodes_formed(script) {
        Some(script)
    } else {
        None
    }
}

// Whether any byte string is the writing of a script in range.
pub fn script_formed(b: &[u8]) -> bool
    ensures { result ≡ script_formed b.now }
{
    formed(b).is_some()
}

// What an image holds.
fn script_of(script: &ScriptBytes) -> Script
    ensures { result ≡ script_of script.now }
{
    let mut nodes = [nil(); Node::COUNT];
    for i in 0..Node::COUNT {
        nodes[i] = action_of(node_bytes(script, i));
    }
    Script { nodes }
}

// Any byte string: the script that it is the writing of, or a refusal.
#[tactic(auto, unfolding(crate::specs::Read::read_script))]
pub fn read_script(b: &[u8]) -> Option<Script>
    ensures { result ≡ read_script b.now }
{
    let script = formed(b)?;
    Some(script_of(script))
}
