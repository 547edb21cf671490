// The net image, taken apart and put together.
ghost use Rattle.std.specs.Prelude.{◌≡◌, true, false, [], ◌∷◌, ◌++◌, ◌+◌, ◌*◌, ◌<◌, ◌≤◌, length, get_or, Some, None, MatchOption};
ghost use Rattle.std.specs.List.{list_all};
ghost use Rattle.laws.specs.Choice.{pick};
ghost use Rattle.laws.specs.Lists.{tab};
ghost use Rattle.laws.specs.Parts.{flat};
ghost use Rattle.laws.specs.Words.{word};
ghost use Rattle.names.specs.Names.{key_count, variable_count, reference_count, key, node, is_key, below_or_none};
ghost use Rattle.images.specs.Head.{byte, part_at, rest_zero};
ghost use Rattle.images.specs.Sizes.{head_size, slot_size, SlotSized};
ghost use Rattle.images.specs.Net.{datum0, is_tuple, node_or_count, first_bytes, slot_bytes, net_bytes, net_written, written_into, is_unset, is_set, is_datum, variables_in_range, field_or_blank, data_fill, made_are, refs_are, made_in_range, refs_in_range, free_in_range, process_in_range, tuple_in_range, slot_in_range, free_slot, index_of, slot_with, slot_at, is_free};
ghost use Rattle.images.specs.Changed.{variable_set, variable_put, reference_set, reference_put};
ghost use Rattle.images.specs.InPlace.{slot_put, present_put};
ghost use Rattle.images.specs.Read.{datum_of, slot_of, slot_formed, slots_formed, net_of, net_formed, read_net};

use super::head::{head_formed, part, rest_is_zero, write_head};
use super::{Datum, Field, Net, Slot, WrongLength, head};
use names::{Key, Localities, Locality, NONE, Name, Node, Reference, Variable};

pub const SIZE: usize = head::SIZE + SLOT_SIZE * Key::COUNT;

pub const SLOT_SIZE: usize = 56;

// The bytes of a net, and those of one slot.
pub type NetBytes = [u8; SIZE];

pub type SlotBytes = [u8; SLOT_SIZE];

// Where the parts of a slot stand: its kind, its locality, its node or count; the keys that it made, the tuple used and the locality made; the
// tags and the numbers of its contents; its references; and four bytes that no slot uses.
const KIND: usize = 0;

const HOME: usize = 1;

const NODE: usize = 2;

const FIRST: usize = 3;

const SECOND: usize = 4;

const USED: usize = 5;

const PLACE: usize = 6;

const TAGS: usize = 8;

const NUMBERS: usize = 16;

const REFS: usize = 48;

const REST: usize = 52;

// The words before those that no slot uses.
const WORDS: usize = REST / 4;

// ---- a slot taken apart

fn datum_of(p: &SlotBytes, j: usize) -> Datum
    requires { j < variable_count }
    ensures { result ≡ datum_of p.now j }
{
    Datum {
        tag: p[TAGS + j],
        number: laws::word_at(p, NUMBERS + 4 * j),
    }
}

#[tactic(auto, unfolding(laws::specs::Lists::tab))]
fn contents_of(p: &SlotBytes) -> [Datum; Variable::COUNT]
    ensures { result ≡ tab variable_count (datum_of p.now) }
{
    [
        datum_of(p, 0),
        datum_of(p, 1),
        datum_of(p, 2),
        datum_of(p, 3),
        datum_of(p, 4),
        datum_of(p, 5),
        datum_of(p, 6),
        datum_of(p, 7),
    ]
}

#[tactic(auto, unfolding(laws::specs::Lists::tab))]
fn refs_of(p: &SlotBytes) -> [Key; Reference::COUNT]
    ensures { result ≡ tab reference_count (λ j. key (byte p.now (48 + j))) }
{
    [
        Key(p[REFS]),
        Key(p[REFS + 1]),
        Key(p[REFS + 2]),
        Key(p[REFS + 3]),
    ]
}

// Byte 2 is a process's node, and a tuple's field count.
fn node_of(kind: u8, b: u8) -> Node
    ensures { result ≡ node (pick (is_tuple kind) 0 b) }
{
    if Slot::TUPLE <= kind {
        Node(0)
    } else {
        Node(b)
    }
}

fn count_of(kind: u8, b: u8) -> u8
    ensures { result ≡ pick (is_tuple kind) b 0 }
{
    if Slot::TUPLE <= kind { b } else { 0 }
}

#[tactic(auto, unfolding(crate::specs::Read::slot_of))]
pub fn slot_of(p: &SlotBytes) -> Slot
    ensures { result ≡ slot_of p.now }
{
    Slot {
        kind: p[KIND],
        locality: Locality(p[HOME]),
        node: node_of(p[KIND], p[NODE]),
        count: count_of(p[KIND], p[NODE]),
        first: Key(p[FIRST]),
        second: Key(p[SECOND]),
        used: Key(p[USED]),
        place: Locality(p[PLACE]),
        contents: contents_of(p),
        refs: refs_of(p),
    }
}

// ---- ranges

#[tactic(auto, unfolding(crate::specs::Net::is_unset))]
fn is_unset(d: Datum) -> bool
    ensures { result ≡ is_unset d }
{
    d.tag == Datum::UNSET && d.number == 0
}

#[tactic(auto, unfolding(crate::specs::Net::is_set))]
fn is_set(d: Datum) -> bool
    ensures { result ≡ is_set d }
{
    d.tag == Datum::VALUE || d.tag == Datum::LOCALITY && Locality::is_number(d.number)
}

#[tactic(auto, unfolding(crate::specs::Net::is_datum, crate::specs::Net::is_unset, crate::specs::Net::is_set))]
fn is_datum(d: Datum) -> bool
    ensures { result ≡ is_datum d }
{
    is_unset(d) || is_set(d)
}

#[tactic(auto, unfolding(crate::specs::Net::field_or_blank))]
fn field_or_blank(count: u8, j: u8, d: Datum) -> bool
    ensures { result ≡ field_or_blank count j d }
{
    if j < count { is_set(d) } else { is_unset(d) }
}

// What a slot made and used is this byte four times: 255 where nothing is held, and 0 in a free slot.
#[tactic(auto, unfolding(crate::specs::Net::made_are))]
pub fn made_are(b: u8, s: Slot) -> bool
    ensures { result ≡ made_are b s }
{
    s.first == Key(b) && s.second == Key(b) && s.used == Key(b) && s.place == Locality(b)
}

// Every reference is this byte: 255 where nothing is held, and 0 in a free slot.
pub fn refs_are(b: u8, refs: [Key; Reference::COUNT]) -> bool
    ensures { result ≡ refs_are b refs }
{
    (0..Reference::COUNT).all(|j| refs[j] == Key(b))
}

// ---- the form of a slot, looked at where it stands

fn variables_in_range(p: &SlotBytes) -> bool
    ensures { result ≡ variables_in_range (slot_of p.now).contents }
{
    (0..Variable::COUNT).all(|j| is_datum(datum_of(p, j)))
}

// The first so many are set, and the others blank.
fn data_fill(count: u8, p: &SlotBytes) -> bool
    ensures { result ≡ data_fill count (slot_of p.now).contents }
{
    (0..Variable::LIMIT).all(|j| field_or_blank(count, j, datum_of(p, j as usize)))
}

// Whether every byte is a key, or the mark for none.
fn keys_or_none(bytes: &[u8]) -> bool
    ensures { result ≡ list_all (below_or_none key_count) bytes.now }
{
    bytes.iter().all(|b| Key::or_none(*b).is_some())
}

#[tactic(auto, unfolding(crate::specs::Net::made_in_range, crate::specs::Read::slot_of))]
fn made_in_range(p: &SlotBytes) -> bool
    ensures { result ≡ made_in_range (slot_of p.now) }
{
    Key::or_none(p[FIRST]).is_some()
        && Key::or_none(p[SECOND]).is_some()
        && Key::or_none(p[USED]).is_some()
        && Locality::or_none(p[PLACE]).is_some()
}

fn refs_in_range(p: &SlotBytes) -> bool
    ensures { result ≡ refs_in_range (slot_of p.now).refs }
{
    keys_or_none(&p[REFS..REST])
}

// A free slot is 0 throughout; of its fourteen words the last is among the bytes that no slot uses.
fn free_in_range(p: &SlotBytes) -> bool
    requires { (byte p.now 0 ≡ 0) × (rest_zero slot_size p.now ≡ true) }
    ensures { result ≡ free_in_range (slot_of p.now) }
{
    (0..WORDS).all(|j| laws::word_at(p, 4 * j) == 0)
}

fn process_in_range(p: &SlotBytes) -> bool
    requires { byte p.now 0 < 3 }
    ensures { result ≡ process_in_range (slot_of p.now) }
{
    Locality::of_byte(p[HOME]).is_some()
        && Node::of_byte(p[NODE]).is_some()
        && refs_in_range(p)
        && variables_in_range(p)
}

fn tuple_in_range(p: &SlotBytes) -> bool
    requires { 3 ≤ byte p.now 0 }
    ensures { result ≡ tuple_in_range (slot_of p.now) }
{
    let s = slot_of(p);
    let count = p[NODE];
    Locality::of_byte(p[HOME]).is_some()
        && 1 <= count
        && count <= Field::LIMIT
        && made_are(NONE, s)
        && refs_are(NONE, s.refs)
        && data_fill(count, p)
}

// Of bytes whose unused ones are 0.
#[tactic(auto, unfolding(crate::specs::Net::slot_in_range, crate::specs::Read::slot_of))]
fn slot_in_range(p: &SlotBytes) -> bool
    requires { rest_zero slot_size p.now ≡ true }
    ensures { result ≡ slot_in_range (slot_of p.now) }
{
    match p[KIND] {
        Slot::FREE => free_in_range(p),
        Slot::LIVE => made_are(NONE, slot_of(p)) && process_in_range(p),
        Slot::PAST => made_in_range(p) && process_in_range(p),
        Slot::TUPLE | Slot::CONSUMED => tuple_in_range(p),
        _ => false,
    }
}

// The bytes that no slot uses, and the range.
#[tactic(auto, unfolding(crate::specs::Read::slot_formed))]
fn slot_formed(p: &SlotBytes) -> bool
    ensures { result ≡ slot_formed p.now }
{
    rest_is_zero(p, SLOT_SIZE) && slot_in_range(p)
}

// ---- a slot of an image

// Where the bytes of the slot with this key begin.
pub fn start(k: Key) -> usize
    ensures { result ≡ head_size + slot_size * k.0 }
{
    head::SIZE + SLOT_SIZE * k.0 as usize
}

// The bytes of slot i.
pub fn slot_bytes(net: &NetBytes, i: usize) -> &SlotBytes
    requires { i < key_count }
    ensures { result.now ≡ part_at slot_size net.now i }
{
    part(net, i)
}

// Slot i of an image.
pub fn slot_at(b: &NetBytes, i: usize) -> Slot
    requires { i < key_count }
    ensures { result ≡ slot_at (net_of b.now) i }
{
    slot_of(slot_bytes(b, i))
}

pub fn free_slot() -> Slot
    ensures { result ≡ free_slot }
{
    Slot {
        kind: Slot::FREE,
        locality: Locality(0),
        node: Node(0),
        count: 0,
        first: Key(0),
        second: Key(0),
        used: Key(0),
        place: Locality(0),
        contents: [Datum {
            tag: Datum::UNSET,
            number: 0,
        }; Variable::COUNT],
        refs: [Key(0); Reference::COUNT],
    }
}

// The key as a place in a table of 64; some place where there is no such key.
pub fn index_of(k: Key) -> usize
    ensures { result ≡ index_of k }
{
    if k.is_name() { k.0 as usize } else { 0 }
}

// Whether the slot holds no record. A kind that is none's counts as free; no image that was read has one.
pub fn is_free(s: Slot) -> bool
    ensures { result ≡ is_free s }
{
    s.kind == Slot::FREE || Slot::CONSUMED < s.kind
}

// ---- in place

// The slot with this key in an image; where there is no such key, nothing is held.
#[inline(always)]
pub fn slot_in(b: &NetBytes, k: Key) -> Slot
    ensures { result ≡ slot_with (net_of b.now) k }
{
    // A return, and no value of an if: a slot that comes by two ways is copied once more.
    if k.is_name() {
        return slot_at(b, k.0 as usize);
    }
    free_slot()
}

// A byte of the slot with this key; 0 where there is no such key.
fn byte_in(b: &NetBytes, k: Key, place: usize) -> u8
    requires { place < slot_size }
    ensures { result ≡ pick (is_key k) (byte (part_at slot_size b.now k.0) place) 0 }
{
    if k.is_name() { b[start(k) + place] } else { 0 }
}

// The kind of the slot with this key; free where there is no such key.
pub fn kind_in(b: &NetBytes, k: Key) -> u8
    ensures { result ≡ (slot_with (net_of b.now) k).kind }
{
    byte_in(b, k, KIND)
}

// The tuple that the event with this key used; none is said by the mark, and by key 0 where there is no such key.
pub fn used_in(b: &NetBytes, k: Key) -> Key
    ensures { result ≡ (slot_with (net_of b.now) k).used }
{
    Key(byte_in(b, k, USED))
}

// Where the record with this key is; locality 0 where there is no such key.
pub fn locality_in(b: &NetBytes, k: Key) -> Locality
    ensures { result ≡ (slot_with (net_of b.now) k).locality }
{
    Locality(byte_in(b, k, HOME))
}

// The localities that are present in an image.
#[tactic(auto, unfolding(crate::specs::Read::net_of))]
pub fn present_in(b: &NetBytes) -> Localities
    ensures { result ≡ (net_of b.now).present }
{
    Localities(laws::word_at(b, head::OWN))
}

// Where the bytes of the slot with this key begin, if there is such a key.
fn place_of(k: Key) -> Option<usize>
    ensures { result ≡ pick (is_key k) (Some (head_size + slot_size * k.0)) None }
{
    if k.is_name() { Some(start(k)) } else { None }
}

// The slot is written at its key; where there is no such key, nothing is.
pub fn put_slot(k: Key, x: Slot, d: &mut NetBytes)
    ensures { d.new ≡ slot_put k x d.old }
{
    let Some(at) = place_of(k) else { return };
    write_slot(x, &mut d[at..at + SLOT_SIZE]);
}

// The slot is written at its key, whose contents and references it keeps; where there is no such key, nothing is.
pub fn put_keeping(k: Key, x: Slot, d: &mut NetBytes)
    requires { (x.contents ≡ (slot_with (net_of d.old) k).contents) × (x.refs ≡ (slot_with (net_of d.old) k).refs) }
    ensures { d.new ≡ slot_put k x d.old }
{
    let Some(at) = place_of(k) else { return };
    write_around(x, &mut d[at..at + SLOT_SIZE]);
}

// ---- a record changed where it lies: its 56 bytes are lent as a slice, since of an array that is lent from a mutable slice the kit does not
// say what the slice ends as

fn set_variable(v: Variable, d: Datum, p: &mut [u8])
    requires { SlotSized p.old × (v.0 < variable_count) }
    ensures { p.new ≡ variable_set v.0 d p.old }
{
    let i = v.0 as usize;
    p[TAGS + i] = d.tag;
    let at = NUMBERS + 4 * i;
    laws::write_word(d.number, &mut p[at..at + 4]);
}

// A variable of the process with this key is set; where there is no such key, nothing is.
pub fn put_variable(k: Key, v: Variable, d: Datum, b: &mut NetBytes)
    requires { v.0 < variable_count }
    ensures { b.new ≡ variable_put k v d b.old }
{
    let Some(at) = place_of(k) else { return };
    set_variable(v, d, &mut b[at..at + SLOT_SIZE]);
}

fn set_reference(i: Reference, e: Key, p: &mut [u8])
    requires { SlotSized p.old × (i.0 < reference_count) }
    ensures { p.new ≡ reference_set i.0 e p.old }
{
    p[REFS + i.0 as usize] = e.0;
}

// A reference of the process with this key takes another key; where there is no such process, none does.
pub fn put_reference(k: Key, i: Reference, e: Key, b: &mut NetBytes)
    requires { i.0 < reference_count }
    ensures { b.new ≡ reference_put k i e b.old }
{
    let Some(at) = place_of(k) else { return };
    set_reference(i, e, &mut b[at..at + SLOT_SIZE]);
}

#[tactic(auto, unfolding(crate::specs::InPlace::present_put))]
pub fn put_present(p: Localities, d: &mut NetBytes)
    ensures { d.new ≡ present_put p d.old }
{
    laws::write_word(p.0, &mut d[head::OWN..head::LAST]);
}

// ---- the whole image

fn slots_formed(b: &NetBytes) -> bool
    ensures { result ≡ slots_formed b.now }
{
    (0..Key::COUNT).all(|i| slot_formed(slot_bytes(b, i)))
}

// The bytes as those of a net, if they are the writing of one in range.
#[tactic(auto, unfolding(crate::specs::Read::net_formed))]
fn formed(b: &[u8]) -> Option<&NetBytes>
    ensures { MatchOption result (net_formed b.now ≡ false) (λ image. (net_formed b.now ≡ true) × (image.now ≡ b.now)) }
{
    let image = b.as_array::<SIZE>()?;
    if head_formed(image, b'N') && slots_formed(image) {
        Some(image)
    } else {
        None
    }
}

// Whether any byte string is the writing of a net in range.
pub fn net_formed(b: &[u8]) -> bool
    ensures { result ≡ net_formed b.now }
{
    formed(b).is_some()
}

// What an image holds.
fn net_of(b: &NetBytes) -> Net
    ensures { result ≡ net_of b.now }
{
    let mut slots = [free_slot(); Key::COUNT];
    for i in 0..Key::COUNT {
        slots[i] = slot_at(b, i);
    }
    let present = present_in(b);
    Net { present, slots }
}

// Any byte string: the net that it is the writing of, or a refusal.
#[tactic(auto, unfolding(crate::specs::Read::read_net))]
pub fn read_net(b: &[u8]) -> Option<Net>
    ensures { result ≡ read_net b.now }
{
    let image = formed(b)?;
    Some(net_of(image))
}

// ---- writing, a part after the other: parts are lent as slices, as above

fn node_or_count(s: Slot) -> u8
    ensures { result ≡ node_or_count s }
{
    if Slot::TUPLE <= s.kind {
        s.count
    } else {
        s.node.0
    }
}

fn write_first(s: Slot, p: &mut [u8])
    requires { length p.old ≡ 8 }
    ensures { p.new ≡ first_bytes s }
{
    p.copy_from_slice(&[
        s.kind,
        s.locality.0,
        node_or_count(s),
        s.first.0,
        s.second.0,
        s.used.0,
        s.place.0,
        0,
    ]);
}

#[tactic(auto, unfolding(laws::specs::Lists::tab))]
fn write_tags(contents: [Datum; Variable::COUNT], p: &mut [u8])
    requires { length p.old ≡ 8 }
    ensures { p.new ≡ tab variable_count (λ j. (get_or contents j datum0).tag) }
{
    p.copy_from_slice(&[
        contents[0].tag,
        contents[1].tag,
        contents[2].tag,
        contents[3].tag,
        contents[4].tag,
        contents[5].tag,
        contents[6].tag,
        contents[7].tag,
    ]);
}

fn write_numbers(contents: [Datum; Variable::COUNT], p: &mut [u8])
    requires { length p.old ≡ 4 * variable_count }
    ensures { p.new ≡ flat (tab variable_count (λ j. word (get_or contents j datum0).number)) }
{
    for j in 0..Variable::COUNT {
        let at = 4 * j;
        laws::write_word(contents[j].number, &mut p[at..at + 4]);
    }
}

// The references, and the four bytes after them that no slot uses.
#[tactic(auto, unfolding(laws::specs::Lists::tab))]
fn write_refs(refs: [Key; Reference::COUNT], p: &mut [u8])
    requires { length p.old ≡ 8 }
    ensures { p.new ≡ tab reference_count (λ j. (get_or refs j (key 0)).0) ++ (0 ∷ 0 ∷ 0 ∷ 0 ∷ []) }
{
    p.copy_from_slice(&[refs[0].0, refs[1].0, refs[2].0, refs[3].0, 0, 0, 0, 0]);
}

fn write_slot(s: Slot, p: &mut [u8])
    requires { SlotSized p.old }
    ensures { p.new ≡ slot_bytes s }
{
    let contents = s.contents;
    let refs = s.refs;
    write_first(s, &mut p[0..TAGS]);
    write_tags(contents, &mut p[TAGS..NUMBERS]);
    write_numbers(contents, &mut p[NUMBERS..REFS]);
    write_refs(refs, &mut p[REFS..SLOT_SIZE]);
}

// A slot whose contents and references stand there already: only what is around them is written.
fn write_around(s: Slot, p: &mut [u8])
    requires slot_sized { SlotSized p.old }
    requires kept { (s.contents ≡ (slot_of p.old).contents) × (s.refs ≡ (slot_of p.old).refs) }
    ensures { p.new ≡ slot_bytes s }
{
    write_first(s, &mut p[0..TAGS]);
    laws::write_word(0, &mut p[REST..SLOT_SIZE]);
}

fn write_image(n: Net, d: &mut NetBytes)
    ensures { d.new ≡ net_bytes n }
{
    write_head(b'N', n.present.0, &mut d[0..head::SIZE]);
    for i in 0..Key::COUNT {
        let at = head::SIZE + SLOT_SIZE * i;
        write_slot(n.slots[i], &mut d[at..at + SLOT_SIZE]);
    }
}

// Every lent byte is the net's, or none is changed.
#[tactic(auto, unfolding(crate::specs::Net::net_written, crate::specs::Net::written_into))]
pub fn write_net(n: Net, d: &mut [u8]) -> Result<(), WrongLength>
    ensures { (result ≡ written_into d.old) × (d.new ≡ net_written n d.old) }
{
    let Some(image) = d.as_mut_array::<SIZE>() else {
        return Err(WrongLength);
    };
    write_image(n, image);
    Ok(())
}
