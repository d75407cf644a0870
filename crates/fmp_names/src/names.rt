//! The names of a configuration.
ghost use Rattle.std.specs.Prelude.{◌≡◌, ◌≤◌, ◌++◌, ◌∷◌, [], ◌<◌, map, get_or, slice_set, OnOk, OnErr, IfSome, Some, slice_get, take, option_map, pos, true, false, length, position};
ghost use Rattle.std.specs.Prelude.{IsTrue, ◌↔◌, ◌&&◌, nat_eq};
ghost use Rattle.std.specs.Cmp.Lexicographic.{pointwise};
ghost use Rattle.std.specs.Option.{option_copied};
ghost use Rattle.std.specs.List.{list_any};
ghost use Rattle.std.specs.Map.{keys_of, lookup};
ghost use Rattle.std.specs.Str.{bytes_eq};
ghost use Rattle.fmp_codes.specs.declared.kinds.ObjectKind.{ObjectKind};
ghost use Rattle.fmp_codes.specs.Kinds.{most_of};
ghost use Rattle.fmp_names.specs.Names as spec;

use crate::constants::constant_in;
use crate::likely::Likely;
use crate::pieces::{Piece, Pieces};
use fmp_bytes::{are_digits, following, is_identifier};
use fmp_codes::{NameKind, ObjectKind};
use std::alloc::{AllocError, Global};
use std::marker::Model;

/// The greatest number of bytes of a name.
pub const MOST_NAME_BYTES: usize = 64;

/// The greatest number of defined names.
pub const MOST_DEFINED: usize = 1024;

/// How many processors there are, the names of the objects and functions, and names that are defined to stand for numbers.
/// In each kind of objects and among the functions numbers count from 1, in the order in which names were added. Objects and
/// defined names share one name space, and functions have one of their own.
#[derive(Drop)]
pub struct Names {
    alloc: Global,
    processors: u8,
    objects: [Vec<Vec<u8>>; 8],
    functions: Vec<Vec<u8>>,
    defined: Vec<(Vec<u8>, u32)>,
    /// What words may name, for readers that compare a name before they believe it.
    likely: Likely,
    /// The short names of objects, for printing.
    pieces: Pieces,
}

impl Model for Names {
    ghost use Rattle.std.specs.Prelude.{map};
    ghost use Rattle.fmp_names.specs.Names.{NameLists, AreValid, lists_of, texts};
    ghost use Rattle.fmp_names.specs.Pieces.{AreFronts};

    ghost Value = { NameLists };

    ghost view = { λ n. lists_of n.processors n.objects n.functions n.defined };

    ghost invariant = { λ n. AreValid (lists_of n.processors n.objects n.functions n.defined) × AreFronts (map texts n.objects) n.pieces.pieces.items };
}

/// Whether the text can be a name: an identifier of at most 64 bytes.
#[tactic(auto, unfolding(crate::specs::Names::is_name))]
pub fn is_name(text: &[u8]) -> bool
    ensures { result ≡ spec.is_name text.now }
{
    is_identifier(text) && text.len() <= MOST_NAME_BYTES
}

/// Whether the word stands for a number or a mode in some place of a call.
#[tactic(auto, unfolding(crate::specs::Names::is_constant))]
pub fn is_constant(word: &[u8]) -> bool
    ensures { result ≡ spec.is_constant word.now }
{
    constant_in(word).is_some()
}

/// Whether the word is `P` and then one or more decimal digits.
#[tactic(auto, unfolding(crate::specs::Names::is_processor_word))]
pub fn is_processor_word(word: &[u8]) -> bool
    ensures { result ≡ spec.is_processor_word word.now }
{
    match following(b'P', word) {
        Some(digits) => are_digits(10, digits),
        None => false,
    }
}

/// Whether no object and no defined name may be this word: a constant, `idle`, or `P` followed by digits only.
#[tactic(auto, unfolding(crate::specs::Names::is_reserved))]
pub fn is_reserved(word: &[u8]) -> bool
    ensures { result ≡ spec.is_reserved word.now }
{
    word == b"idle".as_slice() || is_processor_word(word) || is_constant(word)
}

/// Whether both are the same bytes. It looks at the last ones first, since names often begin alike.
fn are_same_bytes(one: &[u8], other: &[u8]) -> bool
    ensures { result ≡ bytes_eq one.now other.now }
{
    one.len() == other.len() && one.last() == other.last() && one == other
}

/// Whether one of the texts has exactly these bytes.
fn is_among(list: &[Vec<u8>], name: &[u8]) -> bool
    ensures { result ≡ list_any (λ v. bytes_eq name.now v.items) list.now }
{
    list.iter().any(|it| are_same_bytes(name, it.as_slice()))
}

/// Whether the list holds a name of exactly these bytes.
#[tactic(auto, using(crate::proofs::Listed::list_any_map))]
fn has_name(set: &Vec<Vec<u8>>, name: &[u8]) -> bool
    ensures { result ≡ spec.has_name (spec.texts set.now) name.now }
{
    is_among(set, name)
}

/// The place of a name in a list.
fn index_of(list: &Vec<Vec<u8>>, name: &[u8]) -> Option<usize>
    ensures index { result ≡ position (λ v. bytes_eq name.now v.items) list.now.items }
    ensures within { IfSome result (λ i. i < length list.now.items) }
{
    list.iter()
        .position(|it| are_same_bytes(name, it.as_slice()))
}

/// The number that the name stands for in a list of definitions.
fn number_among(defined: &[(Vec<u8>, u32)], name: &[u8]) -> Option<u32>
    ensures { result ≡ lookup (λ v. bytes_eq name.now v.items) defined.now }
{
    match defined {
        [] => None,
        [first, rest @ ..] => {
            if are_same_bytes(name, first.0.as_slice()) {
                Some(first.1)
            } else {
                number_among(rest, name)
            }
        }
    }
}

/// Whether the objects of at least one kind have this name among theirs.
fn some_has_name(sets: &[Vec<Vec<u8>>; 8], name: &[u8]) -> bool
    ensures { result ≡ list_any (λ set. spec.has_name (spec.texts set) name.now) sets.now }
{
    sets.iter().any(|set| has_name(set, name))
}

/// Adds a name after all others of the set, which must not hold it yet. An `Err` changes nothing.
fn insert_name(set: &mut Vec<Vec<u8>>, name: Vec<u8>) -> Result<(), AllocError>
    requires { spec.has_name (spec.texts set.old) name.items ≡ false }
    ensures ok { OnOk result (spec.texts set.new ≡ spec.texts set.old ++ name.items ∷ []) }
    ensures err { OnErr result (spec.texts set.new ≡ spec.texts set.old) }
{
    set.push(name)?;
    Ok(())
}

/// Adds a name after the others of the kind at this place, which must not have it yet. An `Err` changes nothing.
fn insert_object(
    objects: &mut [Vec<Vec<u8>>; 8],
    place: usize,
    name: Vec<u8>,
) -> Result<(), AllocError>
    requires within { place < 8 }
    requires new { spec.has_name (get_or (map spec.texts objects.old) place []) name.items ≡ false }
    ensures ok { OnOk result (map spec.texts objects.new ≡ slice_set (map spec.texts objects.old) place (get_or (map spec.texts objects.old) place [] ++ name.items
        ∷ [])) }
    ensures err { OnErr result (map spec.texts objects.new ≡ map spec.texts objects.old) }
{
    insert_name(&mut objects[place], name)
}

/// Keeps in mind that the next object of a kind has this name.
fn remember(
    likely: &mut Likely,
    objects: &[Vec<Vec<u8>>; 8],
    kind: ObjectKind,
    name: &[u8],
) -> Result<(), AllocError> {
    let place = kind.place();
    likely.add(place, name, objects[place].len().saturating_add(1))
}

/// Adds a name that is not defined yet with the number that it stands for, after all others. An `Err` changes nothing.
fn insert_definition(
    defined: &mut Vec<(Vec<u8>, u32)>,
    name: Vec<u8>,
    number: u32,
) -> Result<(), AllocError>
    requires { spec.has_name (keys_of (spec.definitions defined.old)) name.items ≡ false }
    ensures ok { OnOk result (spec.definitions defined.new ≡ spec.definitions defined.old ++ (name.items, number) ∷ []) }
    ensures err { OnErr result (spec.definitions defined.new ≡ spec.definitions defined.old) }
{
    defined.push((name, number))?;
    Ok(())
}

/// Whether both have the same texts in the same order.
fn are_same_texts(one: &[Vec<u8>], other: &[Vec<u8>]) -> bool
    ensures { result ≡ pointwise (λ x y. bytes_eq x.items y.items) one.now other.now }
{
    match one {
        [] => other.is_empty(),
        [a, ones @ ..] => match other {
            [] => false,
            [b, others @ ..] => a.as_slice() == b.as_slice() && are_same_texts(ones, others),
        },
    }
}

/// Whether both have the same texts with the same numbers in the same order.
fn are_same_pairs(one: &[(Vec<u8>, u32)], other: &[(Vec<u8>, u32)]) -> bool
    ensures { result ≡ pointwise (λ x y. bytes_eq x.0.items y.0.items && nat_eq x.1 y.1) one.now other.now }
{
    match one {
        [] => other.is_empty(),
        [a, ones @ ..] => match other {
            [] => false,
            [b, others @ ..] => {
                a.0.as_slice() == b.0.as_slice() && a.1 == b.1 && are_same_pairs(ones, others)
            }
        },
    }
}

/// Whether both hold the same names in the same order.
fn is_same_set(one: &Vec<Vec<u8>>, other: &Vec<Vec<u8>>) -> bool
    ensures { IsTrue result ↔ (spec.texts one.now ≡ spec.texts other.now) }
{
    are_same_texts(one, other)
}

/// Whether in each kind of objects both have the same names in the same order.
fn are_same_sets(one: &[Vec<Vec<u8>>; 8], other: &[Vec<Vec<u8>>; 8]) -> bool
    ensures { IsTrue result ↔ (map spec.texts one.now ≡ map spec.texts other.now) }
{
    for place in 0..8 {
        if !is_same_set(&one[place], &other[place]) {
            return false;
        }
    }
    true
}

/// Whether both define the same names in the same order, and for the same numbers.
fn are_same_definitions(one: &Vec<(Vec<u8>, u32)>, other: &Vec<(Vec<u8>, u32)>) -> bool
    ensures { IsTrue result ↔ (spec.definitions one.now ≡ spec.definitions other.now) }
{
    are_same_pairs(one, other)
}

impl Names {
    /// No names yet, for a number of processors.
    pub fn new(alloc: Global, processors: u8) -> Self
        requires least { 1 ≤ processors }
        requires most { processors ≤ 8 }
        ensures { result ≡ spec.no_names processors }
    {
        Names {
            alloc,
            processors,
            objects: [
                Vec::new(alloc),
                Vec::new(alloc),
                Vec::new(alloc),
                Vec::new(alloc),
                Vec::new(alloc),
                Vec::new(alloc),
                Vec::new(alloc),
                Vec::new(alloc),
            ],
            functions: Vec::new(alloc),
            defined: Vec::new(alloc),
            likely: Likely::new(alloc),
            pieces: Pieces::new(alloc),
        }
    }

    /// Says anew how many processors there are.
    pub fn set_processors(&mut self, processors: u8)
        requires least { 1 ≤ processors }
        requires most { processors ≤ 8 }
        ensures { self.new ≡ spec.with_processor_count self.old processors }
    {
        self.processors = processors;
    }

    /// What holds of all names, for proofs. It does nothing.
    pub fn validity(&self)
        ensures { spec.AreValid self.now }
    {
        let _processors = &self.processors;
    }

    /// Adds a name, which has the next number of its kind. An `Err` changes nothing.
    pub fn add(&mut self, kind: NameKind, name: &[u8]) -> Result<(), AllocError>
        requires name { spec.is_name name.now ≡ true }
        requires free { spec.is_free kind name.now ≡ true }
        requires new { spec.is_taken self.old kind name.now ≡ false }
        requires room { spec.has_room self.old kind ≡ true }
        ensures ok { OnOk result (self.new ≡ spec.with_name self.old kind name.now) }
        ensures err { OnErr result (self.new ≡ self.old) }
    {
        let copy = Vec::from_slice(self.alloc, name)?;
        match kind {
            NameKind::Object(kind) => {
                let place = kind.place();
                let number = self.objects[place].len() + 1;
                self.pieces.prepare()?;
                remember(&mut self.likely, &self.objects, kind, name)?;
                insert_object(&mut self.objects, place, copy)?;
                self.pieces.set(place, number, name);
                Ok(())
            }
            NameKind::Function => insert_name(&mut self.functions, copy),
        }
    }

    /// Adds a name that stands for a number. An `Err` changes nothing.
    #[tactic(auto, unfolding(crate::specs::Names::is_defined))]
    pub fn define(&mut self, name: &[u8], number: u32) -> Result<(), AllocError>
        requires name { spec.is_name name.now ≡ true }
        requires free { spec.is_reserved name.now ≡ false }
        requires object { spec.is_object self.old name.now ≡ false }
        requires new { spec.is_defined self.old name.now ≡ false }
        requires room { spec.has_room_to_define self.old ≡ true }
        ensures ok { OnOk result (self.new ≡ spec.with_defined_name self.old name.now number) }
        ensures err { OnErr result (self.new ≡ self.old) }
    {
        let copy = Vec::from_slice(self.alloc, name)?;
        insert_definition(&mut self.defined, copy, number)
    }

    /// Whether one more name of this kind is within its limit: 64 tasks, 32 objects of each other kind, any number of functions.
    pub fn has_room(&self, kind: NameKind) -> bool
        ensures { result ≡ spec.has_room self.now kind }
    {
        match kind {
            NameKind::Object(object) => self.list(kind).len() < object.limit(),
            NameKind::Function => true,
        }
    }

    /// Whether one more defined name is within the limit of 1024.
    pub fn has_room_to_define(&self) -> bool
        ensures { result ≡ spec.has_room_to_define self.now }
    {
        self.defined.len() < MOST_DEFINED
    }

    /// Whether an object of some kind has this name.
    #[tactic(auto, using(crate::proofs::Listed::list_any_map), unfolding(crate::specs::Names::is_object))]
    pub fn contains_object(&self, name: &[u8]) -> bool
        ensures { result ≡ spec.is_object self.now name.now }
    {
        some_has_name(&self.objects, name)
    }

    /// Whether a function has this name.
    pub fn contains_function(&self, name: &[u8]) -> bool
        ensures { result ≡ spec.is_taken self.now NameKind.Function name.now }
    {
        has_name(&self.functions, name)
    }

    /// The number that a defined name stands for.
    pub fn defined(&self, name: &[u8]) -> Option<u32>
        ensures { result ≡ spec.number_defined self.now name.now }
    {
        number_among(&self.defined, name)
    }

    /// Whether two have the same number of processors and the same names in the same order, the defined ones with the same numbers.
    pub fn is_same(&self, other: &Names) -> bool
        ensures { IsTrue result ↔ (self.now ≡ other.now) }
    {
        self.processors == other.processors
            && are_same_sets(&self.objects, &other.objects)
            && is_same_set(&self.functions, &other.functions)
            && are_same_definitions(&self.defined, &other.defined)
    }

    /// How many processors there are.
    pub fn processors(&self) -> u8
        ensures value { result ≡ self.now.processors }
        ensures least { 1 ≤ result }
        ensures most { result ≤ 8 }
    {
        self.processors
    }

    /// The number of this name of the kind.
    pub fn number(&self, kind: NameKind, name: &[u8]) -> Option<usize>
        ensures value { result ≡ spec.number_of self.now kind name.now }
        ensures least { IfSome result (λ n. 1 ≤ n) }
        ensures most { (k : ObjectKind) → kind ≡ NameKind.Object k → IfSome result (λ n. n ≤ most_of k) }
    {
        let list = self.list(kind);
        let index = index_of(list, name)?;
        let count = list.len();
        prove!(index < count);
        Some(index + 1)
    }

    /// The number of the object of this kind with this name, as calls write it.
    pub fn object(&self, kind: ObjectKind, name: &[u8]) -> Option<i32>
        ensures { result ≡ option_map pos (spec.number_of self.now (NameKind.Object kind) name.now) }
    {
        let number = self.number(NameKind::Object(kind), name)?;
        Some(number as i32)
    }

    /// The numbers of two objects of this kind that a word with this key may name, the likelier first. Nothing is said of them:
    /// the caller compares the name.
    #[inline(always)]
    pub fn likely_objects(&self, kind: ObjectKind, key: u64) -> (u8, u8) {
        self.likely.objects(kind.place(), key)
    }

    /// The name of the object of this kind with this number as a piece, where it has at most 16 bytes.
    #[inline(always)]
    pub fn piece(&self, kind: ObjectKind, number: usize) -> Option<&Piece>
        requires { number < 128 }
        ensures few { IfSome result (λ p. p.now.length ≤ 16) }
        ensures name { IfSome result (λ p. spec.name_of self.now (NameKind.Object kind) number ≡ Some (take p.now.length p.now.bytes)) }
    {
        self.pieces.get(kind.place(), number)
    }

    /// The name of the kind with this number.
    #[tactic(auto, unfolding(crate::specs::Names::name_of))]
    pub fn name(&self, kind: NameKind, number: usize) -> Option<&[u8]>
        ensures { option_copied result ≡ spec.name_of self.now kind number }
    {
        if number == 0 {
            return None;
        }
        self.nth(kind, number - 1)
    }

    /// The name of the kind at this index, which counts from 0, and `None` after the last.
    fn nth(&self, kind: NameKind, index: usize) -> Option<&[u8]>
        ensures { option_copied result ≡ slice_get (spec.names_of self.now kind) index }
    {
        let name = self.list(kind).get(index)?;
        Some(name.as_slice())
    }

    /// The names of the kind, in the order of their numbers.
    fn list(&self, kind: NameKind) -> &Vec<Vec<u8>>
        ensures names { spec.texts result.now ≡ spec.names_of self.now kind }
        ensures most { (k : ObjectKind) → kind ≡ NameKind.Object k → length result.now.items ≤ most_of k }
    {
        match kind {
            NameKind::Object(kind) => &self.objects[kind.place()],
            NameKind::Function => &self.functions,
        }
    }
}
