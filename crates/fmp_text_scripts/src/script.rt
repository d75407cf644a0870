//! What the functions of a configuration ask.
ghost use Rattle.std.specs.Prelude.{◌≡◌, ◌==◌, ◌<◌, ◌↔◌, ℕ, IsTrue, length, slice_get, slice_index, map, find};
ghost use Rattle.std.specs.List.{list_all, list_any, position_or_len};
ghost use Rattle.std.specs.Option.{option_copied};
ghost use Rattle.fmp_text_scripts.specs.Scripts.{AreStraight, script_of, script_of_option, ways_of, ways_of_option};
ghost use Rattle.fmp_text_scripts.specs.Ways as spec;
ghost use Rattle.fmp_text_scripts.specs.Views.{steps_of};

use crate::equality::are_same_steps;
use crate::ways::{Way, are_same_ways, onward};
use fmp_codes::{Call, Code};
use std::marker::Model;

/// The steps of the tasks and handlers of a function, which is given by its number, and the ways between them.
#[derive(Drop)]
pub struct Script {
    pub function: usize,
    pub steps: Vec<Call>,
    pub ways: Vec<Way>,
}

/// How many functions there may be.
const FUNCTIONS: usize = 256;

/// Scripts, in the order of their text. A function without one asks nothing.
#[derive(Drop)]
pub struct Scripts {
    scripts: Vec<Script>,
    /// For each function how many scripts stand before its first one, or where it has none, how many there are.
    places: [usize; FUNCTIONS],
    /// Whether none of them has a way.
    straight: bool,
}

impl Model for Scripts {
    ghost use Rattle.std.specs.Prelude.{◌≡◌, ◌==◌, ◌<◌, ℕ, List, length, map, slice_index};
    ghost use Rattle.std.specs.List.{list_all, position_or_len};
    ghost use Rattle.fmp_text_scripts.specs.Scripts.{Steps};
    ghost use Rattle.fmp_text_scripts.specs.Views.{steps_of};

    ghost Value = { List Steps };

    ghost view = { λ s. map steps_of s.scripts.items };

    ghost invariant = { λ s. (s.straight ≡ list_all (λ x. length x.ways.items == 0) s.scripts.items)
        × ((f : ℕ) → f < 256 → slice_index s.places f ≡ position_or_len (λ x. x.function == f) s.scripts.items) };
}

impl Scripts {
    /// These scripts.
    pub fn new(scripts: Vec<Script>) -> Scripts
        ensures { result ≡ map steps_of scripts.items }
    {
        let straight = are_straight(&scripts);
        let places = places_of(&scripts);
        Scripts {
            scripts,
            places,
            straight,
        }
    }

    /// Whether no script has a way.
    pub fn is_straight(&self) -> bool
        ensures { IsTrue result ↔ AreStraight self.now }
    {
        self.straight
    }

    /// The step at a position of a function's script, or none past its end.
    pub fn step(&self, function: Option<u8>, position: u32) -> Option<Call>
        ensures { result ≡ slice_get (script_of_option self.now function) position }
    {
        let function = function?;
        step_in(&self.scripts, &self.places, function, position as usize)
    }

    /// Where a function's script goes on that has come after a call which answered so, at once or by the end of its wait.
    pub fn onward(&self, function: Option<u8>, position: u32, code: Code, value: Option<i64>) -> u32
        ensures { result ≡ spec.onward (ways_of_option self.now function) position code value }
    {
        match function {
            None => onward(&[], position, code, value),
            Some(function) => onward_in(
                &self.scripts,
                &self.places,
                function,
                position,
                code,
                value,
            ),
        }
    }

    /// Whether all that two lists of scripts hold is equal.
    pub fn is_same(&self, other: &Scripts) -> bool
        ensures { IsTrue result ↔ (self.now ≡ other.now) }
    {
        are_same(&self.scripts, &other.scripts)
    }
}

/// Whether no script has a way.
fn are_straight(scripts: &[Script]) -> bool
    ensures { result ≡ list_all (λ s. length s.ways.items == 0) scripts.now }
{
    scripts.iter().all(|script| script.ways.is_empty())
}

/// How many scripts stand before the first one of a function, or where it has none, how many there are.
fn place_of(scripts: &[Script], function: usize) -> usize
    ensures { result ≡ position_or_len (λ s. s.function == function) scripts.now }
{
    scripts
        .iter()
        .take_while(|script| script.function != function)
        .count()
}

/// For each function how many scripts stand before its first one, or where it has none, how many there are.
fn places_of(scripts: &[Script]) -> [usize; FUNCTIONS]
    ensures { (f : ℕ) → f < 256 → slice_index result f ≡ position_or_len (λ s. s.function == f) scripts.now }
{
    let mut places = [0; FUNCTIONS];
    for function in 0..FUNCTIONS {
        places[function] = place_of(scripts, function);
    }
    places
}

/// The script after so many others, if there is one.
fn script_at(scripts: &[Script], place: usize) -> Option<&Script>
    ensures { option_copied result ≡ slice_get scripts.now place }
{
    scripts.get(place)
}

/// The script of a function.
fn found<'a>(scripts: &'a [Script], places: &[usize; FUNCTIONS], function: u8) -> Option<&'a Script>
    requires { slice_index places.now function ≡ position_or_len (λ s. s.function == function) scripts.now }
    ensures { option_copied result ≡ find (λ s. s.function == function) scripts.now }
{
    script_at(scripts, places[usize::from(function)])
}

/// The step at a position from 0, or none past the end.
fn step_at(steps: &[Call], position: usize) -> Option<Call>
    ensures { result ≡ slice_get steps.now position }
{
    steps.get(position).copied()
}

/// The step at a position of a function's script.
#[tactic(auto, using(crate::proofs::Found::script_found))]
fn step_in(
    scripts: &[Script],
    places: &[usize; FUNCTIONS],
    function: u8,
    position: usize,
) -> Option<Call>
    requires { slice_index places.now function ≡ position_or_len (λ s. s.function == function) scripts.now }
    ensures { result ≡ slice_get (script_of (map steps_of scripts.now) function) position }
{
    match found(scripts, places, function) {
        Some(script) => step_at(&script.steps, position),
        None => None,
    }
}

/// Where a function's script goes on that has come after a call which answered so.
#[tactic(auto, using(crate::proofs::Found::ways_found))]
fn onward_in(
    scripts: &[Script],
    places: &[usize; FUNCTIONS],
    function: u8,
    position: u32,
    code: Code,
    value: Option<i64>,
) -> u32
    requires { slice_index places.now function ≡ position_or_len (λ s. s.function == function) scripts.now }
    ensures { result ≡ spec.onward (ways_of (map steps_of scripts.now) function) position code value }
{
    match found(scripts, places, function) {
        Some(script) => onward(&script.ways, position, code, value),
        None => onward(&[], position, code, value),
    }
}

/// Whether a function has a script.
pub fn has_script(scripts: &[Script], function: usize) -> bool
    ensures { result ≡ list_any (λ s. s.function == function) (map steps_of scripts.now) }
{
    has_one(scripts, function)
}

/// Whether one of the scripts is that of the function.
fn has_one(scripts: &[Script], function: usize) -> bool
    ensures { result ≡ list_any (λ s. s.function == function) scripts.now }
{
    scripts.iter().any(|script| script.function == function)
}

/// Whether two scripts are equal, which they are where their functions, their steps and their ways are.
fn is_same_script(one: &Script, other: &Script) -> bool
    ensures { IsTrue result ↔ (steps_of one.now ≡ steps_of other.now) }
{
    one.function == other.function
        && are_same_steps(&one.steps, &other.steps)
        && are_same_ways(&one.ways, &other.ways)
}

/// Whether two lists of scripts are equal, script by script.
fn are_same(one: &[Script], other: &[Script]) -> bool
    ensures { IsTrue result ↔ (map steps_of one.now ≡ map steps_of other.now) }
{
    if one.len() != other.len() {
        return false;
    }
    for at in 0..one.len() {
        if !is_same_script(&one[at], &other[at]) {
            return false;
        }
    }
    true
}
