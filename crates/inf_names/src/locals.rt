//! The local variables of a routine.
ghost use Rattle.std.specs.{Char.eq_ignore_ascii_case, Str.str_eq_ignore_ascii_case};
ghost use Rattle.std.specs.Prelude.{◌≡◌, ◌≤◌, ◌<◌, [], IfSome, length, option_map, position};
ghost use Rattle.arrayvec.specs.ArrayVec.{array_vec_len};
ghost use Rattle.inf_names.specs.{LocalList.last_letter, Spellings.as_name};
ghost use Rattle.inf_names.specs.Locals.{local_number, local_of, with_named, with_local, no_locals};

use crate::spellings::{Name, Spelling, copy_of};
use arrayvec::ArrayVec;
use inf_scanner::Place;

/// The most local variables that a routine has (Z-Machine Standard 1.1, section 5.2).
pub const MOST_LOCALS: usize = 15;

/// Returns whether two bytes are the same, in any case. Most bytes that are the same in any case are spelled the same.
fn is_same_byte(byte: u8, other: u8) -> bool
    ensures { result ≡ eq_ignore_ascii_case byte other }
{
    byte == other || byte.eq_ignore_ascii_case(&other)
}

/// Returns whether two names of the same length are the same, in any case.
#[tactic(auto, using(crate::proofs::SameNames::same_steps))]
fn are_same_bytes(name: &[u8], other: &[u8]) -> bool
    requires { length name.now ≡ length other.now }
    ensures { result ≡ str_eq_ignore_ascii_case name.now other.now }
{
    for i in 0..name.len() {
        if !is_same_byte(name[i], other[i]) {
            return false;
        }
    }
    true
}

/// Returns whether two names are the same, in any case. Most names that are not differ in their lengths or in their last letters.
fn is_same_name(name: &[u8], other: &[u8]) -> bool
    ensures { result ≡ str_eq_ignore_ascii_case name.now other.now }
{
    if name.len() != other.len() {
        return false;
    }
    last_letter(name) == last_letter(other) && are_same_bytes(name, other)
}

fn last_letter(name: &[u8]) -> u8
    ensures { result ≡ last_letter name.now }
{
    match name.last() {
        Some(byte) => *byte % 32,
        None => 0,
    }
}

/// A local variable, as the header of its routine spells it.
#[derive(Drop)]
pub struct Local {
    pub name: Spelling,
    pub place: Place,
    /// Tells whether a statement has named the local.
    pub is_named: bool,
}

impl Default for Local {
    fn default() -> Local {
        Local {
            name: ArrayVec::new(),
            place: Place { file: 0, line: 0 },
            is_named: false,
        }
    }
}

/// The local variables of a routine, in order.
#[derive(Drop)]
pub struct Locals {
    pub list: ArrayVec<Local, MOST_LOCALS>,
}

/// A name that a header gives again, and its first place there.
#[derive(Drop)]
pub struct Repeated {
    pub name: Name,
    pub first: Place,
}

/// The local variables that a header names: the first 15 different ones, the first name that comes again, and whether there are more.
#[derive(Drop)]
pub struct Headed {
    pub locals: Locals,
    pub repeated: Option<Repeated>,
    pub are_too_many: bool,
}

impl Locals {
    ghost use Rattle.inf_names.specs.LocalList.{listed};

    pub fn new() -> Locals
        ensures { listed result ≡ [] }
    {
        Locals {
            list: ArrayVec::new(),
        }
    }

    /// Counts the local variables.
    pub fn count(&self) -> u8
        ensures value { result ≡ length (listed self.now) }
        ensures few { result ≤ 15 }
    {
        self.list.len() as u8
    }

    /// Returns the place among the locals of the one with the name `name`, in any case.
    fn place(&self, name: &[u8]) -> Option<usize>
        ensures value { result ≡ position (λ l. str_eq_ignore_ascii_case l.name.items name.now) self.now.list.items }
        ensures within { IfSome result (λ place. place < array_vec_len self.now.list) }
        ensures few { IfSome result (λ place. place < MOST_LOCALS) }
    {
        self.list
            .iter()
            .position(|local| is_same_name(local.name.as_slice(), name))
    }

    /// Returns the place in the source where the header names the local `name`, in any case.
    fn first_place(&self, name: &[u8]) -> Option<Place>
        ensures { result ≡ option_map (λ l. l.place) (local_of name.now (listed self.now)) }
    {
        let place = self.place(name)?;
        Some(self.list[place].place)
    }

    /// Returns the number of the local with the name `name`, in any case, from 1 on (Z-Machine Standard 1.1, section 4.2.2).
    pub fn number(&self, name: &[u8]) -> Option<u8>
        ensures { result ≡ local_number name.now (listed self.now) }
    {
        let place = self.place(name)?;
        Some(place as u8 + 1)
    }

    /// Notes that a statement names `name`, if it is a local.
    pub fn name(&mut self, name: &[u8])
        ensures { listed self.new ≡ with_named name.now (listed self.old) }
    {
        if let Some(place) = self.place(name) {
            self.list[place].is_named = true;
        }
    }
}

impl Headed {
    ghost use Rattle.inf_names.specs.{LocalList.headed, Locals.earlier};

    /// Returns the headed locals of a routine before its header is read: none.
    pub fn new() -> Headed
        ensures { headed result ≡ no_locals }
    {
        Headed {
            locals: Locals::new(),
            repeated: None,
            are_too_many: false,
        }
    }

    /// Removes all locals, and all that was noted of them.
    pub fn clear(&mut self)
        ensures { headed self.new ≡ no_locals }
    {
        self.locals.list.clear();
        self.repeated = None;
        self.are_too_many = false;
    }

    /// Notes that `name`, whose first place is `first`, comes again. Only the first such name is kept.
    fn repeat(&mut self, name: &Name, first: Place)
        ensures { let before = headed self.old in headed self.new
            ≡ record before { repeated = earlier before.repeated (record { name = as_name name.now; first = first }) } }
    {
        if self.repeated.is_none() {
            self.repeated = Some(Repeated {
                name: name.copy(),
                first,
            });
        }
    }

    /// Adds a name behind the routine's name: as a local, unless it is the name of one already or there are 15.
    pub fn add(&mut self, name: &Name)
        ensures { headed self.new ≡ with_local (as_name name.now) (headed self.old) }
    {
        if let Some(first) = self.locals.first_place(name.bytes()) {
            self.repeat(name, first);
            return;
        }
        if self.locals.list.is_full() {
            self.are_too_many = true;
            return;
        }
        self.locals.list.push(Local {
            name: copy_of(&name.spelling),
            place: name.place,
            is_named: false,
        });
    }
}
