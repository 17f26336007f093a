//! Actions, as a source names them.
ghost use Rattle.std.specs.Prelude.{◌≡◌, ◌≤◌, ◌+◌, ◌++◌, IfOk, OnOk, length};
ghost use Rattle.inf_output.specs.Actions.{action_number, action_of, appeared, fake_number, faked, first_seen, key_of, next_seen};
ghost use Rattle.inf_output.specs.Actions.{number_in, numbered, place_in, routine_name, routine_of, routine_referred, routine_used};

use crate::output::Output;
use arrayvec::ArrayVec;
use inf_names::meanings::Meaning;
use inf_names::symbols::{DeclareFault, Found, LONGEST_NAME};
use inf_scanner::Place;
use inf_settings::bounds::Bounds;
use inf_settings::setting::Setting;
use inf_tables::ActionFault;
use std::alloc::AllocError;

/// Returns the bytes `front` with `back` behind them, in all no more than a name can have.
fn joined(front: &[u8], back: &[u8]) -> ArrayVec<u8, LONGEST_NAME>
    requires { length front.now + length back.now ≤ 35 }
    ensures { result.items ≡ front.now ++ back.now }
{
    let mut bytes = ArrayVec::new();
    if bytes.try_extend_from_slice(front).is_err() {
        unreachable!()
    }
    if bytes.try_extend_from_slice(back).is_err() {
        unreachable!()
    }
    bytes
}

/// Returns the key of the action `name`, of at most 32 bytes, among the names.
pub fn key_of(name: &[u8]) -> ArrayVec<u8, LONGEST_NAME>
    requires { length name.now ≤ 32 }
    ensures { result.items ≡ key_of name.now }
{
    joined(b"##", name)
}

/// Returns the number that a key stands for, where its look-up found `found`.
fn number_in(found: Found<Place>) -> Option<u16>
    ensures { result ≡ number_in found }
{
    match found {
        Found::Declared(Meaning::FakeAction(number), _) => Some(number),
        _ => None,
    }
}

/// Returns the first place of a key, where its look-up found `found`.
fn place_in(found: Found<Place>) -> Option<Place>
    ensures { result ≡ place_in found }
{
    match found {
        Found::Declared(_, first) => Some(first),
        Found::System(_) | Found::Used | Found::Unknown => None,
    }
}

/// Returns the number of the routine whose use found `found`, if it has one.
fn routine_of(found: Option<(Found<Place>, Option<usize>)>) -> Option<usize>
    ensures { result ≡ routine_of found }
{
    match found {
        Some((_, number)) => number,
        None => None,
    }
}

impl<B: Bounds> Output<B> {
    /// Returns the number of the fake action with the key `key`, if there is one.
    fn fake_number(&self, key: &[u8]) -> Option<u16>
        requires { length key.now ≤ 35 }
        ensures { result ≡ fake_number key.now self.now }
    {
        number_in(self.names.look(key))
    }

    /// Returns the number, modulo 65536, of the action `name`, of at most 32 bytes, if it appeared before.
    pub fn action_number(&self, name: &[u8]) -> Option<u16>
        requires { length name.now ≤ 32 }
        ensures { result ≡ action_number name.now self.now }
    {
        let key = key_of(name);
        match self.fake_number(key.as_slice()) {
            Some(number) => Some(number),
            None => number_in(self.seen.look(key.as_slice())),
        }
    }

    /// Notes that the action `name`, of at most 32 bytes, appears at `place`, and returns its number, modulo 65536. Its routine is
    /// used where it is no fake action.
    pub fn action(&mut self, name: &[u8], place: Place) -> Result<u16, AllocError>
        requires { length name.now ≤ 32 }
        ensures { IfOk result (λ number. (self.new, number) ≡ action_of B.most name.now place self.old) }
    {
        let key = key_of(name);
        if let Some(number) = self.fake_number(key.as_slice()) {
            return Ok(number);
        }
        self.appear(key.as_slice(), place)?;
        let routine = joined(name, b"Sub");
        self.use_routine(routine.as_slice(), place)
    }

    /// Returns the number of the next action that appears, modulo 65536.
    fn next_seen(&self) -> u16
        ensures { result ≡ next_seen self.now }
    {
        (self.seen.len() % 65536) as u16
    }

    /// Notes that the action with the key `key`, which is no fake one, appears at `place`.
    fn appear(&mut self, key: &[u8], place: Place) -> Result<(), AllocError>
        requires { length key.now ≤ 35 }
        ensures { OnOk result (self.new ≡ appeared key.now place self.old) }
    {
        let number = Meaning::FakeAction(self.next_seen());
        match self.seen.declare(key, place, number) {
            Ok(_) => Ok(()),
            Err(DeclareFault::Present(_) | DeclareFault::Full) => Ok(()),
            Err(DeclareFault::Memory) => Err(AllocError),
        }
    }

    /// Uses the routine `name` at `place`, and returns its number among the names, if it has one.
    pub fn refer_routine(&mut self, name: &[u8], place: Place) -> Result<Option<usize>, AllocError>
        requires { length name.now ≤ 35 }
        ensures { IfOk result (λ number. (self.new, number) ≡ routine_referred B.most name.now place self.old) }
    {
        Ok(routine_of(self.refer(name, place)?))
    }

    /// Uses the routine `routine` of an action at `place`, and returns the number of the action.
    fn use_routine(&mut self, routine: &[u8], place: Place) -> Result<u16, AllocError>
        requires { length routine.now ≤ 35 }
        ensures { IfOk result (λ number. (self.new, number) ≡ routine_used B.most routine.now place self.old) }
    {
        match self.refer_routine(routine, place)? {
            Some(number) => self.action_with(number),
            None => Ok(0),
        }
    }

    /// Returns the number of the action whose routine has the number `routine` among the names. Where it would be one too many, the
    /// limit is passed.
    fn action_with(&mut self, routine: usize) -> Result<u16, AllocError>
        ensures { IfOk result (λ number. (self.new, number) ≡ numbered B.most routine self.old) }
    {
        match self.tables.actions.add(routine) {
            Ok(number) => Ok(number),
            Err(ActionFault::Memory) => Err(AllocError),
            Err(ActionFault::Full) => {
                self.pass_table(Setting::Actions);
                Ok(0)
            }
        }
    }

    /// Declares the action `name`, of at most 32 bytes, as a fake one. Returns the refusal where it is an action already, or the
    /// name cannot be declared.
    pub fn fake_action(
        &mut self,
        name: &[u8],
        place: Place,
    ) -> Result<Option<DeclareFault<Place>>, AllocError>
        requires { length name.now ≤ 32 }
        ensures { IfOk result (λ refused. (self.new, refused) ≡ faked B.most name.now place self.old) }
    {
        let key = key_of(name);
        if let Some(first) = self.first_seen(key.as_slice()) {
            return Ok(Some(DeclareFault::Present(Some(first))));
        }
        let number = self.tables.actions.add_fake();
        self.declare(key.as_slice(), place, Meaning::FakeAction(number))
    }

    /// Returns the place at which the action with the key `key` appeared first, if it did.
    fn first_seen(&self, key: &[u8]) -> Option<Place>
        requires { length key.now ≤ 35 }
        ensures { result ≡ first_seen key.now self.now }
    {
        match place_in(self.names.look(key)) {
            Some(first) => Some(first),
            None => place_in(self.seen.look(key)),
        }
    }
}
