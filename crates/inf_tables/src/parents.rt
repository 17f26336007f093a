//! The parents of objects, as headers name them.
ghost use Rattle.std.specs.Prelude.{◌≡◌, ◌+◌, ◌≤◌, length, IfOk};
ghost use Rattle.inf_tables.specs.Objects.{IsReached, arrows_of, parent_by_arrows, parent_of};

use crate::faults::Misfit;
use crate::kinds::Parent;
use crate::world::World;
use inf_settings::bounds::Bounds;

impl<B: Bounds> World<B> {
    /// Returns the number of the object that `parent` names, where 0 is no parent. Refuses a number that is no object's, a class,
    /// and arrows where no object has one arrow less.
    pub fn parent_number(&self, parent: Parent) -> Result<usize, Misfit>
        ensures value { result ≡ parent_of parent self.now.objects }
        ensures within { IfOk result (λ number. number ≤ 4 + length self.now.objects) }
        ensures reached { IfOk result (λ _. IsReached (arrows_of parent) self.now.objects) }
    {
        match parent {
            Parent::Object(number) if self.is_object(number) => Ok(number),
            Parent::Object(_) => Err(Misfit::NotAnObject),
            Parent::Arrows(count) => self.number_above(count),
        }
    }

    // Returns the number of the latest object with one arrow less than `arrows`; 0 without arrows. Refuses arrows where no object
    // has one less.
    fn number_above(&self, arrows: usize) -> Result<usize, Misfit>
        ensures value { result ≡ parent_by_arrows arrows self.now.objects }
        ensures within { IfOk result (λ number. number ≤ 4 + length self.now.objects) }
        ensures reached { IfOk result (λ _. IsReached arrows self.now.objects) }
    {
        if arrows == 0 {
            return Ok(0);
        }
        match self.latest_with(arrows - 1) {
            Some(number) => Ok(number),
            None => Err(Misfit::NothingAbove),
        }
    }
}
