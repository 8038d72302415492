// What a part means: a list of versions in version order, under a limit. Everything above a part is proved against these contracts.
ghost use Rattle.std.specs.Prelude.{◌≡◌, ℕ, List, [], length};
ghost use Rattle.version.specs.Lists.{newest, first_from, Reaches, taking, answer_of, after_taking};
ghost use Rattle.version.specs.Order.{Kept};
ghost use Rattle.version.specs.declared.types.Version.{Version};

use crate::kind::Kind;
use crate::order::of_point;
use crate::types::{NotTaken, Place, Version};

// A part that can be asked and emptied. Its questions leave it as it is.
pub trait Part {
    // the versions that it holds
    ghost versions: { Self → List Version };

    // how many it may hold, which never changes
    ghost most: { Self → ℕ };

    fn count(&self) -> usize
        ensures { result ≡ length (versions self.now) };

    fn limit(&self) -> usize
        ensures { result ≡ most self.now };

    // The first version at or after a place, which is where what is found stands.
    fn first_from(&self, place: Place) -> Option<Version>
        ensures reaches { Reaches place result }
        ensures answer { result ≡ first_from (versions self.now) place };

    // The newest version of the place's point at or below its number.
    fn newest(&self, place: Place) -> Option<Version>
        ensures { result ≡ newest (versions self.now) place.point place.number }
    {
        of_point(self.first_from(place), place.point)
    }

    // Empties it, whatever it held.
    fn clear(&mut self)
        ensures empty { versions self.new ≡ [] }
        ensures same { most self.new ≡ most self.old };

    // Its versions are in order and numbered, and no more than it may hold.
    ghost kept: { (part : Self) → Kept (versions part) (most part) };
}

// A part that takes versions as its kind does.
pub trait TakingPart<K: Kind>: Part {
    fn take(&mut self, version: Version) -> Result<(), NotTaken>
        ensures answer { result ≡ answer_of K.place (Self.Part.versions self.old) (Self.Part.most self.old) version }
        ensures list { Self.Part.versions self.new ≡ after_taking K.place K.put (Self.Part.versions self.old) (Self.Part.most self.old) version }
        ensures same { Self.Part.most self.new ≡ Self.Part.most self.old };
}

// What a taking answers, from whether the version is in place, and how many there are under the limit.
pub fn taking(placed: bool, count: usize, limit: usize) -> Result<(), NotTaken>
    ensures { result ≡ taking placed count limit }
{
    if !placed {
        return Err(NotTaken::OutOfPlace);
    }
    if count == limit {
        return Err(NotTaken::Full);
    }
    Ok(())
}
