// The look of a scan, for every part.
ghost use Rattle.std.specs.Prelude.{◌≡◌};
ghost use Rattle.version.specs.Lists.{look};

use crate::part::Part;
use crate::types::{Place, Version};

// Of the least point at or above the place's that has a version at or below its number, the newest such version.
pub fn look<P: Part>(part: &P, place: Place) -> Option<Version>
    ensures { result ≡ look (P.Part.versions part.now) place.point place.number }
{
    let mut from = place.point;
    while let Some(found) = part.first_from(Place {
        point: from,
        ..place
    }) {
        if found.number <= place.number {
            return Some(found);
        }
        // All of this point's newer versions are passed over at once.
        from = found.point;
    }
    None
}
