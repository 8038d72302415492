// A fence: a layer over any part that answers by itself what the least and the greatest point held decide.
ghost use Rattle.std.specs.Prelude.{◌≡◌, []};
ghost use Rattle.layers.specs.Fences.{widened, bounds_of, reached, covered};

use version::{Kind, NotTaken, Part, Place, TakingPart, Version};

// The least and the greatest point held.
#[derive(Clone, Copy)]
struct Bounds {
    least: u16,
    greatest: u16,
}

#[derive(Drop)]
pub struct Fence<P: Part> {
    below: P,
    bounds: Option<Bounds>,
    ghost known: { bounds ≡ bounds_of (P.Part.versions below) },
}

// The bounds, with one point more.
fn widen(bounds: Option<Bounds>, point: u16) -> Bounds
    ensures { result ≡ widened bounds point }
{
    match bounds {
        None => Bounds {
            least: point,
            greatest: point,
        },
        Some(old) => Bounds {
            least: old.least.min(point),
            greatest: old.greatest.max(point),
        },
    }
}

impl<P: Part> Fence<P> {
    // A fence over a part, which it empties.
    pub fn new(mut below: P) -> Fence<P>
        ensures empty { P.Part.versions result.below ≡ [] }
        ensures same { P.Part.most result.below ≡ P.Part.most below }
    {
        below.clear();
        Fence {
            below,
            bounds: None,
        }
    }
}

impl<P: Part> Fence<P> {
    // Whether a point at or above this one is held.
    fn reaches(&self, point: u16) -> bool
        ensures { result ≡ reached self.now.bounds point }
    {
        self.bounds.is_some_and(|bounds| point <= bounds.greatest)
    }

    // Whether this point lies between the least and the greatest point held.
    fn covers(&self, point: u16) -> bool
        ensures { result ≡ covered self.now.bounds point }
    {
        self.bounds
            .is_some_and(|bounds| bounds.least <= point && point <= bounds.greatest)
    }
}

impl<P: Part> Part for Fence<P> {
    ghost versions = { λ f. P.Part.versions f.below };

    ghost most = { λ f. P.Part.most f.below };

    ghost kept = { λ f. P.Part.kept f.below };

    fn count(&self) -> usize {
        match self.bounds {
            None => 0,
            Some(_) => self.below.count(),
        }
    }

    fn limit(&self) -> usize {
        self.below.limit()
    }

    // A function for this question and the next one would take the test and the question as closures, and be longer than both.
    fn first_from(&self, place: Place) -> Option<Version> {
        if self.reaches(place.point) {
            self.below.first_from(place)
        } else {
            None
        }
    }

    fn newest(&self, place: Place) -> Option<Version> {
        if self.covers(place.point) {
            self.below.newest(place)
        } else {
            None
        }
    }

    fn clear(&mut self) {
        self.below.clear();
        self.bounds = None;
    }
}

impl<K: Kind, P: TakingPart<K>> TakingPart<K> for Fence<P> {
    fn take(&mut self, version: Version) -> Result<(), NotTaken> {
        self.below.take(version)?;
        self.bounds = Some(widen(self.bounds, version.point));
        Ok(())
    }
}
