// A layer over any part that counts the questions that reach it.
use std::cell::Cell;
use version::{Kind, NotTaken, Part, Place, TakingPart, Version};

#[derive(Drop)]
pub struct Counting<'a, P> {
    pub below: P,
    // how many questions came, for the lender to see
    pub asked: &'a Cell<u32>,
}

impl<P> Counting<'_, P> {
    fn note(&self) {
        self.asked.set(self.asked.get().saturating_add(1));
    }
}

impl<P: Part> Part for Counting<'_, P> {
    ghost versions = { λ c. P.Part.versions c.below };

    ghost most = { λ c. P.Part.most c.below };

    ghost kept = { λ c. P.Part.kept c.below };

    fn count(&self) -> usize {
        self.note();
        self.below.count()
    }

    fn limit(&self) -> usize {
        self.note();
        self.below.limit()
    }

    fn first_from(&self, place: Place) -> Option<Version> {
        self.note();
        self.below.first_from(place)
    }

    fn newest(&self, place: Place) -> Option<Version> {
        self.note();
        self.below.newest(place)
    }

    fn clear(&mut self) {
        self.below.clear();
    }
}

impl<K: Kind, P: TakingPart<K>> TakingPart<K> for Counting<'_, P> {
    fn take(&mut self, version: Version) -> Result<(), NotTaken> {
        self.below.take(version)
    }
}
