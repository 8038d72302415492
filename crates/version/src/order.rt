// Version order, by which every part keeps its versions.
ghost use Rattle.std.specs.Prelude.{◌≡◌, ◌&&◌, not};
ghost use Rattle.std.proofs.Common.{rules};
ghost use Rattle.std.specs.Cmp.{partial_order_from_own_ties};
ghost use Rattle.std.specs.Cmp.Rules.{comparing};
ghost use Rattle.std.specs.Ordering.{nat_cmp, on, flip_args, then_cmp, as_partial_cmp};
ghost use Rattle.version.specs.Lists.{only, alike};
ghost use Rattle.version.specs.Order.{ahead, place_of, numbered};

use crate::types::{Place, Version};
use std::cmp::Ordering;

// By point, lower first, and within a point by number, higher first.
impl Ord for Place {
    ghost cmp = { then_cmp (on (λ a. a.point) nat_cmp) (flip_args (on (λ a. a.number) nat_cmp)) };

    ghost total = { Prim.search (comparing, rules) };

    ghost matches_partial_cmp = { Prim.search (comparing, rules) };

    ghost matches_eq = { Prim.search (comparing, rules) };

    fn cmp(&self, other: &Place) -> Ordering {
        self.point
            .cmp(&other.point)
            .then(other.number.cmp(&self.number))
    }
}

impl PartialOrd for Place {
    ghost partial_cmp = { as_partial_cmp (then_cmp (on (λ a. a.point) nat_cmp) (flip_args (on (λ a. a.number) nat_cmp))) };

    ghost laws = { partial_order_from_own_ties (Prim.search (comparing, rules)) (Prim.search (comparing, rules)) };

    fn partial_cmp(&self, other: &Place) -> Option<Ordering> {
        Some(self.cmp(other))
    }
}

impl Place {
    // Whether this place stands before the other: at a lower point, or at the same point under a higher number.
    pub fn is_before(self, other: Place) -> bool
        ensures { result ≡ ahead self other }
    {
        self < other
    }
}

impl Version {
    pub fn place(self) -> Place
        ensures { result ≡ place_of self }
    {
        Place {
            point: self.point,
            number: self.number,
        }
    }
}

// What was found, if it is a version of this point. Of what is found from a point and a number on, this is the
// point's newest version at or below the number.
pub fn of_point(found: Option<Version>, point: u16) -> Option<Version>
    ensures { result ≡ only point found }
{
    found.filter(|version| version.point == point)
}

// Whether a memory part may take a version, by what it finds from the version's place on: it is one, and stands there not yet.
pub fn is_free(version: Version, found: Option<Version>) -> bool
    ensures { result ≡ (numbered version && not (alike found version)) }
{
    version.number != 0 && found.is_none_or(|other| other.place() != version.place())
}
