// Versions in order that can be read by their index: the binary search, and the takings, that sorted table and packed flash share.
ghost use Rattle.std.specs.Prelude.{◌≡◌, true, List, length};
ghost use Rattle.std.specs.List.{slice_get};
ghost use Rattle.parts.specs.Indexed.{rank_of, stands_before, Seated, Admits};
ghost use Rattle.version.specs.Lists.{first_from, Reaches, behind, flash_place, answer_of};
ghost use Rattle.version.specs.Order.{sorted, Kept};
ghost use Rattle.version.specs.declared.types.Version.{Version};

use version::{Flash, Kind, Memory, NotTaken, Place, Version, is_free, taking};

pub trait Rows {
    ghost list: { Self → List Version };

    fn len(&self) -> usize
        ensures { result ≡ length (list self.now) };

    // The version at an index, if there is one.
    fn get(&self, index: usize) -> Option<Version>
        ensures { result ≡ slice_get (list self.now) index };

    ghost ordered: { (rows : Self) → sorted (list rows) ≡ true };
}

// How many versions stand before a place: each read halves what is left to search.
// The library searches slices, and the records of packed flash are none.
fn rank<R: Rows>(rows: &R, place: Place) -> usize
    ensures { result ≡ rank_of (R.Rows.list rows.now) place }
{
    let mut low = 0;
    let mut high = rows.len();
    while low < high {
        let middle = low + (high - low) / 2;
        if is_before(rows.get(middle), place) {
            low = middle + 1;
        } else {
            high = middle;
        }
    }
    low
}

// Whether a version is there, and stands before a place.
fn is_before(found: Option<Version>, place: Place) -> bool
    ensures { result ≡ stands_before found place }
{
    found.is_some_and(|version| version.place().is_before(place))
}

// Whether a version stands behind another, if there is one.
fn follows(version: Version, other: Option<Version>) -> bool
    ensures { result ≡ behind other version }
{
    other.is_none_or(|other| other.place().is_before(version.place()))
}

// The first version at or after a place.
#[tactic(auto, using(crate::proofs::Cuts::first_got, crate::proofs::Cuts::first_reaches))]
pub(crate) fn first_in<R: Rows>(rows: &R, place: Place) -> Option<Version>
    ensures reaches { Reaches place result }
    ensures answer { result ≡ first_from (R.Rows.list rows.now) place }
{
    rows.get(rank(rows, place))
}

// How a kind of part finds where a version goes in.
pub trait Seats: Kind {
    // The index at which it goes in, if it is in place.
    fn seat<R: Rows>(rows: &R, version: Version) -> Option<usize>
        ensures { Seated Self.Kind.place Self.Kind.put (R.Rows.list rows.now) version result };
}

impl Seats for Memory {
    #[tactic(auto, using(crate::proofs::Seats::memory_seat))]
    fn seat<R: Rows>(rows: &R, version: Version) -> Option<usize> {
        let at = rank(rows, version.place());
        is_free(version, rows.get(at)).then_some(at)
    }
}

impl Seats for Flash {
    #[tactic(auto, using(crate::proofs::Seats::flash_seat))]
    fn seat<R: Rows>(rows: &R, version: Version) -> Option<usize> {
        is_behind(rows, version).then_some(rows.len())
    }
}

// Whether a version is one, and stands behind the last, which is the only one read.
fn is_behind<R: Rows>(rows: &R, version: Version) -> bool
    ensures { result ≡ flash_place (R.Rows.list rows.now) version }
{
    version.number != 0 && follows(version, rows.get(rows.len().saturating_sub(1)))
}

// The index at which a version goes in, or why it does not.
pub(crate) fn admitted<K: Seats, R: Rows>(
    rows: &R,
    limit: usize,
    version: Version,
) -> Result<usize, NotTaken>
    requires { Kept (R.Rows.list rows.now) limit }
    ensures { Admits (R.Rows.list rows.now) (K.Kind.put (R.Rows.list rows.now) version) limit version (answer_of K.Kind.place (R.Rows.list rows.now) limit version) result }
{
    let seat = K::seat(rows, version);
    taking(seat.is_some(), rows.len(), limit)?;
    Ok(seat.unwrap())
}
