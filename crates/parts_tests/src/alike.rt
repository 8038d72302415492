// All parts answer alike: takings and questions, with answers worked out by hand, given to each part with room for 8 versions.
use crate::calls::Answer::*;
use crate::calls::Call::*;
use crate::calls::Step;
use crate::every::{every_flash_part, every_memory_part, every_part};

const TOP: u32 = 4_294_967_295;

const LEAST: i32 = -2_147_483_648;

const GREATEST: i32 = 2_147_483_647;

// Takings in version order, so that memory and flash answer alike, up to the limit.
static TAKINGS: [Step; 25] = [
    (Limit, Number(8)),
    (Count, Number(0)),
    // no version has the number 0
    (Take(0, 0, Some(1)), OutOfPlace),
    (Take(65_535, 0, None), OutOfPlace),
    (Take(0, TOP, Some(LEAST)), Done),
    // the same place again, with the same content, a value or removed
    (Take(0, TOP, Some(LEAST)), OutOfPlace),
    (Take(0, TOP, Some(0)), OutOfPlace),
    (Take(0, TOP, None), OutOfPlace),
    (Take(0, 1, Some(-1)), Done),
    (Take(7, 9, None), Done),
    (Take(7, 5, Some(230)), Done),
    (Take(7, 2, Some(0)), Done),
    (Count, Number(5)),
    (Take(300, 4, Some(GREATEST)), Done),
    (Take(65_534, 1, Some(1)), Done),
    (Count, Number(7)),
    (Take(65_535, TOP, None), Done),
    (Count, Number(8)),
    (Limit, Number(8)),
    // full: but out of place goes before full
    (Take(65_535, TOP - 1, Some(0)), Full),
    (Take(65_535, 1, Some(0)), Full),
    (Take(65_535, 0, Some(0)), OutOfPlace),
    (Take(65_535, TOP, None), OutOfPlace),
    (Take(7, 5, Some(230)), OutOfPlace),
    (Count, Number(8)),
];

// Behind TAKINGS: the newest version of a point at or below a number.
static NEWEST: [Step; 22] = [
    (Newest(0, TOP), Found(0, TOP, Some(LEAST))),
    (Newest(0, TOP - 1), Found(0, 1, Some(-1))),
    (Newest(0, 1), Found(0, 1, Some(-1))),
    (Newest(0, 0), Nothing),
    (Newest(1, TOP), Nothing),
    (Newest(6, TOP), Nothing),
    (Newest(7, TOP), Found(7, 9, None)),
    (Newest(7, 9), Found(7, 9, None)),
    (Newest(7, 8), Found(7, 5, Some(230))),
    (Newest(7, 5), Found(7, 5, Some(230))),
    (Newest(7, 4), Found(7, 2, Some(0))),
    (Newest(7, 2), Found(7, 2, Some(0))),
    (Newest(7, 1), Nothing),
    (Newest(7, 0), Nothing),
    (Newest(8, TOP), Nothing),
    (Newest(300, 4), Found(300, 4, Some(GREATEST))),
    (Newest(300, 3), Nothing),
    (Newest(65_534, 1), Found(65_534, 1, Some(1))),
    (Newest(65_534, 0), Nothing),
    (Newest(65_535, TOP), Found(65_535, TOP, None)),
    (Newest(65_535, TOP - 1), Nothing),
    (Newest(65_535, 0), Nothing),
];

// Behind TAKINGS: the first version at or after a place.
static FIRSTS: [Step; 22] = [
    (From(0, TOP), Found(0, TOP, Some(LEAST))),
    (From(0, TOP - 1), Found(0, 1, Some(-1))),
    (From(0, 1), Found(0, 1, Some(-1))),
    (From(0, 0), Found(7, 9, None)),
    (From(1, TOP), Found(7, 9, None)),
    (From(6, 0), Found(7, 9, None)),
    (From(7, TOP), Found(7, 9, None)),
    (From(7, 9), Found(7, 9, None)),
    (From(7, 8), Found(7, 5, Some(230))),
    (From(7, 5), Found(7, 5, Some(230))),
    (From(7, 4), Found(7, 2, Some(0))),
    (From(7, 1), Found(300, 4, Some(GREATEST))),
    (From(7, 0), Found(300, 4, Some(GREATEST))),
    (From(8, 0), Found(300, 4, Some(GREATEST))),
    (From(300, TOP), Found(300, 4, Some(GREATEST))),
    (From(300, 4), Found(300, 4, Some(GREATEST))),
    (From(300, 3), Found(65_534, 1, Some(1))),
    (From(65_534, 1), Found(65_534, 1, Some(1))),
    (From(65_534, 0), Found(65_535, TOP, None)),
    (From(65_535, TOP), Found(65_535, TOP, None)),
    (From(65_535, TOP - 1), Nothing),
    (From(65_535, 0), Nothing),
];

// Behind TAKINGS: the look of a scan.
static LOOKS: [Step; 18] = [
    (Look(0, TOP), Found(0, TOP, Some(LEAST))),
    (Look(0, TOP - 1), Found(0, 1, Some(-1))),
    (Look(0, 1), Found(0, 1, Some(-1))),
    (Look(1, 9), Found(7, 9, None)),
    (Look(1, 8), Found(7, 5, Some(230))),
    (Look(7, 4), Found(7, 2, Some(0))),
    // point 7 has 9, 5 and 2, and point 300 has 4: all too new
    (Look(1, 1), Found(65_534, 1, Some(1))),
    (Look(7, 1), Found(65_534, 1, Some(1))),
    (Look(8, 4), Found(300, 4, Some(GREATEST))),
    (Look(8, 3), Found(65_534, 1, Some(1))),
    (Look(65_534, TOP), Found(65_534, 1, Some(1))),
    (Look(65_535, TOP), Found(65_535, TOP, None)),
    // the one version from here on is too new
    (Look(65_535, TOP - 1), Nothing),
    (Look(65_535, 0), Nothing),
    // below all numbers
    (Look(0, 0), Nothing),
    (Look(7, 0), Nothing),
    (Look(300, 0), Nothing),
    (Look(65_534, 0), Nothing),
];

// A part that holds nothing, whatever it held before.
static EMPTY: [Step; 13] = [
    (Count, Number(0)),
    (Limit, Number(8)),
    (Newest(0, TOP), Nothing),
    (Newest(7, 9), Nothing),
    (Newest(65_535, TOP), Nothing),
    (From(0, TOP), Nothing),
    (From(7, 0), Nothing),
    (From(65_535, 0), Nothing),
    (Look(0, TOP), Nothing),
    (Look(300, 4), Nothing),
    (Take(65_535, 0, Some(1)), OutOfPlace),
    (Count, Number(0)),
    (Newest(65_535, 0), Nothing),
];

static CLEARED: [Step; 1] = [(Clear, Done)];

// The very last place, which leaves none behind it.
static LAST_PLACE: [Step; 7] = [
    (Take(65_535, 1, Some(LEAST)), Done),
    (Count, Number(1)),
    (Newest(7, TOP), Nothing),
    (Newest(65_535, TOP), Found(65_535, 1, Some(LEAST))),
    (From(0, TOP), Found(65_535, 1, Some(LEAST))),
    (From(65_535, 0), Nothing),
    (Take(65_535, 1, Some(LEAST)), OutOfPlace),
];

// Places with the numbers 0 and TOP, held and not held, before the first version and behind the last; looks that pass over points.
static EDGES: [Step; 33] = [
    (Take(5, TOP, Some(-1)), Done),
    (Take(5, 13, None), Done),
    (Take(6, 12, Some(6)), Done),
    (Take(6, 11, Some(5)), Done),
    (Take(9, 10, Some(0)), Done),
    // before the first
    (From(0, TOP), Found(5, TOP, Some(-1))),
    (From(0, 0), Found(5, TOP, Some(-1))),
    (From(4, TOP), Found(5, TOP, Some(-1))),
    (From(4, 0), Found(5, TOP, Some(-1))),
    (Newest(4, TOP), Nothing),
    (Newest(0, 0), Nothing),
    // the first, which is held
    (From(5, TOP), Found(5, TOP, Some(-1))),
    (Newest(5, TOP), Found(5, TOP, Some(-1))),
    // between
    (From(5, 0), Found(6, 12, Some(6))),
    (From(6, TOP), Found(6, 12, Some(6))),
    (From(6, 0), Found(9, 10, Some(0))),
    (From(7, TOP), Found(9, 10, Some(0))),
    (From(9, TOP), Found(9, 10, Some(0))),
    (Newest(6, TOP), Found(6, 12, Some(6))),
    (Newest(6, 0), Nothing),
    // behind the last
    (From(9, 9), Nothing),
    (From(9, 0), Nothing),
    (From(10, TOP), Nothing),
    (From(65_535, 0), Nothing),
    (Newest(9, 0), Nothing),
    (Newest(10, TOP), Nothing),
    // what is too new is passed over: a version, a point, two points, all three points
    (Look(0, 13), Found(5, 13, None)),
    (Look(0, 12), Found(6, 12, Some(6))),
    (Look(0, 11), Found(6, 11, Some(5))),
    (Look(0, 10), Found(9, 10, Some(0))),
    (Look(0, 9), Nothing),
    (Look(6, 9), Nothing),
    (Look(10, TOP), Nothing),
];

#[test]
fn takings_in_version_order(rt: HostRuntime) {
    every_part(
        &rt,
        &[
            &EMPTY,
            &TAKINGS,
            &NEWEST,
            &FIRSTS,
            &LOOKS,
            &CLEARED,
            &EMPTY,
            &LAST_PLACE,
            &CLEARED,
            &EMPTY,
            &TAKINGS,
            &NEWEST,
            &FIRSTS,
            &LOOKS,
        ],
    );
}

#[test]
fn places_at_the_edges(rt: HostRuntime) {
    every_part(&rt, &[&EMPTY, &EDGES, &CLEARED, &EMPTY, &EDGES]);
}

// Takings in any order: behind the last, in front of the first and between.
static ANY_ORDER: [Step; 33] = [
    (Take(300, 4, Some(GREATEST)), Done),
    (Take(7, 2, Some(0)), Done),
    (Take(65_535, 1, None), Done),
    (Take(7, 9, None), Done),
    (Take(7, 5, Some(230)), Done),
    (Take(7, 5, Some(231)), OutOfPlace),
    (Take(7, 2, Some(0)), OutOfPlace),
    (Take(65_535, 1, None), OutOfPlace),
    (Take(7, 0, Some(0)), OutOfPlace),
    (Count, Number(5)),
    (Take(0, 1, Some(-1)), Done),
    (Take(0, TOP, Some(LEAST)), Done),
    (Count, Number(7)),
    // in version order they are
    (From(0, TOP), Found(0, TOP, Some(LEAST))),
    (From(0, TOP - 1), Found(0, 1, Some(-1))),
    (From(0, 0), Found(7, 9, None)),
    (From(7, 8), Found(7, 5, Some(230))),
    (From(7, 4), Found(7, 2, Some(0))),
    (From(7, 1), Found(300, 4, Some(GREATEST))),
    (From(300, 3), Found(65_535, 1, None)),
    (From(65_535, 0), Nothing),
    // full: free places, then places that are held and no place at all
    (Take(65_535, TOP, Some(LEAST)), Done),
    (Take(3, 1, Some(0)), Full),
    (Take(0, 2, Some(0)), Full),
    (Take(65_535, 2, None), Full),
    (Take(0, 1, Some(-1)), OutOfPlace),
    (Take(7, 5, None), OutOfPlace),
    (Take(65_535, 1, Some(0)), OutOfPlace),
    (Take(3, 0, Some(0)), OutOfPlace),
    (Count, Number(8)),
    (Newest(3, TOP), Nothing),
    (Newest(65_535, TOP), Found(65_535, TOP, Some(LEAST))),
    (Look(301, 2), Found(65_535, 1, None)),
];

// Of what was held before, nothing shows.
static TWO_ANEW: [Step; 8] = [
    (Take(7, 5, Some(1)), Done),
    (Take(7, 6, Some(2)), Done),
    (Count, Number(2)),
    (From(0, 0), Found(7, 6, Some(2))),
    (Newest(7, 5), Found(7, 5, Some(1))),
    (Newest(7, 4), Nothing),
    (From(7, 4), Nothing),
    (Newest(300, 4), Nothing),
];

#[test]
fn takings_in_any_order(rt: HostRuntime) {
    every_memory_part(&rt, &[&EMPTY, &ANY_ORDER, &CLEARED, &EMPTY, &TWO_ANEW]);
}

// Takings behind the last, and others.
static BEHIND_THE_LAST: [Step; 36] = [
    (Take(7, 5, Some(230)), Done),
    // a higher number of the point stands in front of it, and so does any lower point
    (Take(7, 6, Some(0)), OutOfPlace),
    (Take(7, TOP, None), OutOfPlace),
    (Take(6, TOP, Some(0)), OutOfPlace),
    (Take(6, 1, Some(0)), OutOfPlace),
    (Take(0, 1, Some(0)), OutOfPlace),
    (Take(7, 5, Some(230)), OutOfPlace),
    (Take(7, 0, Some(0)), OutOfPlace),
    (Take(8, 0, Some(0)), OutOfPlace),
    (Count, Number(1)),
    (Take(7, 4, None), Done),
    (Take(7, 1, Some(-1)), Done),
    (Take(7, 2, Some(-1)), OutOfPlace),
    (Take(8, TOP, Some(0)), Done),
    (Take(8, 1, Some(GREATEST)), Done),
    (Take(65_535, TOP, Some(LEAST)), Done),
    (Take(65_535, 3, Some(0)), Done),
    (Take(65_535, 2, None), Done),
    (Count, Number(8)),
    // full: behind the last, then not behind it
    (Take(65_535, 1, Some(0)), Full),
    (Take(65_535, 2, Some(0)), OutOfPlace),
    (Take(65_535, 0, Some(0)), OutOfPlace),
    (Take(65_534, 1, Some(0)), OutOfPlace),
    (Take(0, TOP, None), OutOfPlace),
    (Take(7, 3, None), OutOfPlace),
    (Count, Number(8)),
    (From(0, TOP), Found(7, 5, Some(230))),
    (From(7, 4), Found(7, 4, None)),
    (From(7, 3), Found(7, 1, Some(-1))),
    (From(7, 0), Found(8, TOP, Some(0))),
    (From(8, TOP - 1), Found(8, 1, Some(GREATEST))),
    (From(8, 0), Found(65_535, TOP, Some(LEAST))),
    (From(65_535, TOP - 1), Found(65_535, 3, Some(0))),
    (From(65_535, 2), Found(65_535, 2, None)),
    (From(65_535, 1), Nothing),
    (Newest(65_535, 1), Nothing),
];

// An emptied part has no last version.
static ONE_ANEW: [Step; 5] = [
    (Take(6, 1, Some(0)), Done),
    (Take(0, TOP, Some(0)), OutOfPlace),
    (Newest(7, TOP), Nothing),
    (From(6, 0), Nothing),
    (Count, Number(1)),
];

#[test]
fn takings_behind_the_last(rt: HostRuntime) {
    every_flash_part(
        &rt,
        &[&EMPTY, &BEHIND_THE_LAST, &CLEARED, &EMPTY, &ONE_ANEW],
    );
}
