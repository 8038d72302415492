// The public calls of the crate `picture` at their edges. Expected bytes and numbers are worked out by hand from docs/PICTURE.md.
#![tactic(auto)]

#[cfg(test)]
mod common;
#[cfg(test)]
mod reading;
#[cfg(test)]
mod stages;
#[cfg(test)]
mod widths;
#[cfg(test)]
mod writing;
