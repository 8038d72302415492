// The parts of the store at their edges. Expected answers and bytes are worked out by hand from the meaning of a part.
#![tactic(auto)]

#[cfg(test)]
mod alike;
#[cfg(test)]
mod bytes;
#[cfg(test)]
mod calls;
#[cfg(test)]
mod counting;
#[cfg(test)]
mod every;
#[cfg(test)]
mod example;
#[cfg(test)]
mod fences;
#[cfg(test)]
mod limits;
#[cfg(test)]
mod plain;
