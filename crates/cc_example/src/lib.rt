//! The library in use: the example that READING prints, and the tests of the memory that planners, placers and machines
//! allocate, which `tests/opening` runs over an allocator that counts and refuses. They are a separate crate, so that
//! the function bodies are not proved again with the tests.
#![tactic(auto)]

#[cfg(test)]
mod machines;
#[cfg(test)]
mod planners;
mod reading;
#[cfg(test)]
mod scripts;

pub use reading::read_only;
