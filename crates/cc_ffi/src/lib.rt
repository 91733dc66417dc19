//! The library's functions for C, which `include/cheri_cap.h` declares. A scalar export forwards to
//! functions of the crates below, mostly to one, with a number of 128 bits as two halves, a batch function
//! does so for each element, and the search is defined here.
//!
//! Each function is total, and has no `requires`. Two conditions are up to the caller in C: the
//! pointers of the functions on strings, of the batch functions and of the search are valid for the
//! numbers of elements that come with them, and each `bool` is 0 or 1.
#![tactic(auto)]

mod bounds;
mod c_memory;
mod c_rules;
mod c_text;
mod c_window;
mod c_words;
mod defect;
mod halves;
mod lengths;
mod many;
mod measures;
mod search;
mod structs;
mod version;
mod word_line;
