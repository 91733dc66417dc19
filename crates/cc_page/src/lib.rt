//! Texts for a program in another language, which the explorer's WebAssembly module has in addition
//! to the functions for C: the output of `show`, of `explain`, of `explain --length` and of `explain
//! --svg`, and names of permissions and of refusals.
#![tactic(auto)]

mod names;
mod texts;
