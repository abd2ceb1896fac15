//! Tests of the foundation: arithmetic at the corners of its widths, files and streams, keys and strings, and programs
//! made at random. Expected values come from references apart from this code.
#![tactic(auto)]

#[cfg(test)]
mod arithmetic;
#[cfg(test)]
mod keys;
#[cfg(test)]
mod made;
#[cfg(test)]
mod outside;
#[cfg(test)]
mod strings;
