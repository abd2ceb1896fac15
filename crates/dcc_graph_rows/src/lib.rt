//! Tests of the passes over graphs, by their public calls.
#![tactic(auto)]

#[cfg(test)]
mod dividing;
#[cfg(test)]
mod flows;
#[cfg(test)]
mod folding;
#[cfg(test)]
mod functions;
#[cfg(test)]
mod graphs;
#[cfg(test)]
mod intervals;
#[cfg(test)]
mod joining;
#[cfg(test)]
mod living;
#[cfg(test)]
mod plans;
#[cfg(test)]
mod structures;
