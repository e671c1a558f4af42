//! The tests of all crates, and what they share: the ways to a kernel, what writes an output, and the replacement
//! written out.
#![tactic(auto)]

#[cfg(test)]
mod plain;
#[cfg(test)]
mod routes;
#[cfg(test)]
mod tests;
#[cfg(test)]
mod writers;
