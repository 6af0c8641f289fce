//! Tests of lines that need code: what a line says that no answer shows, streams that fail, and the
//! texts of replies that no session gives. What lines are answered in whole sessions is in the
//! stories.
#![tactic(auto)]

#[cfg(test)]
mod answers;
#[cfg(test)]
mod lines;
#[cfg(test)]
mod streams;
