//! Tests of the checker of certificates, on the pillow, whose edges have length 1. The other
//! certificates that it judges are cases of the built program.
#![tactic(auto)]

#[cfg(test)]
mod bases;
#[cfg(test)]
mod kinds;
#[cfg(test)]
mod loops;
#[cfg(test)]
mod texts;
