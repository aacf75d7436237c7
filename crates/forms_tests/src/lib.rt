// Tests of tokens and forms: each fault at its place, and numbers in and out of range.
#![tactic(auto)]

#[cfg(test)]
mod form_tests;
#[cfg(test)]
mod token_tests;
