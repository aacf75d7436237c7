// Tests of the nest: short days of several stations, with sizes and with piece codes.
#![tactic(auto)]

#[cfg(test)]
mod tests;
