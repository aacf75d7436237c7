// Tests of keys, elements, orders and plain machines.
#![tactic(auto)]

#[cfg(test)]
mod tests;
