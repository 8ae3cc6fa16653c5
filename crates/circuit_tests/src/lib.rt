// Tests of the refusals and of circuit tables: checked, run in the clear, published.
#![tactic(auto)]

#[cfg(test)]
mod faults;
#[cfg(test)]
mod runs;
#[cfg(test)]
mod tables;
