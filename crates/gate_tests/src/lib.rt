// Tests of labels, hashes and gates, and of one value written everywhere.
#![tactic(auto)]

#[cfg(test)]
mod gates;
#[cfg(test)]
mod hashes;
