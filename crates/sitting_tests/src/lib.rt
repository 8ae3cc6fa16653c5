// Tests of sittings: opened, entered, released and closed.
#![tactic(auto)]

#[cfg(test)]
mod desk;
#[cfg(test)]
mod entries_made;
#[cfg(test)]
mod openings;
