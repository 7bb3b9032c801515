// Texts of rules, and what reading each of them comes to under the scale of readings.
#![tactic(auto)]

#[cfg(test)]
mod longs;
#[cfg(test)]
mod slow;
#[cfg(test)]
mod tables;
