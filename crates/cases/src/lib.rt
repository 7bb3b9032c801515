// Worked cases that are run: rules over small recordings, with the sheet or the refusal that each must give.
#![tactic(auto)]

#[cfg(test)]
mod benches;
#[cfg(test)]
mod hosts;
#[cfg(test)]
mod makers;
