// Some hundreds of formulas made by dice, over small recordings: what the solver's list covers is held against truth worked
// out from its definition, place by place.
#![tactic(auto)]

#[cfg(test)]
mod agreement;
#[cfg(test)]
mod dice;
#[cfg(test)]
mod truths;
