// Worked examples and bad input for the memories, through their public calls.
#![tactic(auto)]

#[cfg(test)]
mod card_tests;
#[cfg(test)]
mod flat_tests;
#[cfg(test)]
mod reading;
#[cfg(test)]
mod refusal_tests;
#[cfg(test)]
mod split_tests;
