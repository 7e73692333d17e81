//! Functions that nothing else in the gate calls, each once, and texts that the cases of awd_cases do not print. Each expected value is worked
//! out by hand.
#![tactic(auto)]

#[cfg(test)]
mod attributes;
#[cfg(test)]
mod callers;
#[cfg(test)]
mod histories;
#[cfg(test)]
mod sources;
#[cfg(test)]
mod texts;
