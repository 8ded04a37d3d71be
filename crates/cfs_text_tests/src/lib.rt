//! Tests of scripts, printed lines, generated workloads and parsed calls.
#![tactic(auto)]

#[cfg(test)]
mod print;
#[cfg(test)]
mod requests;
#[cfg(test)]
mod script;
#[cfg(test)]
mod words;
#[cfg(test)]
mod workloads;
