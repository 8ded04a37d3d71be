//! Tests of images and of their upgrade.
#![tactic(auto)]

#[cfg(test)]
mod image;
#[cfg(test)]
mod upgrade;
