//! Large inputs with ample memory: no call and no command answers that memory ran out, and none answers wrongly. Inputs
//! and expected answers are both made from a number of elements; docs/TESTING.md lists the sizes.

#![tactic(auto)]

#[cfg(test)]
mod checks;
#[cfg(test)]
mod database_requirements;
#[cfg(test)]
mod databases;
#[cfg(test)]
mod descriptions;
#[cfg(test)]
mod files;
#[cfg(test)]
mod folders;
#[cfg(test)]
mod lists;
#[cfg(test)]
mod numbers;
#[cfg(test)]
mod requirements;
#[cfg(test)]
mod texts;
