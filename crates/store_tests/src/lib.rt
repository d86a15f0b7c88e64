//! What spans several crates of the store. An update is taken turn by turn here, which shows that what each turn asks for
//! can be met, for every parts of a store; and the tests do so at the types of the program, over a folder in memory. It
//! stands on all that it tests, and all of it is read as tests are, so that it is proved once.
#![tactic(auto)]

#[cfg(test)]
mod alone;
#[cfg(test)]
mod death_tests;
#[cfg(test)]
mod read_tests;
#[cfg(test)]
mod reads;
#[cfg(test)]
mod sessions;
#[cfg(test)]
mod shelf_laws;
#[cfg(test)]
mod single_update;
#[cfg(test)]
mod step_tests;
#[cfg(test)]
mod tests;
