//! Tests of the formats: outside values and worked rows of the crates from `prefs_model` to `script_words`, and one call
//! of each of their generic items. It stands on all that it tests, so that none of them is proved twice for its tests.
//! It has no item of its own: a row is a text, which a small function reads and judges.
#![tactic(auto)]

#[cfg(test)]
mod commands;
#[cfg(test)]
mod edits;
#[cfg(test)]
mod journals;
#[cfg(test)]
mod lines;
#[cfg(test)]
mod locks;
#[cfg(test)]
mod maps;
#[cfg(test)]
mod message;
#[cfg(test)]
mod rows;
#[cfg(test)]
mod values;
#[cfg(test)]
mod wire;
#[cfg(test)]
mod words;
