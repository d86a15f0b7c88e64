use anyhow::Result;
use byte_io::NeverFails;
use folder_disk::{MainRead, MemFolder};
use serde::Deserialize;
use std::alloc::Global;
use store_traits::FileBytes;

/// A command and what it is run on.
#[derive(Drop, Deserialize)]
#[serde(deny_unknown_fields)]
pub struct Case {
    /// What the case shows. No other case has this name.
    #[serde(rename = "case")]
    pub name: String,
    /// The words behind the program's name.
    pub words: Vec<String>,
    /// What the source gives. Without this and the next it gives nothing.
    source: Option<String>,
    /// What the source gives, in hexadecimal digits: for bytes that are no text.
    source_hex: Option<String>,
    /// Main's bytes before the command, in hexadecimal digits. Without it main is absent.
    pub main_hex: Option<String>,
}

impl Case {
    pub fn source(&self, alloc: Global) -> Result<NeverFails> {
        let bytes = match (&self.source, &self.source_hex) {
            (Some(text), _) => text.as_bytes().to_vec(alloc)?,
            (None, Some(digits)) => hex::decode(alloc, digits.as_str())?,
            (None, None) => Vec::new(alloc),
        };
        Ok(NeverFails::new(FileBytes::new(bytes)))
    }

    pub fn folder(&self, alloc: Global) -> Result<MemFolder> {
        let main = match &self.main_hex {
            Some(digits) => MainRead::Bytes(FileBytes::new(hex::decode(alloc, digits.as_str())?)),
            None => MainRead::Absent,
        };
        Ok(MemFolder::new(alloc, main, Vec::new(alloc))?)
    }
}
