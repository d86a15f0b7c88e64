ghost use Rattle.std.specs.Prelude.{◌≡◌, ◌++◌, string_bytes, OnOk, IfOk};
ghost use Rattle.hist_journal.specs.View.{entry_seen, kind_seen};
ghost use Rattle.prefs_text.specs.EntryText.{entry_text, kind_text, device_name, EntryHasNames, KindHasNames};

use crate::Names;
use crate::callers::{push_call, push_node};
use crate::edits::push_edit;
use crate::lists::push_list;
use crate::maps::push_map;
use crate::numbers::{push_number, push_numbered};
use crate::quoted::push_quoted;
use hist_journal::{Device, Entry, Kind};
use prefs_edit::Edit;
use prefs_model::{PrefMap, PrefText};
use std::alloc::{AllocError, Global};

/// The text of the entry, which stands at the place `at` of its history, counted from 1.
pub fn entry_text(
    alloc: Global,
    names: &Names,
    at: u64,
    entry: &Entry<PrefMap, Edit>,
) -> Result<PrefText, AllocError>
    requires { EntryHasNames names.now (entry_seen entry.now) }
    ensures { IfOk result (λ text. text ≡ entry_text names.now at (entry_seen entry.now)) }
{
    let mut text = String::new(alloc);
    push_entry(&mut text, names, at, entry)?;
    Ok(PrefText::new(text))
}

/// Appends the text of the entry, which stands at the place `at`, counted from 1.
#[tactic(auto, unfolding(crate::specs::EntryText::entry_text))]
pub fn push_entry(
    out: &mut String,
    names: &Names,
    at: u64,
    entry: &Entry<PrefMap, Edit>,
) -> Result<(), AllocError>
    requires { EntryHasNames names.now (entry_seen entry.now) }
    ensures { OnOk result (string_bytes out.new ≡ string_bytes out.old ++ entry_text names.now at (entry_seen entry.now)) }
{
    push_numbered(out, "entry", at)?;
    out.push_str(" ")?;
    push_call(out, names, entry.who)?;
    out.push_str(" ")?;
    push_kind(out, names, &entry.kind)
}

#[tactic(auto, unfolding(crate::specs::EntryText::kind_text))]
fn push_kind(out: &mut String, names: &Names, kind: &Kind<PrefMap, Edit>) -> Result<(), AllocError>
    requires { KindHasNames names.now (kind_seen kind.now) }
    ensures { OnOk result (string_bytes out.new ≡ string_bytes out.old ++ kind_text names.now (kind_seen kind.now)) }
{
    match kind {
        Kind::Raise => out.push_str("raise"),
        Kind::Edit(edit) => {
            out.push_str("edit ")?;
            push_edit(out, edit)
        }
        Kind::Same(edit) => {
            out.push_str("same ")?;
            push_edit(out, edit)
        }
        Kind::Replace(map) => {
            out.push_str("replace ")?;
            push_map(out, map)
        }
        Kind::Migrate(sections, map) => {
            out.push_str("migrate ")?;
            push_list(out, sections.names())?;
            out.push_str(" ")?;
            push_map(out, map)
        }
        Kind::Synced => out.push_str("synced"),
        Kind::Cleared(section) => {
            out.push_str("cleared ")?;
            push_quoted(out, section.as_str())
        }
        Kind::Inited(node) => {
            out.push_str("inited ")?;
            push_node(out, names, *node)
        }
        Kind::Fault(device, count) => {
            out.push_str("fault ")?;
            out.push_str(device_name(*device))?;
            out.push_str(" ")?;
            push_number(out, *count)
        }
        Kind::Death(node) => {
            out.push_str("death ")?;
            push_node(out, names, *node)
        }
        Kind::Restart(node) => {
            out.push_str("restart ")?;
            push_node(out, names, *node)
        }
    }
}

fn device_name(device: Device) -> &'static str
    ensures { result.now ≡ device_name device }
{
    match device {
        Device::Folder => "folder",
        Device::Legacy => "legacy",
    }
}
