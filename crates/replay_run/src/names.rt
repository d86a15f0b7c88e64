ghost use Rattle.std.specs.Prelude.{◌≡◌, IfOk};

use hist_journal::PrefName;
use prefs_text::{NameList, Names};
use std::alloc::{AllocError, Global};

/// The same names.
pub(crate) fn copy_of_names(alloc: Global, names: &Names) -> Result<Names, AllocError>
    ensures { IfOk result (λ copy. copy ≡ names.now) }
{
    Ok(Names {
        nodes: copy_of_list(alloc, &names.nodes)?,
        clients: copy_of_list(alloc, &names.clients)?,
    })
}

fn copy_of_list(alloc: Global, list: &NameList) -> Result<NameList, AllocError>
    ensures { IfOk result (λ copy. copy ≡ list.now) }
{
    let names = list.names();
    let mut copy = Vec::with_capacity(alloc, names.len())?;
    for name in names {
        copy.push(PrefName::new(String::from_str(alloc, name.as_str())?))?;
    }
    Ok(NameList::new(copy))
}
