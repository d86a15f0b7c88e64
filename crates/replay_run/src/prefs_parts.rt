use folder_disk::Folder;
use prefs_edit::Edit;
use prefs_proto::PrefsCodec;
use shelf::Parts;
use std::marker::PhantomData;

/// The parts of a store of settings, over a folder of this type.
pub struct PrefsParts<F: Folder> {
    of: PhantomData<F>,
}

impl<F: Folder> Parts for PrefsParts<F> {
    type C = PrefsCodec;

    type T = Edit;

    type F = F;
}
