use folder_disk::Folder;
use store_traits::{Codec, Transform};

/// The types of one store. Its transforms change values of its codec.
pub trait Parts {
    type C: Codec;

    type T: Transform<Value = <Self::C as Codec>::Value>;

    type F: Folder;
}

/// The values of a store.
pub type ValueOf<P> = <<P as Parts>::C as Codec>::Value;
