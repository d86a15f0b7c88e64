/// A device whose faults a history tells: the folder, or the old settings.
#[derive(Clone, Copy, Debug, PartialEq, Eq)]
pub enum Device {
    Folder,
    Legacy,
}
