ghost use Rattle.std.specs.Prelude.{◌≡◌, ◌≤◌, ◌++◌, ℕ, Bool, IsTrue, [], length, is_err, IfSome, OnOk, OnErr, MatchResult};
ghost use Rattle.folder_disk.specs.Contents.{Contents, Unsynced, Synced, IsThere, scratch_bytes, ChangesScratch, LoosensScratch, renamed, folder_synced, Starts};
ghost use Rattle.folder_disk.specs.MainRead.{ReadsMain, is_failed};
ghost use Rattle.folder_disk.specs.Room.{Room, HasRoomFor, Uses};
ghost use Rattle.folder_disk.specs.Tally.{Tally, Tallies, StartsTally};

use crate::{FolderCall, MainRead, ReadMainError};
use std::alloc::{AllocError, Global};
use store_traits::Failed;

/// A folder with a main file and a scratch file.
///
/// An implementation that is told says what it holds, and then the clauses on contents hold.
/// All other clauses hold always. A call answers `Failed` only where the count of faults rose in it.
pub trait Folder: Drop {
    /// Whether folders of this type tell what they hold.
    ghost told: { Bool };

    /// Main, the scratch file, what a machine stop may leave, and what main was at the last `start`.
    ghost contents: { Self → Contents };

    /// The count of faults, what it does not pass, and what decides which calls fail.
    ghost tally: { Self → Tally };

    /// Whether a call that fails leaves all that such a folder holds, the scratch file too.
    ghost spares: { Bool };

    /// What the writing calls may do without memory.
    ghost room: { Self → Room };

    /// The count of faults. It takes no memory, and no planned failure counts it as a call.
    fn faults(&self) -> u64
        ensures count { result ≡ (tally self.now).count }
        ensures within { IfSome (tally self.now).most (λ most. result ≤ most) };

    /// Begins a session: what main is now becomes its first. Call numbers go on.
    fn start(&mut self)
        ensures contents { IsTrue told → Starts (contents self.old) (contents self.new) }
        ensures tally { StartsTally told (tally self.old) (tally self.new) }
        ensures room { room self.new ≡ room self.old };

    /// Reads main, if it has at most `limit` bytes.
    fn read_main(&mut self, alloc: Global, limit: u64) -> Result<MainRead, ReadMainError>
        ensures read { ReadsMain told limit (contents self.old).main result }
        ensures contents { IsTrue told → contents self.new ≡ contents self.old }
        ensures tally { Tallies told FolderCall.ReadMain (is_failed result) (tally self.old) (tally self.new) }
        ensures room { room self.new ≡ room self.old };

    /// Takes the memory for one create, `len` appended bytes and one rename. It is no call of the device.
    fn make_room(&mut self, alloc: Global, len: u64) -> Result<(), AllocError>
        ensures contents { IsTrue told → contents self.new ≡ contents self.old }
        ensures tally { tally self.new ≡ tally self.old }
        ensures room { MatchResult result (λ _. HasRoomFor len (room self.new)) (λ _. room self.new ≡ room self.old) };

    /// Makes the scratch file empty.
    fn create_scratch(&mut self) -> Result<(), Failed>
        requires { 1 ≤ (room self.old).creates }
        ensures ok { IsTrue told → OnOk result (ChangesScratch (Unsynced []) (contents self.old) (contents self.new)) }
        ensures err { IsTrue told → OnErr result (LoosensScratch (contents self.old) (contents self.new)) }
        ensures spared { IsTrue told → IsTrue spares → OnErr result (contents self.new ≡ contents self.old) }
        ensures tally { Tallies told FolderCall.Create (is_err result) (tally self.old) (tally self.new) }
        ensures room { Uses 1 0 0 (room self.old) (room self.new) };

    /// Writes a piece at the end of the scratch file.
    fn append_scratch(&mut self, piece: &[u8]) -> Result<(), Failed>
        requires room { length piece.now ≤ (room self.old).bytes }
        requires there { IsTrue told → IsThere (contents self.old).scratch }
        ensures ok { IsTrue told → OnOk result (ChangesScratch (Unsynced (scratch_bytes (contents self.old).scratch ++ piece.now)) (contents self.old) (contents self.new)) }
        ensures err { IsTrue told → OnErr result (LoosensScratch (contents self.old) (contents self.new)) }
        ensures spared { IsTrue told → IsTrue spares → OnErr result (contents self.new ≡ contents self.old) }
        ensures tally { Tallies told FolderCall.Append (is_err result) (tally self.old) (tally self.new) }
        ensures room { Uses 0 (length piece.now) 0 (room self.old) (room self.new) };

    /// Brings the bytes of the scratch file to the disk.
    fn sync_scratch(&mut self) -> Result<(), Failed>
        requires there { IsTrue told → IsThere (contents self.old).scratch }
        ensures ok { IsTrue told → OnOk result (ChangesScratch (Synced (scratch_bytes (contents self.old).scratch)) (contents self.old) (contents self.new)) }
        ensures err { IsTrue told → OnErr result (LoosensScratch (contents self.old) (contents self.new)) }
        ensures spared { IsTrue told → IsTrue spares → OnErr result (contents self.new ≡ contents self.old) }
        ensures tally { Tallies told FolderCall.SyncScratch (is_err result) (tally self.old) (tally self.new) }
        ensures room { room self.new ≡ room self.old };

    /// Moves the scratch file over main. It may use up the whole room.
    fn rename_scratch(&mut self) -> Result<(), Failed>
        requires room { 1 ≤ (room self.old).renames }
        requires there { IsTrue told → IsThere (contents self.old).scratch }
        ensures ok { IsTrue told → OnOk result (contents self.new ≡ renamed (contents self.old)) }
        ensures err { IsTrue told → OnErr result (contents self.new ≡ contents self.old) }
        ensures tally { Tallies told FolderCall.Rename (is_err result) (tally self.old) (tally self.new) };

    /// Brings the names in the folder to the disk: after it a machine stop leaves main.
    fn sync_folder(&mut self) -> Result<(), Failed>
        ensures ok { IsTrue told → OnOk result (contents self.new ≡ folder_synced (contents self.old)) }
        ensures err { IsTrue told → OnErr result (contents self.new ≡ contents self.old) }
        ensures tally { Tallies told FolderCall.SyncFolder (is_err result) (tally self.old) (tally self.new) }
        ensures room { room self.new ≡ room self.old };
}
