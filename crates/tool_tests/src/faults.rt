//! Commands over a folder or a sink that fails.
use crate::command::holds;

const FOLDER: [&str; 17] = [
    "read_main|none|set volume int 5|3|error: storage\n|none",
    "create|none|set volume int 5|3|error: storage\n|none",
    "append|none|set volume int 5|3|error: storage\n|none",
    "sync_scratch|none|set volume int 5|3|error: storage\n|none",
    "rename|none|set volume int 5|3|error: storage\n|none",
    "sync_folder|none|set volume int 5|3|error: storage\n|0a0c0a06766f6c756d6512021805",
    "read_main|0a0c0a06766f6c756d6512021805|get volume|3|error: storage\n|0a0c0a06766f6c756d6512021805",
    "read_main|0a0c0a06766f6c756d6512021805|show|3|error: storage\n|0a0c0a06766f6c756d6512021805",
    // An equal value makes no scratch file, and the folder is synced all the same.
    "create|0a0c0a06766f6c756d6512021805|set volume int 5|0||0a0c0a06766f6c756d6512021805",
    "sync_folder|0a0c0a06766f6c756d6512021805|remove theme|3|error: storage\n|0a0c0a06766f6c756d6512021805",
    // Each call behind a fuse fails, and six calls go well.
    "fuse 0|none|set volume int 5|3|error: storage\n|none",
    "fuse 1|none|set volume int 5|3|error: storage\n|none",
    "fuse 2|none|set volume int 5|3|error: storage\n|none",
    "fuse 3|none|set volume int 5|3|error: storage\n|none",
    "fuse 4|none|set volume int 5|3|error: storage\n|none",
    "fuse 5|none|set volume int 5|3|error: storage\n|0a0c0a06766f6c756d6512021805",
    "fuse 6|none|set volume int 5|0||0a0c0a06766f6c756d6512021805",
];

#[test]
fn a_folder_that_fails_is_told(rt: HostRuntime) {
    for row in &FOLDER {
        assert_eq!(rt; holds(rt.alloc(), row), Some(true), "{row}");
    }
}

const SINK: [&str; 5] = [
    "write 1|0a0c0a06766f6c756d6512021805|show|7||0a0c0a06766f6c756d6512021805",
    "write 1|0a0c0a06766f6c756d6512021805|get volume|7||0a0c0a06766f6c756d6512021805",
    "write 1|0a0c0a06766f6c756d6512021805|get theme|7||0a0c0a06766f6c756d6512021805",
    "write 1|0a0c0a06766f6c756d6512021805|jump|7||0a0c0a06766f6c756d6512021805",
    "write 2|0a0c0a06766f6c756d6512021805|show|0|\"volume\" int 5\n|0a0c0a06766f6c756d6512021805",
];

#[test]
fn a_sink_that_fails_stands_over_all(rt: HostRuntime) {
    for row in &SINK {
        assert_eq!(rt; holds(rt.alloc(), row), Some(true), "{row}");
    }
}
