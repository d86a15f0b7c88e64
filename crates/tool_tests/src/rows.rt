//! Files, commands, and what comes of them.
use crate::command::holds;

const ROWS: [&str; 22] = [
    "|none|set volume int 5|0||0a0c0a06766f6c756d6512021805",
    "|0a0c0a06766f6c756d6512021805|get volume|0|int 5\n|0a0c0a06766f6c756d6512021805",
    "|0a0c0a06766f6c756d6512021805|get theme|9|error: no key\n|0a0c0a06766f6c756d6512021805",
    "|0a0c0a06766f6c756d6512021805|remove volume|0||",
    "|0a0c0a06766f6c756d6512021805|remove theme|0||0a0c0a06766f6c756d6512021805",
    "|0a0c0a06766f6c756d6512021805|set a int 1|0||0a070a0161120218010a0c0a06766f6c756d6512021805",
    "|none|remove a|0||none",
    "|none|get a|9|error: no key\n|none",
    "|00|set a int 1|4|error: corrupt\n|00",
    "||show|0||",
    "|none|show|0||none",
    "|0a070a0161120218010a0c0a06766f6c756d6512021805|show|0|\"a\" int 1\n\"volume\" int 5\n|0a070a0161120218010a0c0a06766f6c756d6512021805",
    "|0a070a0161120218012b08012c0a88000a01611203188200|show|0|\"a\" int 2\n|0a070a0161120218012b08012c0a88000a01611203188200",
    "|0a070a016112024801|show|4|error: corrupt\n|0a070a016112024801",
    "|0a070a016112024801|set a int 1|4|error: corrupt\n|0a070a016112024801",
    "|0a070a0161120248010a070a016112021802|show|0|\"a\" int 2\n|0a070a0161120248010a070a016112021802",
    "|0a0412021805|show|0|\"\" int 5\n|0a0412021805",
    "|none|set m int -- -1|0||0a100a016d120b18ffffffffffffffffff01",
    "|none|set f float 7fc00001|0||0a0a0a01661205150100c07f",
    "|none|set m long -- -9223372036854775808|0||0a100a016d120b2080808080808080808001",
    "|none|set t texts b a b|0||0a0d0a0174120832060a01610a0162",
    "|none|set a int -1|1|error: words\n|none",
];

#[test]
fn commands_do_what_their_rows_say(rt: HostRuntime) {
    for row in &ROWS {
        assert_eq!(rt; holds(rt.alloc(), row), Some(true), "{row}");
    }
}
