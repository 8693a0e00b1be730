//! The bytes of actions, worked by hand.
use super::{expect_eq, script};
use arrayvec::ArrayVec;
use bridge_session::{Action, read_action, write_action};
use session_store::DiskFormat;
use std::process::Abort;

/// The action of a line, and its bytes: the same in both formats, but for the averages, which the first one has not.
static ROWS: [(&str, &[u8]); 12] = [
    (
        "DEAL 100 1 N:AKQJT98765432... .AKQJT98765432.. ..AKQJT98765432. ...AKQJT98765432",
        b"\x01\0\0\0\x64\x01\0\x0f\xff\x80\0\0\0\0\0\0\0\x7f\xfc\0\0\0\0\0\0\0\x03\xff\xe0\0\0\0\0\0\0\0\x1f\xff",
    ),
    ("CALL 11 1 0 7S", b"\x02\0\0\0\x0b\x01\0\0\x24"),
    ("CALL 16909060 1 0 PASS", b"\x02\x01\x02\x03\x04\x01\0\0\0"),
    ("CARD 31 36 999 HQ", b"\x03\0\0\0\x1f\x24\x03\xe7\x24"),
    ("CLAIM 11 1 0 13", b"\x04\0\0\0\x0b\x01\0\0\x0d"),
    ("AGREE 31 1 1", b"\x05\0\0\0\x1f\x01\0\x01"),
    ("REFUSE 32 1 1", b"\x06\0\0\0\x20\x01\0\x01"),
    ("NEXT 100 1", b"\x07\0\0\0\x64\x01"),
    ("TRICKS 100 1 2 3 12", b"\x08\0\0\0\x64\x01\x02\x03\x0c"),
    ("VOID 100 1 2 3", b"\x09\0\0\0\x64\x01\x02\x03"),
    ("RESTORE 100 1 2 3", b"\x0a\0\0\0\x64\x01\x02\x03"),
    (
        "ADJUST 100 1 2 3 60 40",
        b"\x0b\0\0\0\x64\x01\x02\x03\x3c\x28",
    ),
];

/// Fails where an action is written as other bytes, or they are read as another one: in the first format as `former`.
fn expect_bytes(rt: &impl Abort, action: &Action, due: &[u8], former: Option<Action>) {
    let mut bytes = ArrayVec::new();
    write_action(action, &mut bytes);
    expect_eq(rt, bytes.as_slice(), due, action);
    let read = read_action(DiskFormat::Two, due);
    expect_eq(rt, read, Some(*action), action);
    expect_eq(rt, read_action(DiskFormat::One, due), former, action);
}

#[test]
fn each_action_has_its_bytes(rt: HostRuntime) {
    for (line, due) in &ROWS {
        let action = script::action(&rt, line);
        let former = if line.starts_with("ADJUST") {
            None
        } else {
            Some(action)
        };
        expect_bytes(&rt, &action, due, former);
    }
}

/// The corrections of lines, and their bytes in the second format; the first one has none.
static CORRECTIONS: [(&str, &[u8]); 4] = [
    ("UNDEAL 100 36", b"\x0d\0\0\0\x64\x24"),
    ("BACK 100 1 2 3", b"\x0c\0\0\0\x64\x01\x02\x03"),
    (
        "ASSIGN 100 12 12 3 7NTXX W 13",
        b"\x0e\0\0\0\x64\x0c\x0c\x03\x22\xa7",
    ),
    ("ASSIGN 100 1 2 3 1C N 0", b"\x0e\0\0\0\x64\x01\x02\x03\0\0"),
];

#[test]
fn each_correction_has_its_bytes(rt: HostRuntime) {
    for (line, due) in &CORRECTIONS {
        expect_bytes(&rt, &script::correction(&rt, line), due, None);
    }
}
