// A case of a salvage: its file stands after the lists, and its room is the room of bytes.
use feed::fields::Case;
use feed::lines::Digests;
use feed::rooms::digest;
use feed::{lines, rooms};
use parts::front_to_fill;
use std::io;

fn call(rt: &impl Print, number: u64, case: Case, file: &[u8], room: &mut [u8]) -> io::Result<()> {
    rooms::fill(room);
    let r = calls::file::salvage(file, room);
    let digests = Digests {
        bytes: digest(room),
        ledger: digest(file),
        errors: 0,
        words: 0,
        rows: Some(digest(&[r.old, r.old_lines, r.old_sum])),
    };
    lines::tell(
        rt,
        number,
        case.operation,
        calls::file::of_salvage(r),
        digests,
    )
}

// The file may be of the room that was lent last, before that is filled anew.
pub fn run(rt: &impl Print, number: u64, case: Case, room: &mut [u8]) -> io::Result<()> {
    let mut buffer = [0u8; 65_536];
    let file = case.file_in(room, &mut buffer);
    call(rt, number, case, file, front_to_fill(room, case.room))
}
