// Memory drives: lengths at a sector's border, lists at their eighth entry, places of other sizes.
use super::at;
use bank::{Bank, Cause, Source};
use drives::Memory;

const LAST: u64 = u64::MAX;

// The sectors of a drive over those bytes.
fn sectors(bytes: &mut [u8]) -> u64 {
    let drive = Memory::new(bytes, &[], &[]);
    drive.length(0)
}

#[test]
fn only_whole_sectors_count(rt: HostRuntime) {
    assert_eq!(rt; sectors(&mut []), 0);
    let mut short = [0u8; 511];
    assert_eq!(rt; sectors(&mut short), 0);
    let mut one = [0u8; 512];
    assert_eq!(rt; sectors(&mut one), 1);
    let mut more = [0u8; 513];
    assert_eq!(rt; sectors(&mut more), 1);
    let mut less = [0u8; 1023];
    assert_eq!(rt; sectors(&mut less), 1);
    let mut two = [0u8; 1024];
    assert_eq!(rt; sectors(&mut two), 2);
}

#[test]
fn an_empty_drive_is_still_a_drive(rt: HostRuntime) {
    let mut bytes = [0u8; 511];
    let drive = Memory::new(&mut bytes, &[], &[]);
    assert_eq!(rt; drive.count(), 1);
    assert_eq!(rt; drive.read_end(at(0, 0)), Err(Cause::PastEnd));
    assert_eq!(rt; drive.write_cause(at(0, 0)), Some(Cause::PastEnd));
}

#[test]
fn eight_entries_of_a_list_count(rt: HostRuntime) {
    let mut bytes = [0u8; 5120];
    let nine = [1, 1, 2, 2, 2, 2, 2, 4, 5];
    let drive = Memory::new(&mut bytes, &nine[0..8], &nine);
    assert_eq!(rt; drive.read_end(at(0, 0)), Ok(Source::Cell(at(0, 0))));
    assert_eq!(rt; drive.read_end(at(0, 1)), Err(Cause::Unreadable));
    assert_eq!(rt; drive.read_end(at(0, 4)), Err(Cause::Unreadable));
    assert_eq!(rt; drive.read_end(at(0, 5)), Ok(Source::Cell(at(0, 5))));
    assert_eq!(rt; drive.write_cause(at(0, 4)), Some(Cause::Unwritable));
    assert_eq!(rt; drive.write_cause(at(0, 5)), None);
}

#[test]
fn far_drives_and_sectors(rt: HostRuntime) {
    let mut bytes = [0u8; 1024];
    let bad = [LAST];
    let drive = Memory::new(&mut bytes, &bad, &bad);
    assert_eq!(rt; drive.length(255), 0);
    assert_eq!(rt; drive.read_end(at(255, LAST)), Err(Cause::NoDrive));
    assert_eq!(rt; drive.read_end(at(0, LAST)), Err(Cause::PastEnd));
    assert_eq!(rt; drive.write_cause(at(0, LAST)), Some(Cause::PastEnd));
    assert_eq!(rt; drive.read_end(at(0, 2)), Err(Cause::PastEnd));
    assert_eq!(rt; drive.read_end(at(0, 1)), Ok(Source::Cell(at(0, 1))));
}

#[test]
fn other_sizes_are_refused_first(rt: HostRuntime) {
    let mut bytes = [0u8; 1024];
    let mut place = [0xAAu8; 513];
    let mut drive = Memory::new(&mut bytes, &[], &[]);
    assert_eq!(rt;
        drive.read(at(9, LAST), &mut place[0..511]),
        Err(Cause::WrongSize)
    );
    assert_eq!(rt; drive.read(at(9, LAST), &mut place), Err(Cause::WrongSize));
    assert_eq!(rt;
        drive.write(at(9, LAST), &place[0..0]),
        Err(Cause::WrongSize)
    );
    assert_eq!(rt;
        drive.read(at(9, LAST), &mut place[0..512]),
        Err(Cause::NoDrive)
    );
    assert_eq!(rt; place[0], 0xAA);
    assert_eq!(rt; place[511], 0xAA);
}

#[test]
fn what_is_written_is_read_back(rt: HostRuntime) {
    let mut bytes = [7u8; 1536];
    let mut drive = Memory::new(&mut bytes, &[0], &[2]);
    let data = [9u8; 512];
    let mut place = [0u8; 512];
    assert_eq!(rt; drive.write(at(0, 1), &data), Ok(()));
    assert_eq!(rt; drive.write(at(0, 2), &data), Err(Cause::Unwritable));
    assert_eq!(rt;
        drive.read(at(0, 1), &mut place),
        Ok(Source::Cell(at(0, 1)))
    );
    assert_eq!(rt; place[0], 9);
    assert_eq!(rt; place[511], 9);
    assert_eq!(rt; drive.read(at(0, 0), &mut place), Err(Cause::Unreadable));
    assert_eq!(rt; place[0], 9);
    drop(drive);
    assert_eq!(rt; bytes[511], 7);
    assert_eq!(rt; bytes[512], 9);
    assert_eq!(rt; bytes[1023], 9);
    assert_eq!(rt; bytes[1024], 7);
}
