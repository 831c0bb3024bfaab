// Words of scripts: numbers and drives at their bounds, known digests, and what is said of malformed commands.
use bank::Cause;
use lines::number;
use script::{Command, drive_number};
use session::{Hex, Outcome, Session, digest, sow};
use std::test::Fail;

#[test]
fn numbers_fill_64_bits(rt: HostRuntime) {
    assert_eq!(rt; number("0"), Some(0));
    assert_eq!(rt; number("007"), Some(7));
    assert_eq!(rt; number("18446744073709551615"), Some(u64::MAX));
    assert_eq!(rt; number("018446744073709551615"), Some(u64::MAX));
    assert_eq!(rt; number("18446744073709551616"), None);
    assert_eq!(rt; number(""), None);
    assert_eq!(rt; number("+5"), None);
    assert_eq!(rt; number("-5"), None);
    assert_eq!(rt; number("5 "), None);
    assert_eq!(rt; number("0x5"), None);
}

#[test]
fn drives_are_named_by_a_byte(rt: HostRuntime) {
    assert_eq!(rt; drive_number("8:0"), Some(0));
    assert_eq!(rt; drive_number("8:255"), Some(255));
    assert_eq!(rt; drive_number("8:256"), None);
    assert_eq!(rt; drive_number("8:"), None);
    assert_eq!(rt; drive_number("8:+1"), None);
    assert_eq!(rt; drive_number("9:1"), None);
    assert_eq!(rt; drive_number("08:1"), None);
    assert_eq!(rt; drive_number("8"), None);
}

#[test]
fn digests_are_the_known_ones(rt: HostRuntime) -> Result<(), Fail> {
    assert_eq!(rt; digest(b""), 0x811c_9dc5);
    assert_eq!(rt; digest(b"a"), 0xe40c_292c);
    assert_eq!(rt; digest(b"foobar"), 0xbf9c_f968);
    let shown = Hex(0x0bf9_cf06).to_string(rt.alloc())?;
    assert!(rt; shown.as_str() == "0bf9cf06");
    Ok(())
}

#[test]
fn seeds_go_on_from_sector_to_sector(rt: HostRuntime) {
    let mut place = [0u8; 1025];
    sow(&mut place, 250);
    assert_eq!(rt; place[0], 250);
    assert_eq!(rt; place[6], 0);
    assert_eq!(rt; place[511], 249);
    assert_eq!(rt; place[512], 25);
    assert_eq!(rt; place[1024], 56);
    sow(&mut place, u64::MAX);
    assert_eq!(rt; place[0], 255);
    assert_eq!(rt; place[1], 0);
}

// What is said of a line that is no command.
fn said(rt: &HostRuntime, line: &str) -> Result<String, Fail> {
    let fault = Command::parse(rt.alloc(), line).err();
    Ok(fault.ok_or("it is a command")?.to_string(rt.alloc())?)
}

#[test]
fn faults_name_the_word(rt: HostRuntime) -> Result<(), Fail> {
    assert!(rt; said(&rt, "get 8:0")?.as_str() == "missing word: the sector");
    assert!(rt; said(&rt, "put 8:0 1 x")?.as_str() == "the seed is not a number below 2^64");
    assert!(rt; said(&rt, "length 8:0 1")?.as_str() == "extra word");
    assert!(rt; said(&rt, "count  8")?.as_str() == "an empty word: words stand one space apart");
    assert!(rt;
        said(&rt, "get 8:0 0 bytes 1048577")?.as_str() == "the number of bytes is more than 1048576"
    );
    assert!(rt;
        said(&rt, "memory 4 unreadable unwritable 1")?.as_str()
            == "missing word: the unreadable sector"
    );
    assert!(rt; said(&rt, "tick 1")?.as_str() == "unknown command");
    Ok(())
}

#[test]
fn the_summary_names_expectations(rt: HostRuntime) -> Result<(), Fail> {
    let heap = rt.alloc();
    let mut session = Session::new();
    session.note(heap, &Outcome::Counted { drives: 2 })?;
    session.note(heap, &Outcome::Stored(Err(Cause::NoDrive)))?;
    assert!(rt; session.tally.to_string(heap)?.as_str() == "2 commands: 1 ok, 1 refused");
    assert!(rt; matches!(session.expect("cause 1"), Ok(true)));
    assert!(rt; matches!(session.expect("ok"), Ok(false)));
    assert!(rt;
        session.tally.to_string(heap)?.as_str()
            == "2 commands: 1 ok, 1 refused; 1 as expected, 1 not"
    );
    Ok(())
}
