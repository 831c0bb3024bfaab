// Pairs of 0 to 65 drives: which of them are shown, and whose they are.
use super::at;
use super::rack::Rack;
use bank::{Bank, Cause, Source};
use drives::{Memory, Rom};
use pair::Pair;

#[test]
fn no_drive(rt: HostRuntime) {
    let mut none = Pair::new(Rack::new(0), Rack::new(0));
    let mut place = [0xAAu8; 512];
    assert_eq!(rt; none.count(), 0);
    assert_eq!(rt; none.length(0), 0);
    assert_eq!(rt; none.read(at(0, 0), &mut place), Err(Cause::NoDrive));
    assert_eq!(rt; none.write(at(0, 0), &place), Err(Cause::NoDrive));
    assert_eq!(rt; none.write(at(0, 0), &place[0..1]), Err(Cause::WrongSize));
}

#[test]
fn the_left_bank_comes_first(rt: HostRuntime) {
    let mut bytes = [0u8; 1024];
    let memory = Memory::new(&mut bytes, &[], &[]);
    let mut pair = Pair::new(Rom::new(3), Pair::new(memory, Rom::new(5)));
    let data = [6u8; 512];
    let mut place = [0u8; 512];
    assert_eq!(rt; pair.count(), 3);
    assert_eq!(rt; pair.length(0), 3);
    assert_eq!(rt; pair.length(1), 2);
    assert_eq!(rt; pair.length(2), 5);
    assert_eq!(rt; pair.length(3), 0);
    assert_eq!(rt; pair.write(at(1, 1), &data), Ok(()));
    assert_eq!(rt; pair.write(at(2, 1), &data), Err(Cause::Unwritable));
    assert_eq!(rt; pair.read(at(1, 1), &mut place), Ok(Source::Cell(at(1, 1))));
    assert_eq!(rt; place[511], 6);
    assert_eq!(rt; pair.read(at(2, 4), &mut place), Ok(Source::Cell(at(2, 4))));
    assert_eq!(rt; place[511], 4);
    assert_eq!(rt; pair.read(at(3, 0), &mut place), Err(Cause::NoDrive));
}

// How many drives a pair of racks shows.
fn shown(left: u8, right: u8) -> u8 {
    Pair::new(Rack::new(left), Rack::new(right)).count()
}

#[test]
fn at_most_64_drives_are_shown(rt: HostRuntime) {
    assert_eq!(rt; shown(0, 0), 0);
    assert_eq!(rt; shown(0, 1), 1);
    assert_eq!(rt; shown(63, 0), 63);
    assert_eq!(rt; shown(0, 64), 64);
    assert_eq!(rt; shown(32, 32), 64);
    assert_eq!(rt; shown(64, 1), 64);
    assert_eq!(rt; shown(1, 64), 64);
    assert_eq!(rt; shown(33, 32), 64);
    assert_eq!(rt; shown(255, 255), 64);
}

#[test]
fn the_64th_drive_is_shown(rt: HostRuntime) {
    let all = Pair::new(Rack::new(40), Rack::new(24));
    assert_eq!(rt; all.length(63), 1);
    assert_eq!(rt; all.read_end(at(63, 0)), Ok(Source::Cell(at(63, 0))));
    assert_eq!(rt; all.write_cause(at(63, 0)), Some(Cause::Unwritable));
    assert_eq!(rt; all.read_end(at(64, 0)), Err(Cause::NoDrive));
    assert_eq!(rt; all.read_end(at(255, u64::MAX)), Err(Cause::NoDrive));
}

#[test]
fn the_65th_drive_is_hidden(rt: HostRuntime) {
    let last = Pair::new(Rack::new(64), Rom::new(9));
    assert_eq!(rt; last.length(63), 1);
    assert_eq!(rt; last.length(64), 0);
    assert_eq!(rt; last.write_cause(at(64, 0)), Some(Cause::NoDrive));
    let first = Pair::new(Rom::new(9), Rack::new(64));
    assert_eq!(rt; first.length(0), 9);
    assert_eq!(rt; first.length(63), 1);
    assert_eq!(rt; first.read_end(at(64, 0)), Err(Cause::NoDrive));
}
