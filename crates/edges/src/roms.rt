// ROM drives of 0, 256 and 257 sectors.
use super::at;
use bank::{Bank, Cause, Source};
use drives::Rom;

#[test]
fn at_most_256_sectors(rt: HostRuntime) {
    assert_eq!(rt; Rom::new(0).length(0), 0);
    assert_eq!(rt; Rom::new(255).length(0), 255);
    assert_eq!(rt; Rom::new(256).length(0), 256);
    assert_eq!(rt; Rom::new(257).length(0), 256);
    assert_eq!(rt; Rom::new(u64::MAX).length(0), 256);
    assert_eq!(rt; Rom::new(0).read_end(at(0, 0)), Err(Cause::PastEnd));
}

#[test]
fn every_byte_is_the_sector(rt: HostRuntime) {
    let rom = Rom::new(257);
    let mut place = [0xAAu8; 512];
    assert_eq!(rt;
        rom.read(at(0, 255), &mut place),
        Ok(Source::Cell(at(0, 255)))
    );
    assert_eq!(rt; place[0], 255);
    assert_eq!(rt; place[511], 255);
    assert_eq!(rt; rom.read(at(0, 256), &mut place), Err(Cause::PastEnd));
    assert_eq!(rt; place[0], 255);
}

#[test]
fn no_write_is_taken(rt: HostRuntime) {
    let mut rom = Rom::new(2);
    let data = [0u8; 512];
    assert_eq!(rt; rom.write(at(0, 1), &data), Err(Cause::Unwritable));
    assert_eq!(rt; rom.write(at(0, 2), &data), Err(Cause::PastEnd));
    assert_eq!(rt; rom.write(at(1, 0), &data), Err(Cause::NoDrive));
    assert_eq!(rt; rom.write(at(1, 0), &data[0..511]), Err(Cause::WrongSize));
    assert_eq!(rt; rom.write_cause(at(0, 1)), Some(Cause::Unwritable));
}
