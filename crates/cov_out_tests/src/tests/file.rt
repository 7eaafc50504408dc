//! A disk over a file.
use cov_base::Failed;
use cov_disk::{Disk, FileDisk};
use std::fs;
use std::process::Abort;
use std::rt::Files;
use std::test::Fail;

const STORE: &str = "store.cov";

/// Four bytes from a place on.
fn four<R: Files + AllocGlobal>(disk: &mut FileDisk<R>, at: u64) -> Result<[u8; 4], Failed> {
    let mut bytes = [0; 4];
    disk.read_at(at, bytes.as_mut_slice())?;
    Ok(bytes)
}

/// Whether each call fails, the one that touches the file first among them.
fn is_closed<R: Files + AllocGlobal>(disk: &mut FileDisk<R>) -> bool {
    disk.length().is_err()
        && four(disk, 0).is_err()
        && disk.write_at(0, b"one").is_err()
        && disk.sync().is_err()
}

/// How many bytes the file has, None where it isn't there.
fn size(files: &impl Files) -> Option<u64> {
    match fs::metadata(files, STORE) {
        Ok(metadata) => Some(metadata.len()),
        Err(_) => None,
    }
}

fn write_and_read<R: Files + AllocGlobal>(rt: &impl Abort, disk: &mut FileDisk<R>) {
    assert_eq!(rt; disk.length(), Ok(0));
    assert!(rt; disk.write_at(0, b"one and two").is_ok());
    assert!(rt; disk.sync().is_ok());
    assert_eq!(rt; disk.length(), Ok(11));
    assert_eq!(rt; four(disk, 4), Ok(*b"and "));

    // What was read ahead isn't kept where it is written over, and a write may go past the end.
    assert!(rt; disk.write_at(4, b"or").is_ok());
    assert_eq!(rt; four(disk, 4), Ok(*b"ord "));
    assert!(rt; disk.write_at(11, b" more").is_ok());
    assert_eq!(rt; four(disk, 12), Ok(*b"more"));
    assert_eq!(rt; disk.length(), Ok(16));
}

fn read_past_the_end<R: Files + AllocGlobal>(rt: &impl Abort, disk: &mut FileDisk<R>) {
    assert_eq!(rt; four(disk, 0), Ok(*b"one "));
    assert!(rt; four(disk, 13).is_err());
    assert!(rt; is_closed(disk));
}

fn write_behind_the_end<R: Files + AllocGlobal>(rt: &impl Abort, disk: &mut FileDisk<R>) {
    assert!(rt; disk.write_at(17, b"far").is_err());
    assert!(rt; is_closed(disk));
}

#[test]
fn keeps_bytes_in_a_file(rt: HostRuntime) -> Result<(), Fail> {
    let mut disk = FileDisk::new(&rt);
    assert_eq!(rt; size(&rt), None);
    write_and_read(&rt, &mut disk);
    drop(disk);
    let mut disk = FileDisk::new(&rt);
    read_past_the_end(&rt, &mut disk);
    drop(disk);
    let mut disk = FileDisk::new(&rt);
    write_behind_the_end(&rt, &mut disk);
    drop(disk);
    assert_eq!(rt;
        fs::read(&rt, STORE)?.as_slice(),
        b"one ord two more".as_slice()
    );
    fs::remove_file(&rt, STORE)?;
    Ok(())
}

fn read_far<R: Files + AllocGlobal>(rt: &impl Abort, disk: &mut FileDisk<R>) {
    assert_eq!(rt; four(disk, 65530), Ok([7, 7, 7, 7]));
    assert_eq!(rt; four(disk, 65534), Ok([7, 1, 2, 7]));
    assert_eq!(rt; four(disk, 199996), Ok([7, 7, 7, 3]));
    assert_eq!(rt; four(disk, 65534), Ok([7, 1, 2, 7]));
}

fn read_whole<R: Files + AllocGlobal>(
    rt: &impl Abort,
    disk: &mut FileDisk<R>,
    bytes: &[u8],
    into: &mut [u8],
) {
    assert!(rt; disk.read_at(0, into).is_ok());
    assert!(rt; &*into == bytes);
}

#[test]
fn reads_more_than_it_reads_ahead(rt: HostRuntime) -> Result<(), Fail> {
    let mut bytes = vec![in rt.alloc(); 7u8; 200000]?;
    let mut into = vec![in rt.alloc(); 0u8; 200000]?;
    bytes[65535] = 1;
    bytes[65536] = 2;
    bytes[199999] = 3;
    fs::write(&rt, STORE, bytes.as_slice())?;
    let mut disk = FileDisk::new(&rt);
    read_far(&rt, &mut disk);
    read_whole(&rt, &mut disk, bytes.as_slice(), into.as_mut_slice());
    drop(disk);
    fs::remove_file(&rt, STORE)?;
    Ok(())
}

fn check_closed<R: Files + AllocGlobal + Drop>(rt: &impl Abort, files: R) {
    let mut disk = FileDisk::new(files);
    assert!(rt; is_closed(&mut disk));
    drop(disk);
}

#[test]
fn refuses_what_is_no_file(rt: HostRuntime) -> Result<(), Fail> {
    fs::create_dir(&rt, STORE)?;
    check_closed(&rt, &rt);
    fs::remove_dir(&rt, STORE)?;

    // A device, which takes each write and keeps none.
    rt.symlink("/dev/null", STORE)?;
    check_closed(&rt, &rt);
    fs::remove_file(&rt, STORE)?;

    // A link into a directory that isn't there, which stays so.
    rt.symlink("missing/store", STORE)?;
    check_closed(&rt, &rt);
    assert!(rt; fs::metadata(&rt, "missing").is_err());
    fs::remove_file(&rt, STORE)?;
    Ok(())
}
