//! Trees in the file system.
use cov_out::{FolderTrees, Trees};
use std::fs;
use std::test::Fail;

// Paths that could lead out of the folder, or that name nothing.
const OUTSIDE: [&[u8]; 9] = [
    b"", b".", b"..", b"../t", b"/t", b"t/", b"t//a", b"t/../a", b"t/a\0b",
];

#[test]
fn writes_below_the_folder(rt: HostRuntime) -> Result<(), Fail> {
    // There is none but after a run that was cut short.
    let _ = fs::remove_dir_all(&rt, "trees");
    let mut trees = FolderTrees::new(&rt);
    assert!(rt; fs::metadata(&rt, "trees").is_err());
    assert!(rt; trees.make_dir(b"t").is_ok());
    assert!(rt; trees.make_dir(b"t").is_err());
    assert!(rt; trees.make_dir(b"t/.a").is_ok());
    assert!(rt; trees.put_file(b"t/.a/-", b"one\ntwo\n").is_ok());
    assert!(rt; trees.put_file(b"t/.a/-", b"three\n").is_err());
    assert!(rt; trees.put_file(b"t/b/m", b"").is_err());
    assert!(rt; trees.put_file("t/\u{e9}".as_bytes(), b"").is_ok());
    for path in &OUTSIDE {
        assert!(rt; trees.make_dir(path).is_err());
        assert!(rt; trees.put_file(path, b"").is_err());
    }
    assert_eq!(rt;
        fs::read(&rt, "trees/t/.a/-")?.as_slice(),
        b"one\ntwo\n".as_slice()
    );
    assert_eq!(rt; fs::read(&rt, "trees/t/\u{e9}")?.len(), 0);
    fs::remove_dir_all(&rt, "trees")?;

    // Where a file has the folder's name, nothing can be made below it.
    fs::write(&rt, "trees", b"in the way")?;
    let mut trees = FolderTrees::new(&rt);
    assert!(rt; trees.make_dir(b"t").is_err());
    assert!(rt; trees.put_file(b"m", b"one\n").is_err());
    fs::remove_file(&rt, "trees")?;
    Ok(())
}
