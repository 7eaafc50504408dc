// Words of no form, disks that can't be opened, and faults of a short script.
use crate::tests::running::{
    Case, Device, End, Fails, NONE_FAILS, Stored, UNASKED, disk_of, end_from, end_over, failing,
};
use crate::tests::stores::{EMPTY, NEW, OPTION};
use cov_base::{Memory, Text};
use std::alloc::Global;
use std::process::Abort;
use std::test::Fail;

/// Each device but the sink fails at its first call.
const UNTOUCHED: Fails = Fails {
    source: 1,
    sink: 0,
    disk: 1,
    trees: 1,
};

/// Words of no form.
const WORDS: [&[&str]; 23] = [
    &[],
    &["run", "x"],
    &["check", "x"],
    &["demo"],
    &["demo", "07"],
    &["demo", "-1"],
    &["demo", "+1"],
    &["demo", "18446744073709551616"],
    &["demo", "1", "2"],
    &["import"],
    &["import", "/"],
    &["import", "m"],
    &["import", "/m", "/n"],
    &["replica"],
    &["replica", "x"],
    &["replica", "cat", "-"],
    &["replica", "", "cat", "-", "/m"],
    &["replica", "where", "1"],
    &["replica", "pastout", "t", "1", "-"],
    &["replica", "#"],
    &["--help"],
    &["--version"],
    &["Run"],
];

#[test]
fn other_words_are_told_the_words(rt: HostRuntime) -> Result<(), Fail> {
    for words in &WORDS {
        let case = Case {
            words,
            script: b"option a\n",
            replies: b"usage: covstore run | check | demo N | import PATH | replica LINE\n",
            rows: &[],
        };
        let end = end_from(rt.alloc(), &case, UNTOUCHED, &EMPTY, &EMPTY)?;
        assert_eq!(rt; end, (case.end(2), true));
    }
    Ok(())
}

/// A record of an expression of 257 parts, which is one more than it may have.
const PARTS: [u8; 296] = [
    1, 0, 0, 1, 2, 2, 3, 3, 3, 3, 3, 3, 3, 3, 3, 3, 3, 3, 3, 3, 3, 3, 3, 3, 3, 3, 3, 3, 3, 3, 3, 3,
    3, 3, 3, 3, 3, 3, 3, 3, 3, 3, 3, 3, 3, 3, 3, 3, 3, 3, 3, 3, 3, 3, 3, 3, 3, 3, 3, 3, 3, 3, 3, 3,
    3, 3, 3, 3, 3, 3, 3, 3, 3, 3, 3, 3, 3, 3, 3, 3, 3, 3, 3, 3, 3, 3, 3, 3, 3, 3, 3, 3, 3, 3, 3, 3,
    3, 3, 3, 3, 3, 3, 3, 3, 3, 3, 3, 3, 3, 3, 3, 3, 3, 3, 3, 3, 3, 3, 3, 3, 3, 3, 3, 3, 3, 3, 3, 3,
    3, 3, 3, 3, 3, 3, 3, 3, 3, 3, 3, 3, 3, 3, 3, 3, 3, 3, 3, 3, 3, 3, 3, 3, 3, 3, 3, 3, 3, 3, 3, 3,
    3, 3, 3, 3, 3, 3, 3, 3, 3, 3, 3, 3, 3, 3, 3, 3, 3, 3, 3, 3, 3, 3, 3, 3, 3, 3, 3, 3, 3, 3, 3, 3,
    3, 3, 3, 3, 3, 3, 3, 3, 3, 3, 3, 3, 3, 3, 3, 3, 3, 3, 3, 3, 3, 3, 3, 3, 3, 3, 3, 3, 3, 3, 3, 3,
    3, 3, 3, 3, 3, 3, 3, 3, 3, 3, 3, 3, 3, 3, 3, 3, 3, 3, 3, 3, 3, 3, 3, 3, 3, 3, 3, 3, 3, 3, 3, 3,
    3, 3, 3, 3, 3, 3, 1, 150, 39, 183, 182, 53, 21, 156, 66, 181, 15, 53, 77, 148, 39, 91, 202, 72,
    118, 69, 119, 51, 209, 172, 92, 123, 236, 145, 199, 115, 6, 175, 38, 0,
];

/// Disks that can't be opened: so many bytes of the store of an option, what stands behind them, and what is told.
const DISKS: [(usize, &[u8], &[u8]); 23] = [
    (0, b"hello hello hello he", b"not-a-store\n"),
    (14, b"", b"damaged 1 cut\n"),
    (52, b"", b"damaged 1 cut\n"),
    (51, b"\xdc\0", b"damaged 1 digest\n"),
    (
        0,
        b"COVSTORE\0\0\0\x01\x01\0\0\0\x01\x09\xdd\x88\xefN\x7f\xae\xb4Y\xc3\xbc\xd3\x07\xe8\x06\xee\x91*\xc2X\xfc\xf9\x15g\x16\xf0\xb5\x17G\x91\xbb\xb0\xfb\0",
        b"damaged 1 record\n",
    ),
    (
        52,
        b"\x01\0\0\0\x03\x01\x01a\x13\x11ym1\x86\x01\xc56\xdc\x85\x88'\x9c\xbb\xdes\x09\x15X\x17-h\x8cA9rVS\xdc1\xb1\0",
        b"damaged 2 refused exists\n",
    ),
    (
        52,
        b"\x01\0\0\0\x16\x05\0\0\0\x01\x01\x01\x02\0\0\0\0\x01\x01\0\0\0\0\0\0\x01x\xb7P\xf1\xfb\xecx\xd4\x10\xac\xe3R\x0b2\x86\xb8M\x96\xee\xef,\xfb\xbe\xde\xd5\xf2\xc65\xb2x7\xebC\x01\0\0\0\x15\x05\0\0\0\x02\x01\0\x01\0\0\0\x01\x01\0\0\0\0\0\0\x01x\xc7\x98n\xf8\xe2h\xe7l\xfes\x15\x07\xfc\x08\x80\xf9\xf7k\xa4c\x8aogE,\xaaE\xd5CL\xb0\xa3\0",
        b"damaged 3 refused clash 1 2 in a=on\n",
    ),
    (
        52,
        b"\x01\0\0\0\x15\x05\0\0\0\x02\x01\x01\x01\0\0\0\x01\x01\0\0\0\0\0\0\x01x5Y\xe5\x9a\x93\x94\xa7,\x90\xcb\x9d\xea`\x96\x91$\x9cD\xf54\xcc\x88\xcd8i\xea\x8c\x99\x97&\xec6\0",
        b"damaged 2 refused bad-base\n",
    ),
    (
        52,
        b"\x01\0\0\0\x14\x05\0\0\0\x01\0\x01\0\0\0\x01\x01\0\0\0\0\0\0\x01x\x93_\xa5\0\x89\xf8\x10\xf1\xdej\xc3\x9d\xe1\x08HJ\x13\xbf\xd7\x17\x89_X\x19\xf9)\xf3A!\x88\x92`\0",
        b"damaged 2 refused bad-option\n",
    ),
    (
        52,
        b"\x01\0\0\0\x22\x05\0\0\0\x01\x01\x01\x01\0\0\0\x02\x01\0\0\0\0\0\0\x01x\x02\0\0\0\0\x07\0\0\0\0\0\0\x004\x82\xf7:\x03$m\x83;<\xc4\xea)\x8d\x189\xff\x0aF\xf7f\xdd\xd1\xde\xe2\xec\xfc\xb5\x80\x11f&\0",
        b"damaged 2 refused bad-record 1\n",
    ),
    (
        52,
        b"\x01\0\0\0\x03\x02\x02\0\xac\xd5\xe1s\xecXz\xde\x7f_u\xf4\x99\xa5?\xa7\xd3=T\x8c\x94\xfef\x0dxG=\xf870Mv\x01\0\0\0\x15\x05\0\0\0\x02\x01\0\x01\0\0\0\x01\x01\0\0\0\0\0\0\x01x\xfd\xac\xfc\xa9\x8ct\x9b\xd2)\x84j<\xad55\x98&\x98\xa4\xe98\x9b\x14\xb6\x97\xb2 \x1b\xc9^/d\0",
        b"damaged 3 refused invalid 1\n",
    ),
    (
        52,
        b"\x01\0\0\0\x03\x02\x02\0\xac\xd5\xe1s\xecXz\xde\x7f_u\xf4\x99\xa5?\xa7\xd3=T\x8c\x94\xfef\x0dxG=\xf870Mv\x01\0\0\0\x04\x02\x03\x02\0u\xb5\xf9\xd5\xa2)f\xf3d\x8cbg\xe1\xde\xb1\xe7\x16E\xabTx9CQ25e\xec\x06TBl\0",
        b"damaged 3 refused no-variant-left\n",
    ),
    (
        52,
        b"\x01\0\0\0\x17\x05\0\0\0\x01\x01\x01\x03\x02\0\0\0\0\x01\x01\0\0\0\0\0\0\x01x\x9d\xd5J\xa7\xefy\xff\x0f0t\xf5D\xf2NZQm\xb3=\xae\xa2A\x9b\xfa5x\xec_g\x90\xb94\0",
        b"damaged 2 refused outside-ambition\n",
    ),
    (
        52,
        b"\x01\0\0\0\x0c\x05\0\0\0\x01\x01\x01\x01\0\0\0\0\x04\x11~B\x94\x8c\xf4e\xf0\x1aT\x09\x82\x87\xb6\xcf\xc1T9yJ\xc4\xf3\xf1\x89\x92\xc9]\xe0;\x97f\0",
        b"damaged 2 refused empty\n",
    ),
    (12, b"\x01\xff\xff\xff\xffhello", b"damaged 1 cut\n"),
    (8, b"\0\0\0\x02\0\0\0\0\0\0\0\0", b"not-a-store\n"),
    (
        12,
        b"\x01\0\0\0\x03\x02\x02\0p\"\x8c\xfe|\xefi\xc83n\xdd\xc6w&Z\x1a\x8aH\n\xb4%x\xc1'>\x0dI1\xef\xb0\xd0\xc3\0",
        b"damaged 1 refused bad-option\n",
    ),
    (
        12,
        b"\x01\0\0\0\x0b\x05\0\0\0\x05\0\x01\0\0\0\0\xf7:&*\xd6L;3Y\x08\xd8\x84\x99\xb1Q\xed}\xf7`xazQ\xf5\xcd\x9d\x85\x9bR\xad\xe1\xf1\0",
        b"damaged 1 refused bad-base\n",
    ),
    (
        12,
        b"\x01\0\0\0\x0b\x05\0\0\0\0\0\0\0\0\0\0/Um\x94\x9d&\xe0\xc1\x93\xbaf\x12\xe2\xf23\xfa\xa8b\x89A\x98d\xb6\x9d\x01\x1f/\xbcn\xa8f\xe4\0",
        b"damaged 1 refused outside-ambition\n",
    ),
    (
        12,
        b"\x01\0\0\0\x0b\x05\0\0\0\0\0\x01\0\0\0\0\x84\xa5\xb6\xe3\xc6\x94zq\xe2\x02\xc3\xfc8\x11r\xb9\x09\x08^\xf3?i>\xaew\xfda{;\x0b\x94\xc3\0",
        b"damaged 1 refused empty\n",
    ),
    (
        12,
        b"\x01\0\0\0\x16\x05\0\0\0\0\0\x01\0\0\0\x01\x03\0\0\0\0\x01\0\0\0\0\x01\xd2\x18\xa0\x18P\xec\xd5\x0cK\x10\x19uT\xd0\x05.M\xacJ\xe6\xf5s\xe8i\x04\xab\xb0\xfd\xb8z\xdc\x9f\0",
        b"damaged 1 refused bad-record 0\n",
    ),
    (
        12,
        b"\x01\0\0\0\x03\x01\x01a\x93\xf75[\xe3\xf1\xd5\xd3\xc4\xd8\xeb\x8f\xa4\x17\xae\xd2\x03g\x051\x97\xce\xaf\xe0})\x0d\xdc\xb3\xf1\xfb\xdd\x01\0\0\0\x03\x02\x02\0\xac\xd5\xe1s\xecXz\xde\x7f_u\xf4\x99\xa5?\xa7\xd3=T\x8c\x94\xfef\x0dxG=\xf870Mv\x01\0\0\0\x0c\x05\0\0\0\x02\x01\0\x01\0\0\0\0,n\x93k\x90[\x81\x0f\x1a\x95\xa7\xfc\xa5b\xbf\xcdUiH\x8f\x86\x9b\xe3a\x90\xf6\xecA\xa7\xc9\xc6.\0",
        b"damaged 3 refused invalid 1\n",
    ),
    (12, &PARTS, b"damaged 1 record\n"),
];

// The status of a disk that can't be opened.
fn code_of(told: &[u8]) -> u8 {
    if told == b"not-a-store\n".as_slice() {
        8
    } else {
        9
    }
}

/// Runs these words over a disk that can't be opened: what is told, and that the disk stays as it is.
pub(crate) fn check_words(
    rt: &impl Abort,
    alloc: Global,
    words: &'static [&'static str],
    disk: &Stored,
    replies: &'static [u8],
) -> Result<(), Memory> {
    let case = Case {
        words,
        script: b"checkout t -",
        replies,
        rows: &[],
    };
    let end = end_from(alloc, &case, UNASKED, disk, disk)?;
    assert_eq!(rt; end, (case.end(code_of(replies)), true));
    Ok(())
}

#[test]
fn what_cant_be_opened_is_told_and_kept(rt: HostRuntime) -> Result<(), Fail> {
    for (count, behind, told) in &DISKS {
        let disk = Stored {
            whole: &OPTION,
            count: *count,
            behind,
        };
        check_words(&rt, rt.alloc(), &["run"], &disk, told)?;
        check_words(&rt, rt.alloc(), &["check"], &disk, told)?;
    }
    Ok(())
}

/// A commit of more deletes than it may have edits: what comes before them, each of them, and what comes behind.
const CROWDED: ([u8; 28], [u8; 11], [u8; 33]) = (
    [
        67, 79, 86, 83, 84, 79, 82, 69, 0, 0, 0, 1, 1, 0, 2, 192, 22, 5, 0, 0, 0, 0, 0, 1, 0, 0,
        64, 1,
    ],
    [3, 0, 0, 0, 0, 1, 0, 0, 0, 0, 1],
    [
        91, 220, 69, 210, 24, 32, 238, 7, 46, 248, 213, 181, 69, 244, 219, 31, 205, 91, 141, 238,
        57, 241, 75, 96, 203, 21, 121, 233, 59, 221, 88, 117, 0,
    ],
);

fn crowded(alloc: Global) -> Result<Text, Memory> {
    let (first, delete, last) = &CROWDED;
    let mut image = Text::from_slice(alloc, first.as_slice())?;
    for _ in 0..16385 {
        image.append(delete.as_slice())?;
    }
    image.append(last.as_slice())?;
    Ok(image)
}

/// Asks how many records there are.
const CHECKED: Case = Case {
    words: &["check"],
    script: b"",
    replies: b"damaged 1 refused too-many-edits\n",
    rows: &[],
};

// Runs the program over a disk of this image, and tells whether it stays as it is.
fn end_on(alloc: Global, case: &Case, image: Text) -> Result<(End, bool), Memory> {
    let before = image.copy()?;
    let mut disk = disk_of(alloc, image, 0)?;
    let end = end_over(alloc, case, UNASKED, &mut disk);
    let same = disk.bytes() == before.as_slice();
    drop(disk);
    Ok((end?, same))
}

#[test]
fn a_commit_of_too_many_edits_is_told(rt: HostRuntime) -> Result<(), Fail> {
    let end = end_on(rt.alloc(), &CHECKED, crowded(rt.alloc())?)?;
    assert_eq!(rt; end, (CHECKED.end(9), true));
    Ok(())
}

/// At most 13 bytes, whatever they are, are made anew.
const SHORT: [(usize, &[u8]); 4] = [(12, b""), (13, b""), (0, b"hello hello h"), (3, b"\x01")];

#[test]
fn few_bytes_are_made_anew(rt: HostRuntime) -> Result<(), Fail> {
    for (count, behind) in &SHORT {
        let disk = Stored {
            whole: &OPTION,
            count: *count,
            behind,
        };
        let case = Case {
            words: &["run"],
            script: b"",
            replies: b"",
            rows: &[],
        };
        let end = end_from(rt.alloc(), &case, NONE_FAILS, &disk, &NEW)?;
        assert_eq!(rt; end, (case.end(0), true));
    }
    Ok(())
}

/// Two options and a checkout.
const SHORT_SCRIPT: Case = Case {
    words: &["run"],
    script: b"option a\noption b\ncheckout t -\n",
    replies: b"ok option 0\nok option 1\nrefused incomplete a\n",
    rows: &[],
};

/// What stands behind `option a` once `option b` is stored.
const OPTIONS: Stored = Stored {
    whole: &OPTION,
    count: 52,
    behind: b"\x01\0\0\0\x03\x01\x01b\x0e\xb44\xfd\xd5\xdf\x87\x03\xf6\xe4\xfeE\xc9n\x14/W\xf6PG,Y\x9a\xc7JX\xf9J\x80#\xe7\xf9\0",
};

// The tree of no file; its digest is that of no bytes.
const CHECKOUT: Case = Case {
    words: &["run"],
    script: b"checkout t -\n",
    replies: b"ok checkout t 0 0 e3b0c44298fc1c149afbf4c8996fb92427ae41e4649b934ca495991b7852b855\n",
    rows: &[],
};

/// Which call fails, the status, how many bytes are written, and what is on the disk.
const FAULTS: [(Case, Device, u64, u8, usize, Stored); 5] = [
    (SHORT_SCRIPT, Device::Sink, 2, 5, 12, OPTIONS),
    (SHORT_SCRIPT, Device::Source, 1, 4, 0, NEW),
    (SHORT_SCRIPT, Device::Disk, 1, 6, 0, EMPTY),
    (CHECKOUT, Device::Trees, 1, 7, 0, NEW),
    (SHORT_SCRIPT, Device::Sink, 0, 1, 45, OPTIONS),
];

#[test]
fn faults_are_told(rt: HostRuntime) -> Result<(), Fail> {
    for (case, device, call, code, written, after) in &FAULTS {
        let end = end_from(rt.alloc(), case, failing(*device, *call), &EMPTY, after)?;
        let wanted = End {
            code: *code,
            written: Some(*written),
            rows: Some(0),
        };
        assert_eq!(rt; end, (wanted, true));
    }
    Ok(())
}

/// Two bytes that are no text.
const NO_TEXT: Case = Case {
    words: &["run"],
    script: b"\xff\xfe",
    replies: b"refused syntax 0\n",
    rows: &[],
};

#[test]
fn bytes_that_are_no_text_are_refused(rt: HostRuntime) -> Result<(), Fail> {
    let end = end_from(rt.alloc(), &NO_TEXT, NONE_FAILS, &EMPTY, &NEW)?;
    assert_eq!(rt; end, (NO_TEXT.end(1), true));
    Ok(())
}
