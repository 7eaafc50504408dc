//! The scripts that numbers stand for, against their lengths and digests as an independent program gives them.
use cov_script::demo;
use sha2::{Digest, Sha256};
use std::alloc::Global;
use std::process::Abort;
use std::test::Fail;

struct Row {
    number: u64,
    length: usize,
    digest: &'static str,
}

const ROWS: &[Row] = &[
    Row {
        number: 0,
        length: 1304999,
        digest: "bd11cbc86856202869bea4304011e5fae44bea868dd16dce6b1e2021c9a9c744",
    },
    Row {
        number: 1,
        length: 1306107,
        digest: "4c8cfc1d8edf35a4ebc2d0ddf913e73c89f4773ead72be7932625882a2c4e0d1",
    },
    Row {
        number: 7,
        length: 1304470,
        digest: "326a4e825de5d4de41f3d47c334af22bb7298564fe0e2f0c49f7eace981c4808",
    },
    Row {
        number: u64::MAX,
        length: 1303793,
        digest: "ad58d2eb7c064026985c69afcba02e6934ee850b4724c4d426246056747fe624",
    },
];

// Whether the script of a row's number has its length and its digest.
fn is_as_told(alloc: Global, row: &Row) -> Result<bool, Fail> {
    let script = demo(alloc, row.number)?;
    let digest = hex::encode(alloc, Sha256::digest(script.as_slice()).as_slice())?;
    Ok(script.len() == row.length && digest.as_str() == row.digest)
}

#[test]
fn scripts_are_those_of_their_numbers(rt: HostRuntime) -> Result<(), Fail> {
    for row in ROWS {
        assert!(rt; is_as_told(rt.alloc(), row)?);
    }
    Ok(())
}
