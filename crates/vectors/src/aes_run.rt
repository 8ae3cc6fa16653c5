// The examples of FIPS 197, and queries of the hash built on AES.

use crate::aes_queries::QUERIES;
use crate::report::report;
use aes::AesHash;
use label::Answer;
use std::io;

// The key of FIPS 197, appendix B, with the bytes f0 to ff behind it as u1 and u2; and that of C.1.
const MATERIAL_B: &[u8; 32] = b"\x2b\x7e\x15\x16\x28\xae\xd2\xa6\xab\xf7\x15\x88\x09\xcf\x4f\x3c\
    \xf0\xf1\xf2\xf3\xf4\xf5\xf6\xf7\xf8\xf9\xfa\xfb\xfc\xfd\xfe\xff";

const MATERIAL_C: &[u8; 32] = b"\x00\x01\x02\x03\x04\x05\x06\x07\x08\x09\x0a\x0b\x0c\x0d\x0e\x0f\
    \x00\x00\x00\x00\x00\x00\x00\x00\x00\x00\x00\x00\x00\x00\x00\x00";

// The key schedule of FIPS 197, appendix A.1, which is that of appendix B's key.
const SCHEDULE: [u32; 44] = [
    0x2b7e1516, 0x28aed2a6, 0xabf71588, 0x09cf4f3c, 0xa0fafe17, 0x88542cb1, 0x23a33939, 0x2a6c7605,
    0xf2c295f2, 0x7a96b943, 0x5935807a, 0x7359f67f, 0x3d80477d, 0x4716fe3e, 0x1e237e44, 0x6d7a883b,
    0xef44a541, 0xa8525b7f, 0xb671253b, 0xdb0bad00, 0xd4d1c6f8, 0x7c839d87, 0xcaf2b8bc, 0x11f915bc,
    0x6d88a37a, 0x110b3efd, 0xdbf98641, 0xca0093fd, 0x4e54f70e, 0x5f5fc9f3, 0x84a64fb2, 0x4ea6dc4f,
    0xead27321, 0xb58dbad2, 0x312bf560, 0x7f8d292f, 0xac7766f3, 0x19fadc21, 0x28d12941, 0x575c006e,
    0xd014f9a8, 0xc9ee2589, 0xe13f0cc8, 0xb6630ca6,
];

const PLAIN_B: &[u8; 16] = b"\x32\x43\xf6\xa8\x88\x5a\x30\x8d\x31\x31\x98\xa2\xe0\x37\x07\x34";

const CIPHER_B: &[u8; 16] = b"\x39\x25\x84\x1d\x02\xdc\x09\xfb\xdc\x11\x85\x97\x19\x6a\x0b\x32";

const PLAIN_C: &[u8; 16] = b"\x00\x11\x22\x33\x44\x55\x66\x77\x88\x99\xaa\xbb\xcc\xdd\xee\xff";

const CIPHER_C: &[u8; 16] = b"\x69\xc4\xe0\xd8\x6a\x7b\x04\x30\xd8\xcd\xb7\x80\x70\xb4\xc5\x5a";

// The words of the schedule, and none after them.
fn run_schedule(rt: &HostRuntime, hash: &AesHash) -> io::Result<()> {
    for (i, word) in SCHEDULE.iter().enumerate() {
        let line = format_args!("AES w{i} {word:08x}:");
        report(rt, line, hash.round_key_word(i), Some(*word))?;
    }
    report(rt, "AES no w44:", hash.round_key_word(44), None)
}

// Key material of another length than 32 bytes.
fn run_refusal(rt: &HostRuntime) -> io::Result<()> {
    let place = AesHash::new(PLAIN_B).err().map(|refusal| refusal.place());
    report(rt, "AES hash, 16 bytes:", place, Some(6))
}

fn run_appendix_b(rt: &HostRuntime) -> io::Result<()> {
    // a refused key is printed, and is no error of the program; so below, and with the other hash
    let Ok(mut hash) = AesHash::new(MATERIAL_B) else {
        return println!(rt; "the key material of appendix B was refused");
    };
    run_schedule(rt, &hash)?;
    report(
        rt,
        "FIPS 197 appendix B:",
        hash.encrypt(*PLAIN_B),
        *CIPHER_B,
    )?;
    for query in &QUERIES {
        let (left, right) = query.label;
        let Answer { word, pair } = query.expected;
        let line = format_args!(
            "AES hash {left:016x} {right:016x} {:08x}: {word:016x} {} {}",
            query.tweak, pair.low, pair.high
        );
        query.run(rt, &mut hash, line)?;
    }
    Ok(())
}

fn run_appendix_c(rt: &HostRuntime) -> io::Result<()> {
    let Ok(hash) = AesHash::new(MATERIAL_C) else {
        return println!(rt; "the key material of appendix C.1 was refused");
    };
    report(
        rt,
        "FIPS 197 appendix C.1:",
        hash.encrypt(*PLAIN_C),
        *CIPHER_C,
    )
}

pub(crate) fn run_aes(rt: &HostRuntime) -> io::Result<()> {
    run_refusal(rt)?;
    run_appendix_b(rt)?;
    run_appendix_c(rt)
}
