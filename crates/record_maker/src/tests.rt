use super::*;
use ecam_io::Source;

const PIECE: usize = 4096;

// The record of seed 1 and one moment, worked by hand. The draws are 0x40822041, 0x100041060c011441 and
// 0x9b1e842f6e862629.
const WORKED: &str = "W 0 00000417\nW 1 e1020803\nT\nE\n";

#[test]
fn one_moment(rt: HostRuntime) {
    let mut maker = Maker::new(1, 1);
    let mut into = [0u8; PIECE];
    assert_eq!(rt; maker.read(&mut into), Ok(WORKED.len()));
    assert_eq!(rt; &into[..30], WORKED.as_bytes());
    for _ in 0..2 {
        assert_eq!(rt; maker.read(&mut into), Ok(0));
    }
}

#[test]
fn a_moment_in_pieces(rt: HostRuntime) {
    let mut maker = Maker::new(1, 1);
    let mut into = [0u8; 7];
    for (from, to) in [(0, 7), (7, 14), (14, 21), (21, 28), (28, 30)] {
        let got = maker.read(&mut into).map(|n| &into[..n]);
        assert!(rt; from <= to && to <= WORKED.len());
        assert_eq!(rt; got, Ok(&WORKED.as_bytes()[from..to]), "{from}");
    }
}

// Seeds, numbers of moments, and how many bytes their records have, with the digest of these (FNV-1a of 64 bits). They
// come from a program of another hand. The fourth flies two flights and has strokes of all keys.
const RECORDS: &[(u64, u32, usize, u64)] = &[
    (1, 0, 2, 0x08fb_1407_b595_db5e),
    (1, 40, 1131, 0x27ef_8846_2db0_41ab),
    (0, 40, 1131, 0x27ef_8846_2db0_41ab),
    (7, 12001, 338652, 0xee93_7c8f_4ce8_0616),
    (u64::MAX, 300, 8468, 0x24cf_33d4_fb58_4087),
    (12345678901234567890, 6000, 169258, 0xb76e_42c3_c754_012b),
];

// How many bytes a maker gives in pieces of this size, and their digest.
fn digest(mut maker: Maker, piece: usize) -> (usize, u64) {
    let mut into = [0u8; PIECE];
    let mut digest: u64 = 0xcbf2_9ce4_8422_2325;
    let mut bytes: usize = 0;
    let piece = piece.clamp(1, PIECE);
    for _ in 0..1_000_000 {
        let n = maker.read(&mut into[..piece]).unwrap_or(0);
        if n == 0 || n > piece {
            break;
        }
        for byte in &into[..n] {
            digest = (digest ^ u64::from(*byte)).wrapping_mul(0x0100_0000_01b3);
        }
        bytes = bytes.wrapping_add(n);
    }
    (bytes, digest)
}

#[test]
fn records_of_another_hand(rt: HostRuntime) {
    for (seed, moments, bytes, want) in RECORDS {
        for piece in [1, 41, 4096] {
            assert!(rt; *moments <= 1_000_000);
            assert_eq!(rt;
                digest(Maker::new(*seed, *moments), piece),
                (*bytes, *want),
                "{seed} {piece}"
            );
        }
    }
}
