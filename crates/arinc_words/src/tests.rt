use crate::Word;

/// Words, and what their data say in binary from a lowest bit with a range.
const BINARY: &[(u32, u8, u32, Option<i64>)] = &[
    (0x70000000, 11, 1000, Some(-1000)),
    (0x6ffffc00, 11, 1000, Some(999)),
    (0x7ffffc00, 11, 1000, Some(-1)),
    (0x68000000, 28, 1000, Some(500)),
    (0x10000000, 11, 1000, None),
    (0x6bb80003, 17, 4096, Some(3000)),
    (0x7fff0003, 17, 4096, Some(-1)),
    (0xe0000003, 17, 4096, Some(0)),
];

/// Words, and what their data say in decimal.
const DECIMAL: &[(u32, Option<i64>)] = &[
    (0x048d1400, Some(12345)),
    (0x648d1400, Some(-12345)),
    (0x248d1400, None),
    (0x048d2800, None),
    (0x848d151e, Some(12345)),
    (0xe48d151e, Some(-12345)),
];

/// A label, an SDI, data and an SSM, and the word that they make.
const COMPOSED: &[(u8, u8, u32, u8, u32)] = &[
    (0o270, 0, 1, 0, 0x0000041d),
    (0o270, 0, 3, 0, 0x80000c1d),
    (0o100, 0, 32, 0, 0x80008002),
    (0o101, 0, 1, 0, 0x00000482),
    (0o100, 0, 0, 1, 0xa0000002),
    (0o101, 0, 0, 1, 0x20000082),
    (0o170, 1, 0x12345, 0, 0x848d151e),
    (0o170, 1, 0x12345, 3, 0xe48d151e),
    (0o377, 3, 0x7ffff, 3, 0x7fffffff),
];

#[test]
fn words_are_composed(rt: HostRuntime) {
    for (label, sdi, field, ssm, bits) in COMPOSED {
        assert!(rt; *sdi <= 3 && *field < 1 << 19 && *ssm <= 3);
        assert_eq!(rt; Word::compose(*label, *sdi, *field, *ssm).bits(), *bits);
    }
}

#[test]
fn words_are_read(rt: HostRuntime) {
    for (bits, low, range, value) in BINARY {
        assert!(rt; *low >= 11 && *low <= 28 && *range >= 1 && *range <= 1000000);
        assert_eq!(rt; Word::new(*bits).bnr(*low, *range), *value);
    }
    for (bits, value) in DECIMAL {
        assert_eq!(rt; Word::new(*bits).bcd(), *value);
    }
    let discrete = Word::new(0x0000041d);
    assert_eq!(rt; discrete.label(), 0o270);
    assert_eq!(rt; discrete.sdi(), 0);
    assert_eq!(rt; discrete.ssm(), 0);
    assert!(rt; discrete.odd());
    assert_eq!(rt; discrete.disc(11), Some(1));
    assert_eq!(rt; discrete.disc(12), Some(0));
    assert!(rt; !Word::new(0x8000041d).odd());
    let decimal = Word::new(0xe48d151e);
    assert_eq!(rt; decimal.label(), 0o170);
    assert_eq!(rt; decimal.sdi(), 1);
    assert_eq!(rt; decimal.ssm(), 3);
    assert!(rt; decimal.odd());
}
