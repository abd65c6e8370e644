//! Link control (LC), encryption sync (ES) and the header word of an HDU, and their symbols, with values computed apart from this
//! code.

use super::{EncryptionSync, HeaderWord, LinkControl, LinkKind};
use p25_gf64::Sym;
use std::process::Abort;
use std::test::Fail;

#[test]
fn the_example_of_the_head(rt: HostRuntime) {
    let link = LinkControl([0x00, 0x00, 0x80, 0x00, 0x12, 0x34, 0x56, 0x78, 0x9A]);
    let called = LinkKind::Group {
        mfid: 0,
        emergency: true,
        group: 0x1234,
        source: 0x0056_789A,
    };
    assert_eq!(rt; LinkControl::from_symbols(&link.symbols()).kind(), called);
}

// Asserts that symbols have these numbers.
fn assert_numbers(rt: &impl Abort, symbols: &[Sym], numbers: &[u8]) {
    assert_eq!(rt; symbols.len(), numbers.len());
    for (symbol, number) in symbols.iter().zip(numbers) {
        assert_eq!(rt; symbol.value(), *number);
    }
}

#[test]
fn link_control_symbols(rt: HostRuntime) -> Result<(), Fail> {
    // Rows: the octets of link control (LC), and the numbers of the symbols.
    let rows: [([u8; 9], [u8; 12]); 4] = [
        ([0; 9], [0; 12]),
        ([255; 9], [63; 12]),
        (
            [0, 0, 1, 0, 0, 0, 0, 0, 0],
            [0, 0, 0, 1, 0, 0, 0, 0, 0, 0, 0, 0],
        ),
        (
            [0x00, 0x90, 0x80, 0x00, 0x12, 0x34, 0x56, 0x78, 0x9A],
            [0, 9, 2, 0, 0, 1, 8, 52, 21, 39, 34, 26],
        ),
    ];
    for (octets, numbers) in rows {
        let link = LinkControl(octets);
        let symbols = link.symbols();
        assert_numbers(&rt, &symbols, &numbers);
        assert_eq!(rt; LinkControl::from_symbols(&symbols), link);
    }
    Ok(())
}

#[test]
fn encryption_sync_symbols(rt: HostRuntime) -> Result<(), Fail> {
    // Rows: the encryption sync (ES), and the numbers of the symbols.
    let rows: [(EncryptionSync, [u8; 16]); 3] = [
        (
            EncryptionSync {
                mi: [0; 9],
                algid: 0,
                kid: 0,
            },
            [0; 16],
        ),
        (
            EncryptionSync {
                mi: [255; 9],
                algid: 255,
                kid: 65535,
            },
            [63; 16],
        ),
        (
            EncryptionSync {
                mi: [0x12, 0x34, 0x56, 0x78, 0x9A, 0xBC, 0xDE, 0xF0, 0x0F],
                algid: 0x80,
                kid: 0x1234,
            },
            [4, 35, 17, 22, 30, 9, 42, 60, 55, 47, 0, 15, 32, 1, 8, 52],
        ),
    ];
    for (sync, numbers) in rows {
        let symbols = sync.symbols();
        assert_numbers(&rt, &symbols, &numbers);
        assert_eq!(rt; EncryptionSync::from_symbols(&symbols), sync);
    }
    Ok(())
}

#[test]
fn header_word_symbols(rt: HostRuntime) -> Result<(), Fail> {
    // Rows: the header word of an HDU, and the numbers of the symbols.
    let rows: [(HeaderWord, [u8; 20]); 3] = [
        (
            HeaderWord {
                mi: [0; 9],
                mfid: 0,
                algid: 0,
                kid: 0,
                tgid: 0,
            },
            [0; 20],
        ),
        (
            HeaderWord {
                mi: [255; 9],
                mfid: 255,
                algid: 255,
                kid: 65535,
                tgid: 65535,
            },
            [63; 20],
        ),
        (
            HeaderWord {
                mi: [0x12, 0x34, 0x56, 0x78, 0x9A, 0xBC, 0xDE, 0xF0, 0x0F],
                mfid: 0x90,
                algid: 0x81,
                kid: 0x1234,
                tgid: 0xABCD,
            },
            [
                4, 35, 17, 22, 30, 9, 42, 60, 55, 47, 0, 15, 36, 8, 4, 18, 13, 10, 47, 13,
            ],
        ),
    ];
    for (word, numbers) in rows {
        let symbols = word.symbols();
        assert_numbers(&rt, &symbols, &numbers);
        assert_eq!(rt; HeaderWord::from_symbols(&symbols), word);
    }
    Ok(())
}

#[test]
fn kinds_of_calls(rt: HostRuntime) -> Result<(), Fail> {
    // Rows: the octets of link control (LC), and the type of call.
    let rows: [([u8; 9], LinkKind); 7] = [
        (
            [0; 9],
            LinkKind::Group {
                mfid: 0,
                emergency: false,
                group: 0,
                source: 0,
            },
        ),
        (
            [0x00, 0x90, 0x80, 0x00, 0x12, 0x34, 0x56, 0x78, 0x9A],
            LinkKind::Group {
                mfid: 0x90,
                emergency: true,
                group: 0x1234,
                source: 0x0056_789A,
            },
        ),
        (
            [0x00, 0x00, 0x7F, 0xFF, 0xFF, 0x01, 0xFF, 0xFF, 0x02],
            LinkKind::Group {
                mfid: 0,
                emergency: false,
                group: 0xFF01,
                source: 0x00FF_FF02,
            },
        ),
        (
            [0x03, 0x01, 0xFF, 0x12, 0x34, 0x56, 0xFE, 0xDC, 0xBA],
            LinkKind::Individual {
                mfid: 1,
                destination: 0x0012_3456,
                source: 0x00FE_DCBA,
            },
        ),
        ([0x01; 9], LinkKind::Other),
        ([0x02; 9], LinkKind::Other),
        ([0xFF; 9], LinkKind::Other),
    ];
    for (octets, kind) in rows {
        assert_eq!(rt; LinkControl(octets).kind(), kind);
    }
    Ok(())
}
