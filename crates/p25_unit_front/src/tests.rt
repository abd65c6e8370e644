//! Each call once, with a sync and NID computed apart from this code.

ghost use Rattle.std.specs.Prelude.{◌≡◌, length};

use super::{front_fixes, put_front, read_front};
use p25_bch_nid::{Nid, ReadNid};
use p25_bits::BitBuf;
use std::test::Fail;

#[test]
fn the_example_of_the_head(rt: HostRuntime) {
    let nid = Nid::from(0x2933); // NAC 293 hex, DUID 3
    let mut bare = BitBuf::new();
    put_front(&nid, &mut bare);
    assert!(rt; bare.len() == 112 && bare.field(48, 16) == 0x2933);
}

// The transmitted sync and NID of a terminator (TDU) of NAC 0, with the status symbol 0 within the NID.
fn sent_front(wrong_sync: u64, wrong_identifier: u64) -> BitBuf
    ensures { length result ≡ 114 }
{
    let mut sent = BitBuf::new();
    sent.put_field((0x5575_F5FF_77FF ^ wrong_sync) % (1 << 48), 48);
    let identifier = 0x0003_364C_2F74_ECAC ^ wrong_identifier;
    sent.put_field((identifier >> 42) % (1 << 22), 22);
    sent.put_field(0, 2);
    sent.put_field(identifier % (1 << 42), 42);
    sent
}

#[test]
fn fronts(rt: HostRuntime) -> Result<(), Fail> {
    let nid = Nid::new(0, 3).ok_or("an identifier")?;
    let mut bare = BitBuf::new();
    put_front(&nid, &mut bare);
    assert_eq!(rt; bare.len(), 112);
    assert_eq!(rt; bare.field(0, 48), 0x5575_F5FF_77FF);
    // Rows: bit errors of the sync, bit errors of the NID, whether it is decoded, and the fixes.
    let rows: [(u64, u64, bool, u32); 4] = [
        (0, 0, true, 0),
        (0, 1, true, 0),
        (0xF, 0x7FF0, true, 15),
        (1, 0xFFF0, false, 13),
    ];
    for (wrong_sync, wrong_identifier, read, fixes) in rows {
        let sent = sent_front(wrong_sync, wrong_identifier);
        if read {
            assert_eq!(rt; read_front(&sent, 0), Some(ReadNid { nid, wrong: fixes }));
        }
        assert_eq!(rt; front_fixes(&sent, 0, &nid), fixes);
    }
    Ok(())
}
