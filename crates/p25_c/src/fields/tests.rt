//! Fields of data units, and data units built of them.

use super::*;

// Fields of which each octet is another.
fn some_fields(duid: u8) -> FieldParts {
    let mut fields = no_fields(0x293, duid);
    for i in 0..9 {
        fields.lc[i] = i as u8 + 1;
        fields.mi[i] = i as u8 + 11;
        fields.voice[i][i] = i as u8 + 101;
    }
    fields.lsd = [21, 22];
    fields.kid = 0x1234;
    fields.tgid = 0x5678;
    fields.mfid = 0x90;
    fields.algid = 0x81;
    fields
}

#[test]
fn fields_of_units_that_are_built(rt: HostRuntime) {
    // Rows: the data unit identifier (DUID), how many octets the unit has, and what is there: link control, message indicator, talk
    // group, voice.
    for (duid, count, there) in [
        (0u8, 99, [0u8, 1, 1, 0]),
        (3, 18, [0, 0, 0, 0]),
        (5, 216, [1, 0, 0, 1]),
        (10, 216, [0, 1, 0, 1]),
        (15, 54, [1, 0, 0, 0]),
    ] {
        let given = some_fields(duid);
        let mut octets = [0; 216];
        let mut told = no_fields(0, 0);
        assert!(rt; p25_build_fields(&given, 2, &mut octets) == count);
        assert!(rt; p25_unit_fields(&octets, 0, 0, &mut told) == 1);
        assert!(rt; told.nac == 0x293 && told.duid == duid);
        assert!(rt; [told.has_lc, told.has_mi, told.has_tgid, told.has_voice] == there);
        assert!(rt; there[0] == 0 || told.lc == given.lc);
        assert!(rt;
            there[1] == 0 || told.mi == given.mi && told.kid == 0x1234 && told.algid == 0x81
        );
        assert!(rt; there[2] == 0 || told.tgid == 0x5678 && told.mfid == 0x90);
        assert!(rt; there[3] == 0 || told.lsd == given.lsd && told.voice == given.voice);
    }
}
