//! The bits of data units of each type, HDU, LDU1, LDU2, TDU and TDULC, computed apart from this code.

use super::{Voice, VoiceFrame, VoiceUnit, voice_image, voice_length};
use p25_bits::BitBuf;
use p25_link::{EncryptionSync, HeaderWord, LinkControl};

// A message indicator (MI).
const MI: [u8; 9] = [0x12, 0x34, 0x56, 0x78, 0x9A, 0xBC, 0xDE, 0xF0, 0x0F];

// Link control (LC).
const LINK: LinkControl = LinkControl([0x00, 0x90, 0x80, 0x00, 0x12, 0x34, 0x56, 0x78, 0x9A]);

// The bits of an HDU.
const HDU_BITS: [u64; 13] = [
    0x5575_F5FF_77FF_2930,
    0x0F3B_5DF8_01C2_12A5,
    0xE371_846E_3160_CE7B,
    0x4209_52DA_88D7_C2FB,
    0xDFBA_2F04_9000_00F6,
    0x8493_1688_DC61_2A5D,
    0x2A59_37EE_8A4F_8BC1,
    0x24DF_BA52_7C2C_19C3,
    0xDA13_57D6_31D4_4C75,
    0x1C16_A932_B299_5929,
    0x3E0B_0672_E8A2_6FDD,
    0x063A_981B_36BA_DE00,
    0x0000,
];

// The bits of an HDU whose header word is 0.
const EMPTY_HDU_BITS: [u64; 13] = [
    0x5575_F5FF_77FF_0000,
    0x0000,
    0x0000,
    0x0000,
    0x0000,
    0x0000,
    0x0000,
    0x0000,
    0x0000,
    0x0000,
    0x0000,
    0x0000,
    0x0000,
];

// The bits of a TDU.
const TDU_BITS: [u64; 3] = [0x5575_F5FF_77FF_FFF3, 0x26CF_422C_4D4E_0000, 0x0000];

// The bits of a TDULC.
const TDULC_BITS: [u64; 7] = [
    0x5575_F5FF_77FF_123F,
    0xADC3_CF2A_9192_0095,
    0x2D08_03DA_0018_EB23,
    0x4055_5671_9989_A830,
    0x9D37_30A6_B45A_919D,
    0x8B70_D15D_2C94_06B0,
    0x0000_000B_8BA0_0000,
];

// The bits of an LDU1 whose octets count on.
const COUNTED_LDU1_BITS: [u64; 27] = [
    0x5575_F5FF_77FF_2935,
    0x55EF_2C65_3437_0001,
    0x0203_0405_0607_0809,
    0x0A0B_0C0D_0E0F_1011,
    0x1213_1415_1617_1819,
    0x1A1B_1C1D_1E1F_2021,
    0x2223_0009_708C_0024,
    0x2526_2728_292A_2B2C,
    0x2D2E_2F30_3132_3334,
    0x3500_01C2_2F44_3637,
    0x3839_3A3B_3C3D_3E3F,
    0x4041_4243_4445_4647,
    0x55A7_68B5_A548_494A,
    0x4B4C_4D4E_4F50_5152,
    0x5354_5556_5758_599D,
    0x932A_66BA_5A5B_5C5D,
    0x5E5F_6061_6263_6465,
    0x6667_6869_6A6B_9259,
    0xA704_D06C_6D6E_6F70,
    0x7172_7374_7576_7778,
    0x797A_7B7C_7D2D_097B,
    0x08B4_7E7F_8081_8283,
    0x8485_8687_8889_8A8B,
    0x8C8D_8E8F_5A7F_C322,
    0x9091_9293_9495_9697,
    0x9899_9A9B_9C9D_9E9F,
    0xA0A1,
];

// The bits of an LDU1 with all its information bits 1.
const ONES_LDU1_BITS: [u64; 27] = [
    0x5575_F5FF_77FF_FFF5,
    0x4A57_1CC5_9417_FFFF,
    0xFFFF_FFFF_FFFF_FFFF,
    0xFFFF_FFFF_FFFF_FFFF,
    0xFFFF_FFFF_FFFF_FFFF,
    0xFFFF_FFFF_FFFF_FFFF,
    0xFFFF_FC3F_0FC3_F0FF,
    0xFFFF_FFFF_FFFF_FFFF,
    0xFFFF_FFFF_FFFF_FFFF,
    0xFFFC_3F0F_C3F0_FFFF,
    0xFFFF_FFFF_FFFF_FFFF,
    0xFFFF_FFFF_FFFF_FFFF,
    0xFC3F_0FC3_F0FF_FFFF,
    0xFFFF_FFFF_FFFF_FFFF,
    0xFFFF_FFFF_FFFF_FF69,
    0x655E_AEDE_FFFF_FFFF,
    0xFFFF_FFFF_FFFF_FFFF,
    0xFFFF_FFFF_FFFF_B85C,
    0x1E20_CCFF_FFFF_FFFF,
    0xFFFF_FFFF_FFFF_FFFF,
    0xFFFF_FFFF_FF3C_EC22,
    0xD2DE_FFFF_FFFF_FFFF,
    0xFFFF_FFFF_FFFF_FFFF,
    0xFFFF_FFFF_FF63_FF63,
    0xFFFF_FFFF_FFFF_FFFF,
    0xFFFF_FFFF_FFFF_FFFF,
    0xFFFF,
];

// The bits of an LDU2 whose octets count on.
const LDU2_BITS: [u64; 27] = [
    0x5575_F5FF_77FF_F7EA,
    0x7F32_A167_2919_0001,
    0x0203_0405_0607_0809,
    0x0A0B_0C0D_0E0F_1011,
    0x1213_1415_1617_1819,
    0x1A1B_1C1D_1E1F_2021,
    0x2223_11E3_1445_6924,
    0x2526_2728_292A_2B2C,
    0x2D2E_2F30_3132_3334,
    0x3578_897A_9BCF_3637,
    0x3839_3A3B_3C3D_3E3F,
    0x4041_4243_4445_4647,
    0xDEEF_D000_F348_494A,
    0x4B4C_4D4E_4F50_5152,
    0x5354_5556_5758_5983,
    0x9112_2F44_5A5B_5C5D,
    0x5E5F_6061_6263_6465,
    0x6667_6869_6A6B_D633,
    0xCF3D_4A6C_6D6E_6F70,
    0x7172_7374_7576_7778,
    0x797A_7B7C_7D70_59A7,
    0x066A_7E7F_8081_8283,
    0x8485_8687_8889_8A8B,
    0x8C8D_8E8F_0139_804E,
    0x9091_9293_9495_9697,
    0x9899_9A9B_9C9D_9E9F,
    0xA0A1,
];

// Nine frames of one octet.
fn even_voice(octet: u8) -> Voice {
    Voice::new([VoiceFrame([octet; 18]); 9])
}

// Nine frames whose octets count on from 0.
fn counted_voice() -> Voice {
    let mut frames = [VoiceFrame([0; 18]); 9];
    let mut octet = 0;
    for frame in frames.iter_mut() {
        for place in frame.0.iter_mut() {
            *place = octet;
            octet = if octet < 255 { octet + 1 } else { 0 };
        }
    }
    Voice::new(frames)
}

// Whether bits are these words of 64, the last shorter.
fn are_bits(bare: &BitBuf, words: &[u64]) -> bool {
    if bare.len().div_ceil(64) != words.len() {
        return false;
    }
    for (i, word) in words.iter().enumerate() {
        if i >= 27 || 64 * i >= bare.len() {
            return false;
        }
        let width = (bare.len() - 64 * i).min(64);
        if bare.field(64 * i, width as u32) != *word {
            return false;
        }
    }
    true
}

// Whether a unit of a NAC has these bits.
fn is_image(nac: u16, unit: &VoiceUnit, words: &[u64]) -> bool {
    if nac >= 4096 {
        return false;
    }
    let mut bare = BitBuf::new();
    bare.push(true);
    voice_image(nac, unit, &mut bare);
    voice_length(unit.duid()) == Some(bare.len())
        && unit.length() == bare.len()
        && are_bits(&bare, words)
}

// An HDU with these values in its header word.
fn hdu(mi: [u8; 9], mfid: u8, algid: u8, kid: u16, tgid: u16) -> VoiceUnit {
    VoiceUnit::Header(HeaderWord {
        mi,
        mfid,
        algid,
        kid,
        tgid,
    })
}

#[test]
fn hdu_tdu_and_tdulc(rt: HostRuntime) {
    let link = VoiceUnit::EndLink { link: LINK };
    assert!(rt; is_image(0x293, &hdu(MI, 0x90, 0x81, 0x1234, 0xABCD), &HDU_BITS));
    assert!(rt; is_image(0x000, &hdu([0; 9], 0, 0, 0, 0), &EMPTY_HDU_BITS));
    assert!(rt; is_image(0xFFF, &VoiceUnit::End, &TDU_BITS));
    assert!(rt; is_image(0x123, &link, &TDULC_BITS));
}

#[test]
fn ldu1(rt: HostRuntime) {
    let counted = VoiceUnit::Link1 {
        link: LINK,
        low: [0x5A, 0xC3],
        voice: counted_voice(),
    };
    let ones = VoiceUnit::Link1 {
        link: LinkControl([255; 9]),
        low: [255, 255],
        voice: even_voice(255),
    };
    assert!(rt; is_image(0x293, &counted, &COUNTED_LDU1_BITS));
    assert!(rt; is_image(0xFFF, &ones, &ONES_LDU1_BITS));
}

#[test]
fn ldu2(rt: HostRuntime) {
    let unit = VoiceUnit::Link2 {
        sync: EncryptionSync {
            mi: MI,
            algid: 0x81,
            kid: 0x1234,
        },
        low: [0x01, 0x80],
        voice: counted_voice(),
    };
    assert!(rt; is_image(0xF7E, &unit, &LDU2_BITS));
}
