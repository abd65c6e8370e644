//! The names of the fields that fail, in texts.

ghost use Rattle.std.specs.Prelude.{◌≡◌, ◌+◌, ◌≤◌, ◌++◌, Some, length};
ghost use Rattle.p25_status.specs.FieldNames.{field_name, field_names};

use crate::fields::{Field, FieldList};
use p25_line::Line;
use std::error::Error;
use std::fmt;

/// Appends the names of fields, with commas between them.
pub fn put_field_names(fields: &FieldList, out: &mut Line)
    requires { length out.old + 2032 ≤ 8192 }
    ensures text { out.new ≡ out.old ++ field_names fields.now }
    ensures short { length out.new ≤ length out.old + 2032 }
{
    for i in 0..fields.len() {
        if i > 0 {
            out.put(b",");
        }
        put_field_name(fields.get(i), out);
    }
}

/// Appends the name of a field, as `nid` for the network identifier (NID).
#[tactic(auto, using(p25_line::proofs::DecimalLaws::decimal_octet))]
pub fn put_field_name(field: Field, out: &mut Line)
    requires { length out.old + 15 ≤ 8192 }
    ensures text { out.new ≡ out.old ++ field_name field }
    ensures short { length out.new ≤ length out.old + 15 }
{
    match field {
        Field::Sync => out.put(b"sync"),
        Field::Nid => out.put(b"nid"),
        Field::Duid => out.put(b"duid"),
        Field::HeaderWord => out.put(b"header_word"),
        Field::LinkControl => out.put(b"link_control"),
        Field::EncryptionSync => out.put(b"encryption_sync"),
        Field::LowSpeed1 => out.put(b"low_speed_1"),
        Field::LowSpeed2 => out.put(b"low_speed_2"),
        Field::PacketHeader => out.put(b"packet_header"),
        Field::Length => out.put(b"length"),
        Field::Format => out.put(b"format"),
        Field::PacketCrc => out.put(b"packet_crc"),
        Field::Block(block) => {
            out.put(b"block.");
            out.put_number(u64::from(block));
        }
    }
}

/// Writes the name of a field, as `put_field_name` appends it.
impl fmt::Display for Field {
    ghost output = { λ field. Some (field_name field) };

    fn fmt<W: fmt::Write>(&self, f: &mut fmt::Formatter<W>) -> fmt::Result {
        let mut name = Line::new();
        put_field_name(*self, &mut name);
        fmt::Display::fmt(&name, f)
    }
}

impl Error for Field {}

/// Writes the names of fields, as `put_field_names` appends them.
impl fmt::Display for FieldList {
    ghost output = { λ fields. Some (field_names fields) };

    fn fmt<W: fmt::Write>(&self, f: &mut fmt::Formatter<W>) -> fmt::Result {
        let mut names = Line::new();
        put_field_names(self, &mut names);
        fmt::Display::fmt(&names, f)
    }
}

impl Error for FieldList {}
