//! Units read from lines.

ghost use Rattle.std.specs.Prelude.{◌≡◌, ◌↔◌, ◌<◌, IfOk, Err, length, drop};
ghost use Rattle.p25_line.specs.declared.fault.LineFault.TheVariants.{Long};
ghost use Rattle.p25_units.specs.{UnitParts.{UnitParts}, Units.{IsSendableUnit}};
ghost use Rattle.p25_text.specs.{Grammar.{body_in, read_line_of, read_words as unit_of_words, text_of, unit_in}, Names.{keys_of}};

use super::names::UnitKind;
use super::packets::{confirmed_value, plain_value};
use super::values::{Values, nac_value, values_of_words};
use super::voices::{hdu_value, ldu1_value, ldu2_value, tdulc_value};
use p25_line::{LineFault, LineReader, LineWords, read_whole};
use p25_packet_blocks::{PLAIN_FORMAT, RESPONSE_FORMAT};
use p25_units::{Body, Unit, VoiceUnit};

/// Returns the data unit whose text a line is. Each line that is accepted is the text of its data unit, and the text of
/// each data unit without a failing field is accepted. The error is the first of these reasons that applies:
///
/// - `Long`: the line has more than 8,192 octets.
/// - `Form`: it is not one or more words of octets 21 to 7E hex with single spaces between them.
/// - `Kind`: the first word names no type.
/// - `Key`: there are not as many further words as keys, or one does not begin with its key and `=`.
/// - `Value`: a value does not have its form. Or the format in a packet's header is not that of the type: 16 hex for
///   `confirmed`, 15 hex for `plain`, 03 hex for `response`. Or there are not as many blocks as the header has to
///   follow, or not twelve octets for each of them less four.
pub fn read_line(line: &[u8]) -> Result<Unit, LineFault>
    ensures unit { result ≡ read_line_of line.now }
    ensures long { (result ≡ Err Long) ↔ (8192 < length line.now) }
    ensures text { IfOk result (λ unit. text_of unit ≡ line.now) }
    ensures fits { IfOk result (λ unit. IsSendableUnit unit) }
    ensures each { (unit : UnitParts) → IsSendableUnit unit → text_of unit ≡ line.now → result ≡ Ok unit }
{
    read_whole::<UnitLines>(line)
}

// Lines that are texts of data units.
struct UnitLines;

impl LineReader for UnitLines {
    ghost use Rattle.p25_text.specs.UnitReadLaws.{unit_words_not_long};

    type Value = Unit;

    ghost words_read = { unit_of_words };

    ghost not_long = { unit_words_not_long };

    fn read_words(words: &LineWords) -> Result<Unit, LineFault> {
        let Some(kind) = UnitKind::named(words.first()) else {
            return Err(LineFault::Kind);
        };
        let keys = kind.keys();
        if words.count() != keys.len() + 1 {
            return Err(LineFault::Key);
        }
        let Some(values) = values_of_words(words, keys) else {
            return Err(LineFault::Key);
        };
        match read_values(kind, &values) {
            Some(unit) => Ok(unit),
            None => Err(LineFault::Value),
        }
    }
}

// Returns the data unit of the values of a type, or `None` if a value does not have its form.
fn read_values(kind: UnitKind, values: &Values) -> Option<Unit>
    requires { length values.now ≡ length (keys_of kind) }
    ensures { result ≡ unit_in kind values.now }
{
    let nac = nac_value(values.get(0))?;
    let body = read_body(kind, values)?;
    Some(Unit::new(nac, body))
}

// Returns the body of a data unit of a type, by the values after the network access code (NAC).
fn read_body(kind: UnitKind, values: &Values) -> Option<Body>
    requires { length values.now ≡ length (keys_of kind) }
    ensures { result ≡ body_in kind (drop 1 values.now) }
{
    match kind {
        UnitKind::Tdu => Some(Body::Voice(VoiceUnit::End)),
        UnitKind::Tdulc => tdulc_value(values).map(Body::Voice),
        UnitKind::Hdu => hdu_value(values).map(Body::Voice),
        UnitKind::Ldu1 => ldu1_value(values).map(Body::Voice),
        UnitKind::Ldu2 => ldu2_value(values).map(Body::Voice),
        UnitKind::Confirmed => { confirmed_value(values.get(1), values.get(2)).map(Body::Packet) }
        UnitKind::Plain => {
            plain_value(PLAIN_FORMAT, values.get(1), values.get(2)).map(Body::Packet)
        }
        UnitKind::Response => {
            plain_value(RESPONSE_FORMAT, values.get(1), values.get(2)).map(Body::Packet)
        }
    }
}
