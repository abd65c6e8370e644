//! The texts are ASCII. The body is empty: the function states what is proved.

ghost use Rattle.std.specs.Prelude.{IsAscii};
ghost use Rattle.p25_calls.specs.{declared.call.Call.{Call as call_type}, CallTexts.{call_text_of}};
ghost use Rattle.p25_units.specs.{UnitParts.{UnitParts}, declared.item.Item.{Item as item_type}};
ghost use Rattle.p25_text.specs.{Grammar.{text_of}, ItemTexts.{item_text_of}};

/// **Theorem.** Each octet of the text of a data unit, of an item and of a call is below 128, whatever these are. So
/// these texts are always UTF-8.
pub fn texts_are_ascii()
    ensures units { (unit : UnitParts) → IsAscii (text_of unit) }
    ensures items { (item : item_type) → IsAscii (item_text_of item) }
    ensures calls { (call : call_type) → IsAscii (call_text_of call) }
{}
