//! The laws of words and their symbols: of link control (LC), encryption sync (ES) and the header word of an HDU.

ghost use Rattle.std.specs.Prelude.{◌≡◌, List, length};
ghost use Rattle.p25_gf64.specs.declared.symbol.Sym.{Sym};
ghost use Rattle.p25_link.specs.{declared.link_control.LinkControl.{LinkControl}, declared.encryption.EncryptionSync.{EncryptionSync}};
ghost use Rattle.p25_link.specs.declared.encryption.HeaderWord.{HeaderWord};
ghost use Rattle.p25_link.specs.Words.{link_symbols, link_of_symbols, IsLinkControl, sync_symbols, sync_of_symbols, IsEncryptionSync, header_symbols, header_of_symbols, IsHeaderWord};

/// **Theorem.** The conversions between words and symbols are inverse.
pub fn word_laws()
    ensures link { (link : LinkControl) → IsLinkControl link → link_of_symbols (link_symbols link) ≡ link }
    ensures link_back { (symbols : List Sym) → length symbols ≡ 12 → link_symbols (link_of_symbols symbols) ≡ symbols }
    ensures sync { (sync : EncryptionSync) → IsEncryptionSync sync → sync_of_symbols (sync_symbols sync) ≡ sync }
    ensures sync_back { (symbols : List Sym) → length symbols ≡ 16 → sync_symbols (sync_of_symbols symbols) ≡ symbols }
    ensures header { (word : HeaderWord) → IsHeaderWord word → header_of_symbols (header_symbols word) ≡ word }
    ensures header_back { (symbols : List Sym) → length symbols ≡ 20 → header_symbols (header_of_symbols symbols) ≡ symbols }
{}
