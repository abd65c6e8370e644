//! The laws of codewords and their information.

ghost use Rattle.std.specs.Prelude.{◌≡◌, ℕ, List, length};
ghost use Rattle.p25_code.specs.Words.{IsEncoding};
ghost use Rattle.p25_gf64.specs.declared.symbol.Sym.{Sym};
ghost use Rattle.p25_reed_solomon.specs.{Words.{IsCode, IsWord}, Encoding.{rs_word}};

/// **Theorem.** Each information has a codeword, `rs_word`, and no other.
pub fn encoding_laws()
    ensures word { (n k : ℕ) (info : List Sym) → IsCode n k → length info ≡ k → IsEncoding (IsWord n k) k info (rs_word n k info) }
    ensures only { (n k : ℕ) (info word : List Sym) → IsCode n k → length info ≡ k
        → IsEncoding (IsWord n k) k info word → word ≡ rs_word n k info }
{}
